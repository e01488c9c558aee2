// Places the chip of a file, or of standard input, and prints its record, or `refused,no,4,line,1` with the number and the line of the refusal.
#![tactic(auto)]

fn main(rt: HostRuntime) {
    console::place::run(&rt);
}
