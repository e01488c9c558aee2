// Places the chip of a file, or of standard input, and prints its record and the box of each net, or `refused,no,4,line,1` with the number and the line of the refusal.
#![tactic(auto)]

fn main(rt: HostRuntime) {
    console::boxes::run(&rt);
}
