// Reads a chip file and a record file by name, and prints `passed`, or `refused,no,16,line,0` with the number and the line of the refusal.
#![tactic(auto)]

fn main(rt: HostRuntime) {
    console::beside::run(&rt);
}
