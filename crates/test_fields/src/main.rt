// Runs lines with choices and strings through the walk and the writer. Standard input has lines of three sample words (module sample); for each the values
// of its fields are printed, as held (a string by its place), `absent` for a field that is not there, and the line as it is written back; or the refusal,
// number,line.
#![tactic(auto)]

mod sample;
mod show;

fn main() {
    let mut input = io::buffer();
    let n = io::read_full(0, &mut input);
    show::run(&input[0..n]);
}
