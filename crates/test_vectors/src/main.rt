// Runs the cases of standard input through the services and prints every answer.
//
// A case is a line: a verb and its fields, each after a tab. In a text \n is LF, \r CR, \xNN the byte NN, \\ a backslash, and {N*s} is s repeated N
// times. A number is decimal, or `max`, the greatest of 64 bits. Positions are written x,y and parted by blanks. A line that begins with # is passed over.
//
//     chip TEXT                      read and written back: `ok`, or number,line
//     record TEXT                    the same of a record
//     on TEXT                        the chip that the next lines are about
//     set KEY NUMBER                 a change of that chip, held as a value (module chips)
//     write NAME ROOM                that chip written: the length of its text, or number,line
//     least NAME WL N ROOM POSITIONS a record written
//     none NAME ROOM POSITIONS       the record `none` written; its positions do not count
//     make NAME THING NUMBERS        a constructor: `made`, or 4
//     measure NAME COUNT POSITIONS   legal or not and the wirelength, from an array and from a lent list
//     fit NAME ROOM LETTERS          a fit, its list counted
//     strings NAME P COUNT           fits of the first COUNT strings of P letters
//     spoil NAME LETTERS I A J B     a fit whose list is changed at I and J before it is counted
//     amounts NAME LETTERS N         the first N amounts of a fit's list
//     print NAME ROOM                what the program `place` prints for the text
//     print-boxes NAME ROOM          what the program `boxes` prints for the text
//     place NAME ROOM                the record of the text
//     quote NAME ROOM                the record of the text from the quoting page
//     boxes NAME ROOM                the record of the text with the box of each net
//     search NAME ROOM               the record of the chip as a value
//     beside NAME TEXT               a record beside the text of the chip: `passed`, or number,line and the text at fault
//     besides NAME N K T W H SIDE FROM TO  small chips made by a rule: records of every placement beside them, right and wrong
//     every NAME N K T W H SIDE FROM TO  small chips made by a rule: the search's records beside those found by trying every position
//     quoted NAME N K T W H SIDE FROM TO  the same chips: the quoting page's records, or 22
//     boxed NAME N K T W H SIDE FROM TO  the same chips: their records with the box of each net
//     undecided NAME N K T W H SIDE FROM TO  the same chips: the fits of the empty string beside those found by trying every position in the die
#![tactic(auto)]

mod besides;
mod blocks;
mod chips;
mod count;
mod every;
mod fields;
mod fitting;
mod measuring;
mod reading;
mod report;
mod rule;
mod searching;
mod unfold;
mod values;
mod verbs;
mod written;

fn main() {
    let mut input = io::large_buffer();
    let n = io::read_full(0, &mut input);
    verbs::run(&input[0..n]);
}
