// The programs `place`, `boxes` and `beside`: their arguments, the reading of texts, and the writing of what is printed for them.
//
// No contract can say what a file or a terminal gives or takes. The work is generic over a reader and a writer: where the bytes of these are known, what is
// written is exactly `place_print::print_text`, `place_boxes::print_boxes` or `beside_print::print_beside` of the whole input. All else is proved safe, and to end.
#![tactic(auto)]

pub mod beside;
pub mod boxes;
mod files;
pub mod place;
mod tell;
mod texts;
