// Records: what the programs print for a text, the record of a text, also from the quoting page or with the box of each net, and that of a chip as a value.
use crate::fields::number_at;
use crate::report::{FILL, print_text};
use model::{Chip, Refusal};

// How many bytes the lent buffers have room for: more than any record with its boxes needs.
const ROOM: usize = 2048;

// Who is asked about a text: the programs `place` and `boxes`, the design desk's search, the quoting page's, or the desk's with the box of each net.
#[derive(Clone, Copy)]
pub(crate) enum Service {
    Print,
    PrintBoxes,
    Place,
    Quote,
    Boxes,
}

pub(crate) fn answer_to(text: &[u8], service: Service, out: &mut [u8]) -> Result<usize, Refusal> {
    match service {
        Service::Print => place_print::print_text(text, out),
        Service::PrintBoxes => place_boxes::print_boxes(text, out),
        Service::Place => search::service::place_text(text, out),
        Service::Quote => quote::quote_text(text, out),
        Service::Boxes => place_boxes::boxes_text(text, out),
    }
}

fn lend(text: &[u8], service: Service, room: usize, out: &mut [u8]) {
    if room <= out.len() {
        let answer = answer_to(text, service, &mut out[0..room]);
        print_text(answer, out);
    }
}

// print NAME ROOM; print-boxes, place, quote and boxes the same
pub(crate) fn ask(s: &[u8], text: &[u8], service: Service) {
    let mut out = [FILL; ROOM];
    lend(text, service, number_at(s, 2) as usize, &mut out);
}

fn lend_search(c: Chip, room: usize, out: &mut [u8]) {
    if room <= out.len() {
        let answer = search::service::search_chip(c, &mut out[0..room]);
        print_text(answer, out);
    }
}

// search NAME ROOM
pub(crate) fn search(s: &[u8], c: Chip) {
    let mut out = [FILL; ROOM];
    lend_search(c, number_at(s, 2) as usize, &mut out);
}
