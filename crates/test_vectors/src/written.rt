// The text of a record, also with the box of each net, written without the services that are tested.
use crate::every::{Extent, Found, after, extent_of};
use model::{Chip, Mac, Net, Spot};

// One byte more, where there is room.
fn put_byte(out: &mut [u8], at: usize, b: u8) -> usize {
    if at < out.len() {
        out[at] = b;
        return at + 1;
    }
    at
}

fn put(out: &mut [u8], at: usize, text: &[u8]) -> usize {
    let mut a = at;
    for i in 0..text.len() {
        a = put_byte(out, a, text[i]);
    }
    a
}

fn put_number(out: &mut [u8], at: usize, n: u64) -> usize {
    let mut digits = [0u8; 20];
    let k = io::decimal(n, &mut digits);
    put(out, at, &digits[..k])
}

fn put_spot(out: &mut [u8], at: usize, m: u64, s: Spot) -> usize {
    let mut a = put(out, at, b"at,m,");
    a = put_number(out, a, m);
    a = put(out, a, b",x,");
    a = put_number(out, a, s.x);
    a = put(out, a, b",y,");
    a = put_number(out, a, s.y);
    put(out, a, b"\n")
}

fn put_spots(out: &mut [u8], at: usize, spots: [Spot; Mac::COUNT], n: usize) -> usize {
    let mut a = at;
    for i in 0..Mac::COUNT {
        if n <= i {
            return a;
        }
        a = put_spot(out, a, i as u64 + 1, spots[i]);
    }
    a
}

// The record of what was found for n macros; the answer is its length.
pub(crate) fn put_record(out: &mut [u8], found: Found, n: usize) -> usize {
    let Some(least) = found.least else {
        return put(out, 0, b"none\ndone\n");
    };
    let mut a = put(out, 0, b"least,wl,");
    a = put_number(out, a, least.length);
    a = put(out, a, b"\n");
    a = put_spots(out, a, least.spots, n);
    put(out, a, b"done\n")
}

// A number that is held 4,096 higher, after its mark.
fn put_end(out: &mut [u8], at: usize, mark: &[u8], held: u64) -> usize {
    let a = put(out, at, mark);
    if 4096 <= held {
        return put_number(out, a, held - 4096);
    }
    let minus = put(out, a, b"-");
    put_number(out, minus, 4096 - held)
}

// The line of the box of net j.
fn put_box(out: &mut [u8], at: usize, j: u64, e: Extent) -> usize {
    let least = e.least;
    let most = e.most;
    let mut a = put(out, at, b"box,n,");
    a = put_number(out, a, j);
    a = put_end(out, a, b",l,", least.x);
    a = put_end(out, a, b",r,", most.x);
    a = put_end(out, a, b",b,", least.y);
    a = put_end(out, a, b",t,", most.y);
    put(out, a, b"\n")
}

fn put_boxes(out: &mut [u8], at: usize, c: Chip, spots: [Spot; Mac::COUNT]) -> usize {
    let nets = c.nets;
    let pins = c.pins;
    let t = c.t;
    let mut a = at;
    let mut from: usize = 0;
    for j in 0..Net::COUNT {
        if t <= j {
            return a;
        }
        let net = nets[j];
        let e = extent_of(spots, pins, from, net.pins);
        a = put_box(out, a, j as u64 + 1, e);
        from = after(from, net);
    }
    a
}

// The record of what was found for a chip, then the box of each net there; the answer is their length.
pub(crate) fn put_boxed(out: &mut [u8], found: Found, c: Chip) -> usize {
    let a = put_record(out, found, c.n);
    match found.least {
        Some(least) => put_boxes(out, a, c, least.spots),
        None => a,
    }
}
