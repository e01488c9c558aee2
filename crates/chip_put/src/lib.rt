// A chip stored as one array of numbers, item by item.
#![tactic(auto)]

ghost use Rattle.std.specs.Prelude.{◌≡◌, ◌+◌, ◌≤◌, take};
ghost use mathlib.Core.List.{flat_map};
ghost use Rattle.std.proofs.lemmas.List.Edits.{sets};
ghost use Rattle.chip_array.specs.Array.{macs_at, nets_at, pins_at, fixes_at, chip_in};
ghost use Rattle.chip_put.specs.Numbers.{mac_numbers, net_numbers, pin_numbers, fix_numbers};

use chip_array::{CELLS, FIXES, MACS, NETS, PINS};
use model::{Chip, Fix, Mac, Net, Pin};

// The first w of four numbers, from place p on.
fn put(v: [u64; 4], w: usize, p: usize, cs: &mut [u64; CELLS])
    requires { (w ≤ 4) × (p + w ≤ 640) }
    ensures { cs.new ≡ sets cs.old p (take w v) }
{
    for q in 0..w {
        cs[p + q] = v[q];
    }
}

// The numbers of each macro, at its place.
fn put_macs(macs: [Mac; Mac::COUNT], cs: &mut [u64; CELLS])
    ensures { cs.new ≡ sets cs.old macs_at (flat_map mac_numbers macs) }
{
    for i in 0..Mac::COUNT {
        let m = macs[i];
        put([m.w, m.h, 0, 0], 2, MACS + 2 * i, cs);
    }
}

// The numbers of each net, at its place.
fn put_nets(nets: [Net; Net::COUNT], cs: &mut [u64; CELLS])
    ensures { cs.new ≡ sets cs.old nets_at (flat_map net_numbers nets) }
{
    for i in 0..Net::COUNT {
        let t = nets[i];
        put([t.weight, t.pins as u64, 0, 0], 2, NETS + 2 * i, cs);
    }
}

// The numbers of each pin, at its place.
fn put_pins(pins: [Pin; Pin::COUNT], cs: &mut [u64; CELLS])
    ensures { cs.new ≡ sets cs.old pins_at (flat_map pin_numbers pins) }
{
    for i in 0..Pin::COUNT {
        let q = pins[i];
        put([q.m as u64, q.xup, q.yup, 0], 3, PINS + 3 * i, cs);
    }
}

// The numbers of each fix, at its place.
fn put_fixes(fixes: [Fix; Fix::COUNT], cs: &mut [u64; CELLS])
    ensures { cs.new ≡ sets cs.old fixes_at (flat_map fix_numbers fixes) }
{
    for i in 0..Fix::COUNT {
        let f = fixes[i];
        put([f.x, f.y, f.w, f.h], 4, FIXES + 4 * i, cs);
    }
}

// The array that stands for a chip.
pub fn array_of(c: Chip) -> [u64; CELLS]
    ensures { chip_in result ≡ c }
{
    let mut cs = [0u64; CELLS];
    cs[0] = c.k as u64;
    cs[1] = c.n as u64;
    cs[2] = c.t as u64;
    cs[3] = c.die.w;
    cs[4] = c.die.h;
    let macs = c.macs;
    put_macs(macs, &mut cs);
    let nets = c.nets;
    put_nets(nets, &mut cs);
    let pins = c.pins;
    put_pins(pins, &mut cs);
    let fixes = c.fixes;
    put_fixes(fixes, &mut cs);
    cs
}
