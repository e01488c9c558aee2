// A chip as one array of numbers, which can be lent. At 0..4 the counts of fixes, macros and nets, and the die; then macros, nets,
// pins and fixes, each item's numbers side by side. The fixes stand last: 640 places have room for 42 of them.
#![tactic(auto)]

ghost use Rattle.std.specs.Prelude.{◌≡◌};
ghost use Rattle.chip_array.specs.Array.{macs_in, nets_in, pins_in, fixes_in, chip_in};

use model::{Chip, Die, Fix, Mac, Net, Pin};

// How many numbers the array has.
pub const CELLS: usize = 640;

// Where the first item of each kind begins.
pub const MACS: usize = 8;

pub const NETS: usize = MACS + 2 * Mac::COUNT;

pub const PINS: usize = NETS + 2 * Net::COUNT;

pub const FIXES: usize = PINS + 3 * Pin::COUNT;

// How many macros the chip has.
pub fn macro_count(cs: &[u64; CELLS]) -> usize
    ensures { result ≡ (chip_in cs.now).n }
{
    cs[1] as usize
}

// The chip's macros.
fn macs_in(cs: &[u64; CELLS]) -> [Mac; Mac::COUNT]
    ensures { result ≡ macs_in cs.now }
{
    let mut macs = [Mac { w: 0, h: 0 }; Mac::COUNT];
    for i in 0..Mac::COUNT {
        let p = MACS + 2 * i;
        macs[i] = Mac {
            w: cs[p],
            h: cs[p + 1],
        };
    }
    macs
}

// The chip's nets.
fn nets_in(cs: &[u64; CELLS]) -> [Net; Net::COUNT]
    ensures { result ≡ nets_in cs.now }
{
    let mut nets = [Net { weight: 0, pins: 0 }; Net::COUNT];
    for i in 0..Net::COUNT {
        let p = NETS + 2 * i;
        nets[i] = Net {
            weight: cs[p],
            pins: cs[p + 1] as usize,
        };
    }
    nets
}

// The chip's pins.
fn pins_in(cs: &[u64; CELLS]) -> [Pin; Pin::COUNT]
    ensures { result ≡ pins_in cs.now }
{
    let mut pins = [Pin {
        m: 0,
        xup: 0,
        yup: 0,
    }; Pin::COUNT];
    for i in 0..Pin::COUNT {
        let p = PINS + 3 * i;
        pins[i] = Pin {
            m: cs[p] as usize,
            xup: cs[p + 1],
            yup: cs[p + 2],
        };
    }
    pins
}

// The chip's fixes.
fn fixes_in(cs: &[u64; CELLS]) -> [Fix; Fix::COUNT]
    ensures { result ≡ fixes_in cs.now }
{
    let mut fixes = [Fix {
        x: 0,
        y: 0,
        w: 0,
        h: 0,
    }; Fix::COUNT];
    for i in 0..Fix::COUNT {
        let p = FIXES + 4 * i;
        fixes[i] = Fix {
            x: cs[p],
            y: cs[p + 1],
            w: cs[p + 2],
            h: cs[p + 3],
        };
    }
    fixes
}

// The chip that an array stands for.
pub fn chip_in(cs: &[u64; CELLS]) -> Chip
    ensures { result ≡ chip_in cs.now }
{
    let fixes = fixes_in(cs);
    let macs = macs_in(cs);
    let nets = nets_in(cs);
    let pins = pins_in(cs);
    Chip {
        die: Die { w: cs[3], h: cs[4] },
        k: cs[0] as usize,
        fixes,
        n: cs[1] as usize,
        macs,
        t: cs[2] as usize,
        nets,
        pins,
    }
}
