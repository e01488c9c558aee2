// The things of document 01 as values, each limit with the thing that it limits, and constructors that test the limits.
#![tactic(auto)]

ghost use Rattle.std.specs.Prelude.{◌≡◌, ◌&&◌, leb};
ghost use Rattle.model.specs.Blocks.{blocks_of};
ghost use Rattle.model.specs.Counted.{item_count};
ghost use Rattle.model.specs.Made.{made, made_place, made_pin, make_die, make_fix, make_mac, make_net, make_place, make_pin, remake_pin, make_spot};

// How many bytes a text has at most.
pub const TEXT_MOST: usize = 16384;

// A refusal: its number in document 01's refusal table, and the line (0 where there is none).
#[derive(Clone, Copy)]
pub struct Refusal {
    pub no: usize,
    pub line: usize,
}

// Whether v is within least..most.
pub fn within(v: u64, least: u64, most: u64) -> bool
    ensures { result ≡ (leb least v && leb v most) }
{
    least <= v && v <= most
}

// The die: its width and its height; its lower left corner is at 0,0.
#[derive(Clone, Copy)]
pub struct Die {
    pub w: u64,
    pub h: u64,
}

impl Die {
    // The least width and height.
    pub const SIDE_LEAST: u64 = 1;

    // The greatest width and height.
    pub const SIDE_MOST: u64 = 1024;

    // A die; none where a side is outside its range.
    pub fn new(w: u64, h: u64) -> Option<Die>
        ensures { made result ≡ make_die w h }
    {
        let wide = within(w, Die::SIDE_LEAST, Die::SIDE_MOST);
        let high = within(h, Die::SIDE_LEAST, Die::SIDE_MOST);
        (wide && high).then_some(Die { w, h })
    }
}

// A blockage: its lower left corner at x,y, its width and its height.
#[derive(Clone, Copy)]
pub struct Fix {
    pub x: u64,
    pub y: u64,
    pub w: u64,
    pub h: u64,
}

impl Fix {
    // How many fixes a chip has at most.
    pub const COUNT: usize = 8;

    // The greatest x and y.
    pub const CORNER_MOST: u64 = 1023;

    // The least width and height.
    pub const SIDE_LEAST: u64 = 1;

    // The greatest width and height.
    pub const SIDE_MOST: u64 = 1024;

    // A fix; none where its corner or a side is outside its range.
    pub fn new(x: u64, y: u64, w: u64, h: u64) -> Option<Fix>
        ensures { made result ≡ make_fix x y w h }
    {
        let at = x <= Fix::CORNER_MOST && y <= Fix::CORNER_MOST;
        let wide = within(w, Fix::SIDE_LEAST, Fix::SIDE_MOST);
        let high = within(h, Fix::SIDE_LEAST, Fix::SIDE_MOST);
        (at && wide && high).then_some(Fix { x, y, w, h })
    }
}

// A movable macro: its width and its height.
#[derive(Clone, Copy)]
pub struct Mac {
    pub w: u64,
    pub h: u64,
}

impl Mac {
    // How many macros a chip has at most.
    pub const COUNT: usize = 8;

    // The least width and height.
    pub const SIDE_LEAST: u64 = 1;

    // The greatest width and height.
    pub const SIDE_MOST: u64 = 1024;

    // A macro; none where a side is outside its range.
    pub fn new(w: u64, h: u64) -> Option<Mac>
        ensures { made result ≡ make_mac w h }
    {
        let wide = within(w, Mac::SIDE_LEAST, Mac::SIDE_MOST);
        let high = within(h, Mac::SIDE_LEAST, Mac::SIDE_MOST);
        (wide && high).then_some(Mac { w, h })
    }
}

// A net: its weight, and how many pins it has. The pins of all nets stand in one list, in file order.
#[derive(Clone, Copy)]
pub struct Net {
    pub weight: u64,
    pub pins: usize,
}

impl Net {
    // How many nets a chip has at most.
    pub const COUNT: usize = 32;

    // The least weight.
    pub const WEIGHT_LEAST: u64 = 1;

    // The greatest weight.
    pub const WEIGHT_MOST: u64 = 1000;

    // A net; none where its weight is outside its range.
    pub fn new(weight: u64, pins: usize) -> Option<Net>
        ensures { made result ≡ make_net weight pins }
    {
        within(weight, Net::WEIGHT_LEAST, Net::WEIGHT_MOST).then_some(Net { weight, pins })
    }
}

// A pin of macro m, or a pad where m is 0. Its x and y are held higher by Pin::UP, so that no field is signed.
#[derive(Clone, Copy)]
pub struct Pin {
    pub m: usize,
    pub xup: u64,
    pub yup: u64,
}

// x or y of a pin as held; none where it is outside its range.
fn raised(x: i64) -> Option<u64>
    ensures { made_place result ≡ make_place x }
{
    let most = Pin::PLACE_MOST as i64;
    if x < -most || most < x {
        return None;
    }
    Some((x + Pin::UP as i64) as u64)
}

impl Pin {
    // How many pins a chip has at most, in all nets.
    pub const COUNT: usize = 128;

    // How far x and y go below 0 and above.
    pub const PLACE_MOST: u64 = 4096;

    // How much higher x and y are held.
    pub const UP: u64 = 4096;

    // The least and the greatest x and y, as held.
    pub const LEAST_UP: u64 = Pin::UP - Pin::PLACE_MOST;

    pub const MOST_UP: u64 = Pin::UP + Pin::PLACE_MOST;

    // A pin or a pad whose x and y are given as held; none where m, x or y is outside its range.
    pub fn held(m: usize, xup: u64, yup: u64) -> Option<Pin>
        ensures { made_pin result ≡ remake_pin (record { m = m; xup = xup; yup = yup }) }
    {
        let across = within(xup, Pin::LEAST_UP, Pin::MOST_UP);
        let up = within(yup, Pin::LEAST_UP, Pin::MOST_UP);
        (m <= Mac::COUNT && across && up).then_some(Pin { m, xup, yup })
    }

    // A pin or a pad; none where m, x or y is outside its range.
    pub fn new(m: usize, x: i64, y: i64) -> Option<Pin>
        ensures { made_pin result ≡ make_pin m x y }
    {
        Pin::held(m, raised(x)?, raised(y)?)
    }
}

// A chip: its die, k fixes, n macros and t nets, with the pins of all nets. Entries past a count do not belong to it; a count above its array stands for one item too many.
#[derive(Clone, Copy)]
pub struct Chip {
    pub die: Die,
    pub k: usize,
    pub fixes: [Fix; Fix::COUNT],
    pub n: usize,
    pub macs: [Mac; Mac::COUNT],
    pub t: usize,
    pub nets: [Net; Net::COUNT],
    pub pins: [Pin; Pin::COUNT],
}

// How many items a count means, of an array of `capacity` items: one too many where it is above that.
pub fn item_count(count: usize, capacity: usize) -> usize
    ensures { result ≡ item_count count capacity }
{
    if count <= capacity {
        count
    } else {
        capacity + 1
    }
}

// The blocks of a chip, whose pairs are decided: n macros and k fixes.
#[derive(Clone, Copy)]
pub struct Blocks {
    pub n: usize,
    pub macs: [Mac; Mac::COUNT],
    pub k: usize,
    pub fixes: [Fix; Fix::COUNT],
}

// The blocks of a chip.
pub fn blocks_of(c: Chip) -> Blocks
    ensures { result ≡ blocks_of c }
{
    let macs = c.macs;
    let fixes = c.fixes;
    Blocks {
        n: c.n,
        macs,
        k: c.k,
        fixes,
    }
}

// A macro's lower left corner in a placement.
#[derive(Clone, Copy)]
pub struct Spot {
    pub x: u64,
    pub y: u64,
}

impl Spot {
    // The greatest x and y.
    pub const MOST: u64 = 1024;

    // A spot; none where x or y is outside its range.
    pub fn new(x: u64, y: u64) -> Option<Spot>
        ensures { made result ≡ make_spot x y }
    {
        (x <= Spot::MOST && y <= Spot::MOST).then_some(Spot { x, y })
    }
}

// What a record says: no placement, or the wirelength and the number of macros placed.
#[derive(Clone, Copy)]
pub enum Outcome {
    None,
    Least(u64, usize),
}

// A record. Spots past the count do not belong to it; a count above the array stands for one macro too many.
#[derive(Clone, Copy)]
pub struct Record {
    pub outcome: Outcome,
    pub spots: [Spot; Mac::COUNT],
}

impl Record {
    // The greatest wirelength.
    pub const LENGTH_MOST: u64 = 589824000;
}
