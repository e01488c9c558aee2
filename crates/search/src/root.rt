// The root of the search: a dot for each pair.
ghost use Rattle.std.specs.Prelude.{◌≡◌, length};
ghost use Rattle.model.specs.Meaning.{chip_of};
ghost use Rattle.chip_text.specs.Passed.{Passed};
ghost use Rattle.chip_array.specs.Array.{chip_in};
ghost use Rattle.fit_slots.specs.Axes.{corners_on};
ghost use Rattle.fit_slots.specs.Fit.{dots};
ghost use Rattle.search_tables.specs.Made.{Hold};
ghost use Rattle.fit_pairs.specs.Count.{letter_total};
ghost use Rattle.search_node.specs.Letters.{letters_in, Lettered};
ghost use Rattle.search_node.specs.Node.{no_record, FitHeld};
ghost use Rattle.search_join.specs.Joined.{HalfSaid, ChildHeld};
ghost use Rattle.search.specs.Search.{upright_spots, RootOk};

use chip_array::macro_count;
use fit_pairs::LETTERS;
use fit_slots::Direction;
use half_fit::service::{HalfFit, HalfOutcome};
use half_values::length::half_length;
use model::{Chip, Mac, Outcome, Record, Spot};
use search_join::{fit_again, joined, spots_with};
use search_node::{Node, no_record};
use search_order::ordered;
use search_tables::Arrays;

// The corners' coordinates in a direction.
fn coordinates(spots: [Spot; Mac::COUNT], d: Direction) -> [u64; Mac::COUNT]
    ensures { result ≡ corners_on d spots }
{
    match d {
        Direction::Horizontal => spots.map(|p| p.x),
        Direction::Vertical => spots.map(|p| p.y),
    }
}

// A placement with x 0 and the given y, of length l.
fn upright(cs: &[u64; chip_array::CELLS], at: [u64; Mac::COUNT], l: u64) -> Record
    ensures value { result ≡ record { outcome = Outcome.Least l (chip_in cs.now).n; spots = upright_spots at } }
    ensures spots_len { length result.spots ≡ 8 }
{
    Record {
        outcome: Outcome::Least(l, macro_count(cs)),
        spots: spots_with(Direction::Vertical, at, [Spot { x: 0, y: 0 }; Mac::COUNT]),
    }
}

// The fit of the letters from its two half fits, of which the vertical one has coordinates at and length l.
fn from_halves(
    cs: &[u64; chip_array::CELLS],
    p: usize,
    letters: [u8; LETTERS],
    fx: HalfFit,
    at: [u64; Mac::COUNT],
    l: u64,
) -> Record
    requires { Passed (chip_in cs.now) × Lettered (chip_in cs.now) letters p × HalfSaid (chip_of (chip_in cs.now)) (letters_in letters p) Direction.Horizontal 4000000000 fx.outcome fx.at × HalfSaid (chip_of (chip_in cs.now)) (letters_in letters p) Direction.Vertical 4000000000 (HalfOutcome.Fit l) at }
    ensures { ChildHeld (chip_in cs.now) letters p no_record result }
{
    joined(
        cs,
        p,
        letters,
        upright(cs, at, l),
        no_record(),
        Direction::Horizontal,
        fx,
        l,
    )
}

// The fit of the letters from its two half fits; where one is not shown, the fit that is sold.
pub(crate) fn first_fit(
    cs: &[u64; chip_array::CELLS],
    p: usize,
    letters: [u8; LETTERS],
    fx: HalfFit,
    fy: HalfFit,
) -> Record
    requires { Passed (chip_in cs.now) × Lettered (chip_in cs.now) letters p × HalfSaid (chip_of (chip_in cs.now)) (letters_in letters p) Direction.Horizontal 4000000000 fx.outcome fx.at × HalfSaid (chip_of (chip_in cs.now)) (letters_in letters p) Direction.Vertical 4000000000 fy.outcome fy.at }
    ensures { FitHeld (chip_in cs.now) letters p result }
{
    let HalfOutcome::Fit(l) = fy.outcome else {
        return fit_again(cs, letters, p);
    };
    let r = from_halves(cs, p, letters, fx, fy.at, l);
    match r.outcome {
        Outcome::Least(_, _) => r,
        Outcome::None => fit_again(cs, letters, p),
    }
}

// The node of the letters, a dot for each pair; x and y are the arrays of the two directions, here is the fit.
pub(crate) fn root(
    c: Chip,
    p: usize,
    letters: [u8; LETTERS],
    x: Arrays,
    y: Arrays,
    here: Record,
) -> Node
    requires { Passed c × (p ≡ letter_total c.n c.k) × (letters ≡ dots 120) × Hold c Direction.Horizontal x.tab x.arcs × Hold c Direction.Vertical y.tab y.arcs × FitHeld c letters p here }
    ensures { RootOk c p result }
{
    let ax = x.arcs;
    let ay = y.arcs;
    Node {
        letters,
        ax,
        ay,
        kx: ordered(c, search_kept::closed(x.arcs)),
        ky: search_kept::closed(y.arcs),
        lx: half_length(&x.tab, coordinates(here.spots, Direction::Horizontal)),
        ly: half_length(&y.tab, coordinates(here.spots, Direction::Vertical)),
        here,
    }
}
