// A direction of a chip and its letters as the axis that the solver takes, and its solution.
#![tactic(auto)]

mod pairlist;

ghost use Rattle.std.specs.Prelude.{◌≡◌, map};
ghost use Rattle.fit_slots.specs.Slots.{mac_side};
ghost use Rattle.fit_axes.specs.Axes.{held_pin, held_net, AxisMade, Solves};

use crate::pairlist::pair_slots;
use axis_bounds::{Axis, AxisNet, AxisPin};
use axis_graph::Solution;
use fit_pair_slots::die_side;
use fit_slots::Direction;
use model::{Chip, Mac, Net, Pin};

// A pin with its x, and one with its y, 4,096 higher.
fn pin_across(p: Pin) -> AxisPin
    ensures { result ≡ held_pin Direction.Horizontal p }
{
    AxisPin {
        node: p.m,
        up: p.xup,
    }
}

fn pin_up(p: Pin) -> AxisPin
    ensures { result ≡ held_pin Direction.Vertical p }
{
    AxisPin {
        node: p.m,
        up: p.yup,
    }
}

fn mac_sides(macs: [Mac; Mac::COUNT], d: Direction) -> [u64; Mac::COUNT]
    ensures { result ≡ map (mac_side d) macs }
{
    match d {
        Direction::Horizontal => macs.map(|m| m.w),
        Direction::Vertical => macs.map(|m| m.h),
    }
}

fn axis_pins(pins: [Pin; Pin::COUNT], d: Direction) -> [AxisPin; Axis::PINS]
    ensures { result ≡ map (held_pin d) pins }
{
    match d {
        Direction::Horizontal => pins.map(pin_across),
        Direction::Vertical => pins.map(pin_up),
    }
}

fn net_on(net: Net) -> AxisNet
    ensures { result ≡ held_net net }
{
    AxisNet {
        weight: net.weight,
        pins: net.pins,
    }
}

fn axis_nets(nets: [Net; Net::COUNT]) -> [AxisNet; Axis::NETS]
    ensures { result ≡ map held_net nets }
{
    nets.map(net_on)
}

// The axis of a direction; letters past its room are none of its pairs.
fn axis_of(c: Chip, letters: &[u8], d: Direction) -> Axis
    ensures { AxisMade c letters.now d result }
{
    Axis {
        side: die_side(c.die, d),
        n: c.n,
        sizes: mac_sides(c.macs, d),
        p: letters.len(),
        pairs: pair_slots(c, letters, d),
        base: Pin::UP,
        t: c.t,
        nets: axis_nets(c.nets),
        pins: axis_pins(c.pins, d),
    }
}

// One direction by itself. What is promised is of a chip whose test is passed, with one letter for each pair.
pub fn solve_on(c: Chip, letters: &[u8], d: Direction) -> Solution
    ensures { Solves c letters.now d result.verdict result.at result.amounts }
{
    axis::solve(axis_of(c, letters, d))
}
