// Every net's flow, then the smallest of the least values.
ghost use Rattle.std.specs.Prelude.{◌<◌, ◌≤◌};
ghost use Rattle.axis_graph.specs.Limits.{net_room};
ghost use Rattle.axis_graph.specs.Graph.{GraphWithin};
ghost use Rattle.axis_solve.specs.Growth.{Growing};
ghost use Rattle.axis_solve.specs.Admit.{Feasible};
ghost use Rattle.axis_graph.specs.Solved.{Nets, Solved};
ghost use Rattle.axis_solve.specs.Flows.{Settled, Flows};

use crate::augment::{Flowed, augment};
use crate::growth::{Growth, grow_step, seed};
use axis_bounds::Axis;
use axis_graph::{Graph, NODE_ROOM, SLOT_ROOM, Span};

// Every net's weight, from amounts of 0.
fn augment_all(g: Graph, mut x: [u64; NODE_ROOM], nets: [Span; Axis::NETS], count: usize) -> Flowed
    requires graph_within { GraphWithin g }
    requires feasible { Feasible g x }
    requires count_le_net_room { count ≤ net_room }
    requires nets { Nets g nets count }
    ensures { Flows g nets count result.x result.f }
{
    let mut f = [0u64; SLOT_ROOM];
    for p in &nets[..count] {
        let t = augment(g, f, x, p.lo, p.hi, p.weight);
        f = t.f;
        x = t.x;
    }
    Flowed { x, f }
}

// Grows until no slot leaves.
fn settle(g: Graph, f: [u64; SLOT_ROOM], mut w: Growth) -> Growth
    requires graph_within { GraphWithin g }
    requires growing { Growing g f w }
    ensures { Settled g f w.start result }
{
    while let Some(next) = grow_step(g, f, w) {
        w = next;
    }
    w
}

// Values that keep all bounds and give the least weighed sum of spans, the smallest such, and the amounts that prove it.
pub(crate) fn solve_axis(
    g: Graph,
    x: [u64; NODE_ROOM],
    nets: [Span; Axis::NETS],
    count: usize,
) -> Flowed
    requires graph_within { GraphWithin g }
    requires n_nonzero { 0 < g.n }
    requires feasible { Feasible g x }
    requires count_le_net_room { count ≤ net_room }
    requires nets { Nets g nets count }
    ensures { Solved g nets count result.x result.f }
{
    let Flowed { x, f } = augment_all(g, x, nets, count);
    let Growth { x, .. } = settle(g, f, seed(x, 0, 1));
    Flowed { x, f }
}
