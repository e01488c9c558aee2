// The length of all nets at given values.
ghost use Rattle.std.specs.Prelude.{◌≡◌};
ghost use Rattle.axis_bounds.specs.Axis.{nets_length};
ghost use Rattle.half_arrays.specs.Arrays.{entry_count, nets_from};
ghost use Rattle.half_arrays.specs.State.{limited};
ghost use Rattle.half_values.specs.Values.{Values, macros, NetEnds};

use crate::values::values_of;
use axis_bounds::Axis;
use half_arrays::{NODES, TAB, entries, least, most, net, node, weight};

// Above all places.
const FAR: u64 = 131072;

// The greatest and the least place of each net; 0 and 131072 of a net with no entry.
#[derive(Clone, Copy)]
struct Ends {
    pub top: [u64; Axis::NETS],
    pub bottom: [u64; Axis::NETS],
}

#[tactic(auto, unfolding(half_arrays::specs::Arrays::node_at, half_arrays::specs::Arrays::net_at))]
fn ends_of(tab: &[u32; TAB], x: &[u64; NODES]) -> Ends
    requires { Values x.now }
    ensures { NetEnds tab.now (macros x.now) (entry_count tab.now) result.top result.bottom }
{
    let mut top = [0u64; Axis::NETS];
    let mut bottom = [FAR; Axis::NETS];
    for e in 0..entries(tab) {
        let j = net(tab, e);
        let k = node(tab, e);
        let p = most(tab, e);
        let q = least(tab, e);
        let v = x[k];
        top[j] = top[j].max(v + p.max(q));
        bottom[j] = bottom[j].min(v + p.min(q));
    }
    Ends { top, bottom }
}

fn length_at(tab: &[u32; TAB], x: &[u64; NODES]) -> u64
    requires { Values x.now }
    ensures { result ≡ nets_length (macros x.now) (nets_from tab.now 0 32) }
{
    let n = ends_of(tab, x);
    let mut l: u64 = 0;
    for j in 0..Axis::NETS {
        l += weight(tab, j) * n.top[j].saturating_sub(n.bottom[j]);
    }
    l
}

// The length of all nets at the macros' coordinates, each taken modulo the die's side.
#[tactic(auto, using(crate::proofs::Lengths::limited_length))]
pub fn half_length(tab: &[u32; TAB], at: [u64; Axis::MACROS]) -> u64
    ensures { result ≡ nets_length (limited at) (nets_from tab.now 0 32) }
{
    length_at(tab, &values_of(at))
}
