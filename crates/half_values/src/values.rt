// The coordinates of a state, and the values of the nodes.
ghost use Rattle.std.specs.Prelude.{◌≡◌};
ghost use Rattle.half_arrays.specs.State.{coordinate_at, coordinates, limited};
ghost use Rattle.half_values.specs.Values.{ValuesOf};

use axis_bounds::Axis;
use half_arrays::{NODES, POOL, SIDE, STATE};

fn coordinate(st: &[u32; POOL], o: usize, k: usize) -> u64
    ensures { result ≡ coordinate_at st.now o k }
{
    st[o % 4 * STATE + 544 + k % 16] as u64 % SIDE
}

// The macros' coordinates in state o.
#[tactic(auto, unfolding(half_arrays::specs::State::coordinates))]
pub fn coordinates_of(st: &[u32; POOL], o: usize) -> [u64; Axis::MACROS]
    ensures { result ≡ coordinates st.now o }
{
    [1, 2, 3, 4, 5, 6, 7, 8].map(|k| coordinate(st, o, k))
}

// Each coordinate modulo the die's side.
#[tactic(auto, unfolding(half_arrays::specs::State::limited))]
fn limit(at: [u64; Axis::MACROS]) -> [u64; Axis::MACROS]
    ensures { result ≡ limited at }
{
    at.map(|v| v % SIDE)
}

// The values of the nodes from the macros' coordinates, each taken modulo the die's side.
#[tactic(auto, using(crate::proofs::Valuing::values_are))]
pub fn values_of(at: [u64; Axis::MACROS]) -> [u64; NODES]
    ensures { ValuesOf (limited at) result }
{
    let [a, b, c, d, e, f, g, h] = limit(at);
    [0, a, b, c, d, e, f, g, h]
}

// The values of the nodes in state o.
#[tactic(auto, using(crate::proofs::Valuing::state_values))]
pub fn state_values(st: &[u32; POOL], o: usize) -> [u64; NODES]
    ensures { ValuesOf (coordinates st.now o) result }
{
    values_of(coordinates_of(st, o))
}
