// The test of a proposed half fit: coordinates, amounts worth their length, and a reason for each macro's coordinate.
ghost use Rattle.std.specs.Prelude.{IfSome};
ghost use Rattle.axis_bounds.specs.Half.{HalfOn};
ghost use Rattle.half_arrays.specs.Arrays.{axis_on};
ghost use Rattle.half_arrays.specs.State.{coordinates};

use half_arrays::{ARCS, POOL, TAB};
use half_reason::reasons;
use half_values::keeps::keeps_bounds;
use half_values::length::half_length;
use half_values::values::coordinates_of;
use half_worth::worth_of;

// What a proposal says that it is.
#[derive(Clone, Copy)]
pub(crate) enum Proposal {
    // The fit.
    Fit,
    // Nothing keeps the bounds.
    Nothing,
    // The fit is longer than the room.
    Longer,
}

// The length of the half fit of the arrays, if the coordinates of state o are shown to be it.
pub(crate) fn test_fit(
    tab: &[u32; TAB],
    arcs: &[u32; ARCS],
    st: &[u32; POOL],
    o: usize,
) -> Option<u64>
    ensures { IfSome result (λ l. HalfOn (axis_on tab.now arcs.now) l (coordinates st.now o)) }
{
    let z = coordinates_of(st, o);
    if keeps_bounds(arcs, z) && reasons(tab, arcs, st, o) {
        let l = half_length(tab, z);
        let w = worth_of(tab, arcs, st, o);
        if w.passes && w.less <= w.more && l <= w.more - w.less {
            Some(l)
        } else {
            None
        }
    } else {
        None
    }
}
