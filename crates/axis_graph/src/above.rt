// The first entry of a list that is above a limit.
ghost use Rattle.std.specs.Prelude.{◌<◌, MatchOption};
ghost use Rattle.axis_graph.specs.Above.{NoneAbove, FirstAbove};

// The place of the first of n entries that is above `most`, where there is one.
pub fn first_above(ws: &[u64], most: u64, n: usize) -> Option<usize>
    ensures { MatchOption result (NoneAbove most ws.now n) (λ i. (i < n) × FirstAbove most ws.now n i) }
{
    ws.iter().take(n).position(|w| most < *w)
}
