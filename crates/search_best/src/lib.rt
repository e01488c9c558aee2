// The best placement so far: document 01, "replaced by a shorter one, or by an equally short one that comes earlier".
#![tactic(auto)]

ghost use Rattle.std.specs.Prelude.{◌≡◌};
ghost use Rattle.model.specs.Meaning.{first_of, blank_spot};
ghost use Rattle.placement.specs.Order.{before};
ghost use Rattle.search_branches.specs.Branch.{pick, better};
ghost use Rattle.search_best.specs.Best.{best_of, Told, Better};

use model::{Mac, Outcome, Record, Spot};

// Whether the first n corners of a come before the first m of b.
fn comes_before(n: usize, a: [Spot; Mac::COUNT], m: usize, b: [Spot; Mac::COUNT]) -> bool
    ensures { result ≡ before (first_of blank_spot n a) (first_of blank_spot m b) }
{
    for i in 0..n.min(m).min(Mac::COUNT) {
        let p = a[i];
        let q = b[i];
        if p.x != q.x {
            return p.x < q.x;
        }
        if p.y != q.y {
            return p.y < q.y;
        }
    }
    false
}

// Whether the other replaces the best.
pub fn replaces_best(best: Record, other: Record) -> bool
    ensures best_value { pick result (best_of other) (best_of best) ≡ better (best_of best) (best_of other) }
    ensures told { Told result other }
{
    let Outcome::Least(l, n) = other.outcome else {
        return false;
    };
    let Outcome::Least(m, k) = best.outcome else {
        return true;
    };
    l < m || l == m && comes_before(n, other.spots, k, best.spots)
}

// The best record is replaced by the other where that is better.
pub fn keep_better(best: &mut Record, other: Record)
    ensures { Better best.old other best.new }
{
    if replaces_best(*best, other) {
        *best = other;
    }
}

// The best record after one more.
pub fn replaced(best: Record, other: Record) -> Record
    ensures { Better best other result }
{
    let mut kept = best;
    keep_better(&mut kept, other);
    kept
}
