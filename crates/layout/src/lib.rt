// The sets of nodes in their lent list: low and high of the set of node n stand at 2n and 2n + 1.
// What stands here serves the set pass and the indentation pass of document 01, which are a crate each.
#![tactic(auto)]

ghost use Rattle.std.specs.Prelude.{◌≡◌, [], ◌∷◌, ℕ, ◌+◌, ◌*◌, ◌≤◌, length, get_or};
ghost use Rattle.rules.specs.Interval.{highest_empty};
ghost use Rattle.layout.specs.Written.{written_at};

use rules::relation::Set;

// Writes low and high of the set of node n.
pub fn store(sets: &mut [u32], n: u16, set: Set)
    requires { 2 * n + 2 ≤ length sets.old }
    ensures { sets.new ≡ written_at (2 * n) (set.low ∷ set.high ∷ []) sets.old }
{
    let at = 2 * usize::from(n);
    sets[at] = set.low;
    sets[at + 1] = set.high;
}

// The set of node n.
pub fn set_at(sets: &[u32], n: u16) -> Set
    requires { 2 * n + 2 ≤ length sets.now }
    ensures low { result.low ≡ get_or sets.now (2 * n) 0 }
    ensures high { result.high ≡ get_or sets.now (2 * n + 1) 0 }
{
    let low = 2 * usize::from(n);
    Set {
        low: sets[low],
        high: sets[low + 1],
    }
}

// The highest-numbered of the first `count` nodes whose set is empty, or 0 where none is.
pub fn highest_empty(sets: &[u32], count: u16) -> u16
    requires { 2 * count ≤ length sets.now }
    ensures { result ≡ highest_empty sets.now count }
{
    (0..count)
        .rev()
        .find(|&n| set_at(sets, n).is_empty())
        .unwrap_or(0)
}
