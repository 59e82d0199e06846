// The relation step: what a child leaves its parent, and the least that a parent leaves its child.
// But for the field rule of the grammar image, no other code looks at a relation's number.
ghost use Rattle.std.specs.Prelude.{◌≡◌, ℕ, min, ltb};
ghost use Rattle.rules.specs.Stored.{unbounded};
ghost use Rattle.rules.specs.Numbers.{StandsFor};
ghost use Rattle.rules.specs.Interval.{all_set, below as below_of, leaves as leaves_of, child_leaves, token_leaves};
ghost use Rattle.rules.specs.Interval.{meet as meet_of, least as least_of};

use crate::NO_COLUMN;

// The high of a set with no upper bound.
pub const UNBOUNDED: u32 = 4294967295;

// A set of indentations: the whole numbers from low to high, or from low on where high is
// `UNBOUNDED`. It is empty where high is below low, and then low is 1 and high 0.
#[derive(Clone, Copy, Debug, PartialEq, Eq)]
pub struct Set {
    pub low: u32,
    pub high: u32,
}

impl Set {
    // No number.
    const EMPTY: Set = Set { low: 1, high: 0 };

    // Whether no number is in the set.
    pub fn is_empty(self) -> bool
        ensures { result ≡ ltb self.high self.low }
    {
        self.high < self.low
    }
}

// A relation between a node's indentation and a child's.
#[derive(Clone, Copy, Debug, PartialEq, Eq)]
enum Relation {
    // The child stands at its parent's number.
    Equal,
    // Above it.
    Greater,
    // At it or above.
    AtLeast,
    // Anywhere.
    Free,
}

impl From<u8> for Relation {
    ghost from_gives = { StandsFor };

    fn from(number: u8) -> Self {
        match number {
            0 => Relation::Equal,
            1 => Relation::Greater,
            2 => Relation::AtLeast,
            _ => Relation::Free,
        }
    }
}

impl Relation {
    // What a relation leaves the parent of a child with a set that is not empty.
    #[tactic(auto, unfolding(crate::specs::Interval::leaves))]
    fn leaves(self, set: Set) -> Set
        ensures { (r : ℕ) → StandsFor r self → result ≡ leaves_of unbounded r set }
    {
        match self {
            Relation::Equal => set,
            Relation::Greater => below(set.high),
            Relation::AtLeast => Set {
                low: 0,
                high: set.high,
            },
            Relation::Free => all(),
        }
    }
}

// All whole numbers.
pub fn all() -> Set
    ensures { result ≡ all_set unbounded }
{
    Set {
        low: 0,
        high: UNBOUNDED,
    }
}

// The numbers that have a greater one up to a high.
#[tactic(auto, unfolding(crate::specs::Interval::below))]
fn below(high: u32) -> Set
    ensures { result ≡ below_of unbounded high }
{
    match high {
        UNBOUNDED => all(),
        0 => Set::EMPTY,
        _ => Set {
            low: 0,
            high: high - 1,
        },
    }
}

// What a child's set leaves its parent. As the two like it below, it takes the relation's number and
// answers for every one: a symbol is read of any image.
#[tactic(auto, unfolding(crate::specs::Interval::child_leaves))]
pub fn child_leaves(relation: u8, set: Set) -> Set
    ensures { result ≡ child_leaves unbounded relation set }
{
    if set.is_empty() {
        return Set::EMPTY;
    }
    Relation::from(relation).leaves(set)
}

// What a token's column leaves its parent.
#[tactic(auto, unfolding(crate::specs::Interval::token_leaves))]
pub fn token_leaves(relation: u8, column: u16) -> Set
    ensures { result ≡ token_leaves unbounded relation column }
{
    if column == NO_COLUMN {
        return match Relation::from(relation) {
            Relation::Equal => Set::EMPTY,
            Relation::Greater | Relation::AtLeast | Relation::Free => all(),
        };
    }
    let column = u32::from(column);
    Relation::from(relation).leaves(Set {
        low: column,
        high: column,
    })
}

// The numbers that are in both sets.
#[tactic(auto, unfolding(crate::specs::Interval::meet))]
pub fn meet(a: Set, b: Set) -> Set
    ensures { result ≡ meet_of a b }
{
    let both = Set {
        low: a.low.max(b.low),
        high: a.high.min(b.high),
    };
    if both.is_empty() { Set::EMPTY } else { both }
}

// The least number of a child with this set below a parent with indentation i, or the greatest that
// 32 bits hold where it is above that.
#[tactic(auto, unfolding(crate::specs::Interval::least))]
pub fn least(relation: u8, i: u32, set: Set) -> u32
    ensures { result ≡ min (least_of relation i set) unbounded }
{
    match Relation::from(relation) {
        Relation::Equal => i,
        Relation::Greater => i.saturating_add(1).max(set.low),
        Relation::AtLeast => i.max(set.low),
        Relation::Free => set.low,
    }
}
