// The check of document 01: whether a tree is right, over three images, with the set and the least
// indentation of every node written to two lent lists.
#![tactic(auto)]

ghost use Rattle.std.specs.Prelude.{◌≡◌, IfOk};
ghost use Rattle.fields.specs.Images.{images};
ghost use Rattle.images.specs.Held.{images_of};
ghost use Rattle.judge.specs.Judged.{Judged, lists, entries, given, tests, first_refusal, derivation};
ghost use Rattle.judge.specs.Parts.{image_tests, room_tests};
ghost use Rattle.judge.specs.Refusals.{refusal_answer};
ghost use Rattle.judge.specs.declared.Refusal.TheVariants.{Derivation};

use derive::derive;
use fields::Fault;
use grammar_image::{check_grammar, counts_at};
use images::{Formed, FormedTree};
use layout::highest_empty;
use token_image::check_tokens;
use tree_image::check_tree;

// Why a tree is not accepted: document 01's refusals, each with its place.
#[derive(Clone, Copy, Debug, PartialEq, Eq)]
pub enum Refusal {
    // The grammar image is at fault.
    Grammar(Fault),
    // The token image is.
    Tokens(Fault),
    // The tree image is.
    Tree(Fault),
    // A list is too short: the entries needed.
    Room(u32),
    // The nodes do not derive the tokens.
    Derivation(derive::Refusal),
    // The root's set is empty: the highest-numbered node whose set is.
    Empty(u16),
}

impl Refusal {
    // The refusal's number.
    pub fn number(self) -> u8
        ensures { result ≡ (refusal_answer self).number }
    {
        match self {
            Refusal::Grammar(_) => 1,
            Refusal::Tokens(_) => 2,
            Refusal::Tree(_) => 3,
            Refusal::Room(_) => 4,
            Refusal::Derivation(refusal) => refusal.number(),
            Refusal::Empty(_) => 12,
        }
    }

    // The refusal's place.
    pub fn place(self) -> u32
        ensures { result ≡ (refusal_answer self).place }
    {
        match self {
            Refusal::Grammar(fault) => fault.byte,
            Refusal::Tokens(fault) => fault.byte,
            Refusal::Tree(fault) => fault.byte,
            Refusal::Room(needed) => needed,
            Refusal::Derivation(refusal) => u32::from(refusal.place()),
            Refusal::Empty(node) => u32::from(node),
        }
    }
}

impl From<derive::Refusal> for Refusal {
    ghost from_gives = { λ refusal r. r ≡ Derivation refusal };

    fn from(refusal: derive::Refusal) -> Refusal {
        Refusal::Derivation(refusal)
    }
}

// The three images, where none of the tests 1 to 3 refuses.
#[tactic(auto, using(crate::proofs::Tests::formed_images), unfolding(crate::specs::Judged::first_refusal))]
fn formed<'a>(grammar: &'a [u8], tokens: &'a [u8], tree: &'a [u8]) -> Result<Formed<'a>, Refusal>
    ensures answer { given result ≡ first_refusal (image_tests (images grammar.now tokens.now tree.now)) }
    ensures images { IfOk result (λ f. images_of f ≡ images grammar.now tokens.now tree.now) }
{
    check_grammar(grammar).map_err(Refusal::Grammar)?;
    let counts = counts_at(grammar);
    check_tokens(tokens, counts.terminals).map_err(Refusal::Tokens)?;
    check_tree(tree, counts.productions).map_err(Refusal::Tree)?;
    let nodes = FormedTree { grammar, tree };
    Ok(Formed { nodes, tokens })
}

// Whether there is room for a tree of so many nodes in lists of so many entries.
#[tactic(auto, unfolding(crate::specs::Judged::first_refusal, crate::specs::Judged::room))]
fn room(nodes: u16, sets: usize, indentations: usize) -> Result<(), Refusal>
    ensures { given result ≡ first_refusal (room_tests nodes (entries sets indentations)) }
{
    let nodes = usize::from(nodes);
    if sets < 2 * nodes {
        return Err(Refusal::Room((2 * nodes) as u32));
    }
    if indentations < nodes {
        return Err(Refusal::Room(nodes as u32));
    }
    Ok(())
}

// The three images, where none of the tests 1 to 11 refuses, for lists of so many entries.
fn tested<'a>(
    grammar: &'a [u8],
    tokens: &'a [u8],
    tree: &'a [u8],
    sets: usize,
    indentations: usize,
) -> Result<Formed<'a>, Refusal>
    ensures answer { given result
        ≡ first_refusal (tests (images grammar.now tokens.now tree.now)
        (entries sets indentations)) }
    ensures images { IfOk result (λ f. images_of f ≡ images grammar.now tokens.now tree.now) }
{
    let formed = formed(grammar, tokens, tree)?;
    room(formed.nodes.node_count(), sets, indentations)?;
    derive(&formed)?;
    Ok(formed)
}

// Whether the nodes of the tree image derive the tokens, whatever their columns: refused by 1 to 3
// and 5 to 11 of the check, with their places, or derived. No list is lent.
pub fn check_derivation(grammar: &[u8], tokens: &[u8], tree: &[u8]) -> Result<(), Refusal>
    ensures { given result
        ≡ derivation (images grammar.now tokens.now tree.now) }
{
    let images = formed(grammar, tokens, tree)?;
    Ok(derive(&images)?)
}

// Whether the nodes of the tree image are a right tree over the tokens, and whether indentations can
// be given to all of them so that every relation holds. Accepted: the set of node n stands at 2n and
// 2n + 1 of `sets` as low and high, its least indentation at n of `indentations`. Refused as empty: the
// sets stand there, and the place is the highest-numbered node whose set is empty. Any other refusal
// leaves both lists as they came.
pub fn check(
    grammar: &[u8],
    tokens: &[u8],
    tree: &[u8],
    sets: &mut [u32],
    indentations: &mut [u32],
) -> Result<(), Refusal>
    ensures { Judged (images grammar.now tokens.now tree.now)
        (lists sets.old indentations.old)
        (given result)
        (lists sets.new indentations.new) }
{
    let formed = tested(grammar, tokens, tree, sets.len(), indentations.len())?;
    let root = set_pass::root(&formed, sets);
    if root.is_empty() {
        let node = highest_empty(sets, formed.nodes.node_count());
        return Err(Refusal::Empty(node));
    }
    indentation_pass::node(&formed.nodes, sets, indentations, 0, root.low);
    Ok(())
}
