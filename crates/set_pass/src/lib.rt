// The set pass: a node function and a row function that call each other, falling on the nodes and the
// symbols that remain. They take a tree that derives, and look at no relation's number.
// A set is written after those below it, and read back where it is met. The set of a node with an empty
// row is all whole numbers, without a call.
#![tactic(auto)]

mod next;

ghost use Rattle.std.specs.Prelude.{ℕ, ◌+◌, ◌*◌, ◌<◌, ◌≤◌, length};
ghost use Rattle.grammar_image.specs.GrammarImage.{entry_count};
ghost use Rattle.tree_image.specs.TreeImage.{node_count};
ghost use Rattle.images.specs.Held.{images_of};
ghost use Rattle.layout.specs.Standing.{symbols, SomeTree, SomeRow};
ghost use Rattle.set_pass.specs.Next.{next_node, next_token};
ghost use Rattle.set_pass.specs.Passes.{RootSet, NodeSet, RowSet};

use crate::next::Next;
use grammar_image::Kind;
use images::Formed;
use layout::{set_at, store};
use rules::relation::{Set, all, child_leaves, meet, token_leaves};
use std::ops::Range;

// The root's set. The sets of all nodes are written.
pub fn root(formed: &Formed, sets: &mut [u32]) -> Set
    requires stands { SomeTree (images_of formed.now) 0 0 }
    requires room { 2 * node_count formed.now.nodes.tree.now ≤ length sets.old }
    ensures { RootSet (images_of formed.now) sets.old sets.new result }
{
    node(formed, sets, Next::FIRST);
    set_at(sets, 0)
}

// Writes the sets of the node that is next and of its subtree. Returns what comes next behind them.
#[cycle(node_row)]
fn node(formed: &Formed, sets: &mut [u32], next: Next) -> Next
    requires stands { SomeTree (images_of formed.now) (next_node next) (next_token next) }
    requires room { 2 * node_count formed.now.nodes.tree.now ≤ length sets.old }
    ensures { NodeSet (images_of formed.now) next sets.old sets.new result }
{
    let production = formed.nodes.production_of(next.node);
    row(formed, sets, production.entries(), next)
}

// Writes the sets of a row: those of its nodes, which the symbols of `entries` name, and then that of
// the node whose row it is, what they leave of all whole numbers. `parent` is what came next at that
// node. Returns what comes next behind the row.
#[cycle(node_row)]
fn row(formed: &Formed, sets: &mut [u32], entries: Range<u32>, parent: Next) -> Next
    requires row { entries.end ≤ entry_count formed.now.nodes.grammar.now }
    requires parent { next_node parent < node_count formed.now.nodes.tree.now }
    requires stands { SomeRow (images_of formed.now) (symbols formed.now.nodes.grammar.now entries.start entries.end)
        (next_node parent + 1) (next_token parent) }
    requires room { 2 * node_count formed.now.nodes.tree.now ≤ length sets.old }
    ensures { RowSet (images_of formed.now) (symbols formed.now.nodes.grammar.now entries.start entries.end)
        parent sets.old sets.new result }
{
    let mut left = all();
    let mut next = parent.past_node();
    for y in entries {
        let symbol = formed.nodes.symbol_at(y);
        match symbol.kind() {
            Kind::Terminal => {
                let token = formed.token_at(next.token);
                left = meet(left, token_leaves(symbol.relation, token.column));
                next = next.past_token();
            }
            Kind::Nonterminal => {
                let child = next.node;
                if formed.nodes.is_empty(child) {
                    store(sets, child, all());
                    left = meet(left, child_leaves(symbol.relation, all()));
                    next = next.past_node();
                } else {
                    next = node(formed, sets, next);
                    left = meet(left, child_leaves(symbol.relation, set_at(sets, child)));
                }
            }
        }
    }
    store(sets, parent.node, left);
    next
}
