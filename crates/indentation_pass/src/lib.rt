// The indentation pass: a node function and a row function that call each other, falling on the nodes
// and the symbols that remain. They take a tree that derives, and look at no relation's number.
// A node is given its number before those below it, each the least that its set and its parent allow.
// A node with an empty row is given it by its parent's row, without a call.
#![tactic(auto)]

ghost use Rattle.std.specs.Prelude.{ℕ, ◌*◌, ◌≤◌, length};
ghost use Rattle.grammar_image.specs.GrammarImage.{entry_count};
ghost use Rattle.tree_image.specs.TreeImage.{node_count};
ghost use Rattle.layout.specs.Standing.{symbols, SomeTreeListed, SomeRowListed};
ghost use Rattle.indentation_pass.specs.Passes.{NodeNumber, RowNumbers};

use grammar_image::Kind;
use images::FormedTree;
use layout::set_at;
use rules::relation::least;
use std::ops::Range;

// Gives node n the number i, and each node of its subtree the least that goes with it. Returns the
// node that comes next.
#[cycle(node_row)]
pub fn node(nodes: &FormedTree, sets: &[u32], indentations: &mut [u32], n: u16, i: u32) -> u16
    requires stands { SomeTreeListed nodes.now.grammar.now nodes.now.tree.now n }
    requires sets { 2 * node_count nodes.now.tree.now ≤ length sets.now }
    requires room { node_count nodes.now.tree.now ≤ length indentations.old }
    ensures { NodeNumber nodes.now.grammar.now nodes.now.tree.now n i
        sets.now indentations.old indentations.new result }
{
    indentations[usize::from(n)] = i;
    let production = nodes.production_of(n);
    row(nodes, sets, indentations, production.entries(), n + 1, i)
}

// Gives the nodes of a row, which the symbols of these entries name, their least numbers below a node
// with the number i, from node n on. Returns the node that comes next.
#[cycle(node_row)]
fn row(
    nodes: &FormedTree,
    sets: &[u32],
    indentations: &mut [u32],
    entries: Range<u32>,
    n: u16,
    i: u32,
) -> u16
    requires row { entries.end ≤ entry_count nodes.now.grammar.now }
    requires stands { SomeRowListed nodes.now.grammar.now nodes.now.tree.now
        (symbols nodes.now.grammar.now entries.start entries.end) n }
    requires sets { 2 * node_count nodes.now.tree.now ≤ length sets.now }
    requires room { node_count nodes.now.tree.now ≤ length indentations.old }
    ensures { RowNumbers nodes.now.grammar.now nodes.now.tree.now
        (symbols nodes.now.grammar.now entries.start entries.end) n i
        sets.now indentations.old indentations.new result }
{
    let mut next = n;
    for y in entries {
        let symbol = nodes.symbol_at(y);
        match symbol.kind() {
            Kind::Terminal => {}
            Kind::Nonterminal => {
                let j = least(symbol.relation, i, set_at(sets, next));
                if nodes.is_empty(next) {
                    indentations[usize::from(next)] = j;
                    next += 1;
                } else {
                    next = node(nodes, sets, indentations, next, j);
                }
            }
        }
    }
    next
}
