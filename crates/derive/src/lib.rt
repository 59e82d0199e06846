// The derivation of document 01: whether the nodes of a tree image are a tree of the grammar over the tokens.
// Nothing is written and no list is lent.
#![tactic(auto)]

mod walk;

ghost use Rattle.std.specs.Prelude.{◌≡◌, Ok};
ghost use Rattle.rules.specs.Walk.{walk_done};
ghost use Rattle.images.specs.Held.{images_of};
ghost use Rattle.token_image.specs.TokenImage.{tokens_of};
ghost use Rattle.tree_image.specs.TreeImage.{nodes_of};
ghost use Rattle.derive.specs.Answers.{refusal_answer, derivation_answer, walked_as};
ghost use Rattle.derive.specs.Images.{walk_in};

use crate::walk::{Used, node};
use grammar_image::counts_at;
use images::Formed;
use rules::DEPTH;

// Why a tree does not derive, each with its place.
#[derive(Clone, Copy, Debug, PartialEq, Eq)]
pub enum Refusal {
    // The node whose left side is not the nonterminal due.
    WrongNode(u16),
    // A node is due and none remains: the number of nodes.
    NodesEnd(u16),
    // The token that is not the terminal due.
    WrongToken(u16),
    // A token is due and none remains: the number of tokens.
    TokensEnd(u16),
    // The node that is deeper than the limit.
    TooDeep(u16),
    // The first node that is not used.
    NodesRemain(u16),
    // The first token that is not used.
    TokensRemain(u16),
}

impl Refusal {
    // The refusal's number.
    pub fn number(self) -> u8
        ensures { result ≡ (refusal_answer self).number }
    {
        match self {
            Refusal::WrongNode(_) => 5,
            Refusal::NodesEnd(_) => 6,
            Refusal::WrongToken(_) => 7,
            Refusal::TokensEnd(_) => 8,
            Refusal::TooDeep(_) => 9,
            Refusal::NodesRemain(_) => 10,
            Refusal::TokensRemain(_) => 11,
        }
    }

    // The refusal's place.
    pub fn place(self) -> u16
        ensures { result ≡ (refusal_answer self).place }
    {
        match self {
            Refusal::WrongNode(node) => node,
            Refusal::NodesEnd(nodes) => nodes,
            Refusal::WrongToken(token) => token,
            Refusal::TokensEnd(tokens) => tokens,
            Refusal::TooDeep(node) => node,
            Refusal::NodesRemain(node) => node,
            Refusal::TokensRemain(token) => token,
        }
    }
}

// Nothing may be left once the walk is done.
fn remaining(formed: &Formed, used: Used) -> Result<(), Refusal>
    ensures { derivation_answer result
        ≡ walk_done (nodes_of formed.now.nodes.tree.now) (tokens_of formed.now.tokens.now) (walked_as (Ok used)) }
{
    if used.nodes < formed.nodes.node_count() {
        return Err(Refusal::NodesRemain(used.nodes));
    }
    if used.tokens < formed.token_count() {
        return Err(Refusal::TokensRemain(used.tokens));
    }
    Ok(())
}

// Whether the nodes of the tree image derive the whole token list from the start nonterminal, by a
// walk in preorder: derived, or the first refusal among 5 to 11 with its place.
pub fn derive(formed: &Formed) -> Result<(), Refusal>
    ensures { derivation_answer result ≡ walk_in (images_of formed.now) }
{
    let counts = counts_at(formed.nodes.grammar);
    let root = Used {
        nodes: 0,
        tokens: 0,
    };
    let used = node(formed, DEPTH, counts.start, root)?;
    remaining(formed, used)
}
