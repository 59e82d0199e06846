// The walk in preorder: a node function and a row function that call each other.
ghost use Rattle.std.specs.Prelude.{◌≡◌, ◌≤◌};
ghost use Rattle.rules.specs.Walk.{token_due};
ghost use Rattle.grammar_image.specs.GrammarImage.{entry_count};
ghost use Rattle.token_image.specs.TokenImage.{tokens_of};
ghost use Rattle.images.specs.Held.{images_of};
ghost use Rattle.derive.specs.Answers.{walked_as};
ghost use Rattle.derive.specs.Images.{entries_due_in, node_due_in};

use crate::Refusal;
use grammar_image::Kind;
use images::Formed;
use std::ops::Range;

// So many nodes and tokens are used since the root: the node and the token of these numbers are next.
#[derive(Clone, Copy)]
pub struct Used {
    pub nodes: u16,
    pub tokens: u16,
}

// A token is due that carries the terminal.
fn token(formed: &Formed, terminal: u16, used: Used) -> Result<Used, Refusal>
    ensures { walked_as result ≡ token_due (tokens_of formed.now.tokens.now) terminal used.nodes used.tokens }
{
    let count = formed.token_count();
    if used.tokens >= count {
        return Err(Refusal::TokensEnd(count));
    }
    if formed.token_at(used.tokens).terminal != terminal {
        return Err(Refusal::WrongToken(used.tokens));
    }
    Ok(Used {
        tokens: used.tokens + 1,
        ..used
    })
}

// A node is due that has the nonterminal on its left, where so many levels are left.
#[cycle(node_row)]
pub fn node(formed: &Formed, levels: u16, nonterminal: u16, used: Used) -> Result<Used, Refusal>
    ensures { walked_as result ≡ node_due_in (images_of formed.now) levels nonterminal used.nodes used.tokens }
{
    let n = used.nodes;
    let count = formed.nodes.node_count();
    if n >= count {
        return Err(Refusal::NodesEnd(count));
    }
    let production = formed.nodes.production_of(n);
    if production.left != nonterminal {
        return Err(Refusal::WrongNode(n));
    }
    if levels == 0 {
        return Err(Refusal::TooDeep(n));
    }
    let below = Used {
        nodes: n + 1,
        ..used
    };
    if production.count == 0 {
        return Ok(below);
    }
    row(formed, levels - 1, production.entries(), below)
}

// A row of symbols is due, by the numbers of its entries.
#[cycle(node_row)]
fn row(formed: &Formed, levels: u16, entries: Range<u32>, mut used: Used) -> Result<Used, Refusal>
    requires { entries.end ≤ entry_count formed.now.nodes.grammar.now }
    ensures { walked_as result ≡ entries_due_in (images_of formed.now) levels entries used.nodes used.tokens }
{
    for y in entries {
        let symbol = formed.nodes.symbol_at(y);
        used = match symbol.kind() {
            Kind::Terminal => token(formed, symbol.number, used)?,
            Kind::Nonterminal => node(formed, levels, symbol.number, used)?,
        };
    }
    Ok(used)
}
