// The three images once they are found well formed, and what is read of them.
#![tactic(auto)]

ghost use Rattle.std.specs.Prelude.{◌≡◌, ◌+◌, ◌<◌, ◌≤◌, eqb};
ghost use Rattle.fields.specs.Images.{images};
ghost use Rattle.grammar_image.specs.GrammarImage.{ProductionIs, SymbolIs, count_of, entry_count};
ghost use Rattle.token_image.specs.TokenImage.{token_count, TokenIs};
ghost use Rattle.tree_image.specs.TreeImage.{node_count, node_at};
ghost use Rattle.images.specs.Formed.{Formed, FormedTree, formed_prop, formed_tree_prop};

use grammar_image::{Production, Symbol, production_at, symbol_at};
use token_image::{Token, token_at, token_count};
use tree_image::{node_at, node_count};

// A well-formed grammar image, and a tree image that is well formed for its productions.
#[derive(Clone, Copy)]
pub struct FormedTree<'a> {
    pub grammar: &'a [u8],
    pub tree: &'a [u8],
    pub ghost formed: { FormedTree grammar.now tree.now } by { formed_tree_prop _ _ },
}

// And a token image that is well formed for its terminals.
#[derive(Clone, Copy)]
pub struct Formed<'a> {
    pub nodes: FormedTree<'a>,
    pub tokens: &'a [u8],
    pub ghost formed: { Formed (images nodes.grammar.now tokens.now nodes.tree.now) } by { formed_prop _ },
}

impl FormedTree<'_> {
    // The number of nodes.
    pub fn node_count(&self) -> u16
        ensures { result ≡ node_count self.now.tree.now }
    {
        node_count(self.tree)
    }

    // The production of node n. Its row ends within the symbol entries.
    pub fn production_of(&self, n: u16) -> Production
        requires { n < node_count self.now.tree.now }
        ensures production { ProductionIs self.now.grammar.now (node_at self.now.tree.now n) result }
        ensures row { result.first + result.count ≤ entry_count self.now.grammar.now }
    {
        production_at(self.grammar, node_at(self.tree, n))
    }

    // Whether the row of node n is empty: nothing stands below it.
    pub fn is_empty(&self, n: u16) -> bool
        requires { n < node_count self.now.tree.now }
        ensures { result ≡ eqb (count_of self.now.grammar.now (node_at self.now.tree.now n)) 0 }
    {
        self.production_of(n).count == 0
    }

    // The symbol of entry y.
    pub fn symbol_at(&self, y: u32) -> Symbol
        requires { y < entry_count self.now.grammar.now }
        ensures { SymbolIs self.now.grammar.now y result }
    {
        symbol_at(self.grammar, y)
    }
}

impl Formed<'_> {
    // The number of tokens.
    pub fn token_count(&self) -> u16
        ensures { result ≡ token_count self.now.tokens.now }
    {
        token_count(self.tokens)
    }

    // Token k.
    pub fn token_at(&self, k: u16) -> Token
        requires { k < token_count self.now.tokens.now }
        ensures { TokenIs self.now.tokens.now k result }
    {
        token_at(self.tokens, k)
    }
}
