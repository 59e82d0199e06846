// The limits of document 01, each under its name, and the relation step.
#![tactic(auto)]

pub mod relation;

ghost use Rattle.std.specs.Prelude.{◌≡◌};
ghost use Rattle.rules.specs.Limits.{column_allowed};

// Terminals of a grammar.
pub const TERMINALS: u16 = 1024;

// Nonterminals of a grammar.
pub const NONTERMINALS: u16 = 1024;

// Productions of a grammar.
pub const PRODUCTIONS: u16 = 1024;

// Symbol entries of a grammar.
pub const ENTRIES: u16 = 4096;

// Symbols in a row.
pub const ROW: u16 = 16;

// Tokens of a sheet.
pub const TOKENS: u16 = 4096;

// The greatest column of a token.
pub const COLUMN: u16 = 4095;

// What a token without a column has in its place.
pub const NO_COLUMN: u16 = 65535;

// Nodes of a tree.
pub const NODES: u16 = 4096;

// The depth of a tree, with 1 for the root.
pub const DEPTH: u16 = 1024;

// Whether a token may have this column, or none.
#[tactic(auto, unfolding(crate::specs::Limits::column_allowed))]
pub fn column_allowed(column: u16) -> bool
    ensures { result ≡ column_allowed column }
{
    column <= COLUMN || column == NO_COLUMN
}
