// The C names of the library, as a static library: each call is the one of that name in `exported`, with its
// clauses word for word. include/pravisondo.h says to a C programmer what each takes, gives and leaves.
#![tactic(auto)]

ghost use Rattle.fields.specs.Fields.{first_fault};
ghost use Rattle.fields.specs.Images.{images};
ghost use Rattle.grammar_image.specs.GrammarImage.{grammar_fields};
ghost use Rattle.token_image.specs.TokenImage.{token_fields};
ghost use Rattle.tree_image.specs.TreeImage.{tree_fields};
ghost use Rattle.judge.specs.Judged.{lists, derivation};
ghost use Rattle.exported.specs.Calls.{SaysAnswer, SaysChecked};
ghost use Rattle.exported.specs.Calls.{CheckCalled, TreeCalled, TokensCalled};

// `exported::pravisondo_check`.
#[unsafe(no_mangle)]
pub extern "C" fn pravisondo_check(
    grammar: &[u8],
    tokens: &[u8],
    tree: &[u8],
    sets: &mut [u32],
    indentations: &mut [u32],
) -> u64
    ensures { CheckCalled (images grammar.now tokens.now tree.now)
        (lists sets.old indentations.old)
        result
        (lists sets.new indentations.new) }
{
    exported::pravisondo_check(grammar, tokens, tree, sets, indentations)
}

// `exported::pravisondo_derive`.
#[unsafe(no_mangle)]
pub extern "C" fn pravisondo_derive(grammar: &[u8], tokens: &[u8], tree: &[u8]) -> u64
    ensures { SaysAnswer (derivation (images grammar.now tokens.now tree.now))
        result }
{
    exported::pravisondo_derive(grammar, tokens, tree)
}

// `exported::pravisondo_check_grammar`.
#[unsafe(no_mangle)]
pub extern "C" fn pravisondo_check_grammar(image: &[u8]) -> u64
    ensures { SaysChecked 1 (first_fault (grammar_fields image.now)) result }
{
    exported::pravisondo_check_grammar(image)
}

// `exported::pravisondo_check_tokens`.
#[unsafe(no_mangle)]
pub extern "C" fn pravisondo_check_tokens(image: &[u8], terminals: u16) -> u64
    ensures { SaysChecked 2 (first_fault (token_fields terminals image.now)) result }
{
    exported::pravisondo_check_tokens(image, terminals)
}

// `exported::pravisondo_check_tree`.
#[unsafe(no_mangle)]
pub extern "C" fn pravisondo_check_tree(image: &[u8], productions: u16) -> u64
    ensures { SaysChecked 3 (first_fault (tree_fields productions image.now)) result }
{
    exported::pravisondo_check_tree(image, productions)
}

// `exported::pravisondo_pack_tree`.
#[unsafe(no_mangle)]
pub extern "C" fn pravisondo_pack_tree(productions: &[u16], output: &mut [u8]) -> u64
    ensures { TreeCalled productions.now output.old result output.new }
{
    exported::pravisondo_pack_tree(productions, output)
}

// `exported::pravisondo_pack_tokens`.
#[unsafe(no_mangle)]
pub extern "C" fn pravisondo_pack_tokens(
    terminals: &[u16],
    columns: &[u16],
    output: &mut [u8],
) -> u64
    ensures { TokensCalled terminals.now columns.now output.old
        result
        output.new }
{
    exported::pravisondo_pack_tokens(terminals, columns, output)
}
