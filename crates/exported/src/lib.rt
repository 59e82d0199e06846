// The C face of the library, with numbers and slices only: the check, that of the derivation alone, the
// two packers and the checks of the three images. include/pravisondo.h says to a C programmer what each
// takes, gives and leaves. Every call gives one number of 64 bits: bits 0 to 7 are the answer's number,
// bits 8 to 31 the length that a packer wrote, bits 32 to 63 the place.
#![tactic(auto)]

ghost use Rattle.fields.specs.Fields.{first_fault};
ghost use Rattle.fields.specs.Images.{images};
ghost use Rattle.grammar_image.specs.GrammarImage.{grammar_fields};
ghost use Rattle.token_image.specs.TokenImage.{token_fields};
ghost use Rattle.tree_image.specs.TreeImage.{tree_fields};
ghost use Rattle.judge.specs.Judged.{lists, given, derivation};
ghost use Rattle.exported.specs.Calls.{Says, SaysAnswer, SaysChecked, SaysPacked};
ghost use Rattle.exported.specs.Calls.{CheckCalled, TreeCalled, TokensCalled};

use grammar_image::check_grammar;
use judge::{Refusal, check, check_derivation};
use token_image::check_tokens;
use token_packer::pack_tokens;
use tree_image::check_tree;
use tree_packer::pack_tree;

// Number, length and place in one number.
fn in_one(number: u8, length: u16, place: u32) -> u64
    ensures { Says result number length place }
{
    u64::from(number) + 256 * u64::from(length) + 4294967296 * u64::from(place)
}

// What a check answers.
fn answer_in_one(answer: Result<(), Refusal>) -> u64
    ensures { SaysAnswer (given answer) result }
{
    match answer {
        Ok(()) => in_one(0, 0, 0),
        Err(refusal) => in_one(refusal.number(), 0, refusal.place()),
    }
}

// What a packer answers.
fn packed_in_one(packed: Result<u16, packers::Refusal>) -> u64
    ensures { SaysPacked packed result }
{
    match packed {
        Ok(length) => in_one(0, length, 0),
        Err(unpacked) => in_one(unpacked.number(), 0, unpacked.place()),
    }
}

// `judge::check`.
#[unsafe(no_mangle)]
pub extern "C" fn pravisondo_check(
    grammar: &[u8],
    tokens: &[u8],
    tree: &[u8],
    sets: &mut [u32],
    indentations: &mut [u32],
) -> u64
    ensures { CheckCalled (images grammar.now tokens.now tree.now)
        (lists sets.old indentations.old)
        result
        (lists sets.new indentations.new) }
{
    answer_in_one(check(grammar, tokens, tree, sets, indentations))
}

// `judge::check_derivation`.
#[unsafe(no_mangle)]
pub extern "C" fn pravisondo_derive(grammar: &[u8], tokens: &[u8], tree: &[u8]) -> u64
    ensures { SaysAnswer (derivation (images grammar.now tokens.now tree.now))
        result }
{
    answer_in_one(check_derivation(grammar, tokens, tree))
}

// `grammar_image::check_grammar`, with 1 for its refusal.
#[unsafe(no_mangle)]
pub extern "C" fn pravisondo_check_grammar(image: &[u8]) -> u64
    ensures { SaysChecked 1 (first_fault (grammar_fields image.now)) result }
{
    answer_in_one(check_grammar(image).map_err(Refusal::Grammar))
}

// `token_image::check_tokens`, with 2 for its refusal.
#[unsafe(no_mangle)]
pub extern "C" fn pravisondo_check_tokens(image: &[u8], terminals: u16) -> u64
    ensures { SaysChecked 2 (first_fault (token_fields terminals image.now)) result }
{
    answer_in_one(check_tokens(image, terminals).map_err(Refusal::Tokens))
}

// `tree_image::check_tree`, with 3 for its refusal.
#[unsafe(no_mangle)]
pub extern "C" fn pravisondo_check_tree(image: &[u8], productions: u16) -> u64
    ensures { SaysChecked 3 (first_fault (tree_fields productions image.now)) result }
{
    answer_in_one(check_tree(image, productions).map_err(Refusal::Tree))
}

// `tree_packer::pack_tree`.
#[unsafe(no_mangle)]
pub extern "C" fn pravisondo_pack_tree(productions: &[u16], output: &mut [u8]) -> u64
    ensures { TreeCalled productions.now output.old result output.new }
{
    packed_in_one(pack_tree(productions, output))
}

// `token_packer::pack_tokens`.
#[unsafe(no_mangle)]
pub extern "C" fn pravisondo_pack_tokens(
    terminals: &[u16],
    columns: &[u16],
    output: &mut [u8],
) -> u64
    ensures { TokensCalled terminals.now columns.now output.old
        result
        output.new }
{
    packed_in_one(pack_tokens(terminals, columns, output))
}
