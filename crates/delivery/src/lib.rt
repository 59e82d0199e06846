// A delivery: grammar, token and tree image one after another, as the program reads them.
#![tactic(auto)]

ghost use Rattle.std.specs.Prelude.{◌≡◌, ◌≤◌, ℕ, length, take, drop};
ghost use Rattle.std.specs.Fn.{FnReturnsAt};
ghost use Rattle.judge.specs.Judged.{Judged, lists, given};
ghost use Rattle.delivery.specs.Delivery.{image_length, grammar_in, tokens_in, tree_in, images_in};

use judge::{Refusal, check};

// The bytes of a grammar image's header.
const GRAMMAR_HEADER: usize = 16;

// The bytes of a token image's header.
const TOKEN_HEADER: usize = 6;

// Cuts an image off the front: so many bytes as its total-length field says, or all where fewer are there or
// the header is short.
fn cut<F: Fn(&[u8]) -> u16>(bytes: &[u8], header: usize, total_length: F) -> (&[u8], &[u8])
    requires { header ≤ length bytes.now → F.pre total_length bytes }
    ensures { (says : ℕ)
        × (header ≤ length bytes.now → FnReturnsAt F.Fn total_length bytes.now says)
        × (result.0.now ≡ take (image_length (length bytes.now) header says) bytes.now)
        × (result.1.now ≡ drop (image_length (length bytes.now) header says) bytes.now) }
{
    let there = bytes.len();
    let length = if there < header {
        there
    } else {
        usize::from(total_length(bytes)).min(there)
    };
    bytes.split_at(length)
}

// The three images of a delivery.
fn images_in(delivery: &[u8]) -> (&[u8], &[u8], &[u8])
    ensures grammar { result.0.now ≡ grammar_in delivery.now }
    ensures tokens { result.1.now ≡ tokens_in delivery.now }
    ensures tree { result.2.now ≡ tree_in delivery.now }
{
    let (grammar, rest) = cut(delivery, GRAMMAR_HEADER, grammar_image::total_length);
    let (tokens, tree) = cut(rest, TOKEN_HEADER, token_image::total_length);
    (grammar, tokens, tree)
}

// The grammar image of a delivery.
pub fn grammar_in(delivery: &[u8]) -> &[u8]
    ensures { result.now ≡ grammar_in delivery.now }
{
    images_in(delivery).0
}

// The token image of a delivery.
pub fn tokens_in(delivery: &[u8]) -> &[u8]
    ensures { result.now ≡ tokens_in delivery.now }
{
    images_in(delivery).1
}

// The tree image of a delivery: the rest.
pub fn tree_in(delivery: &[u8]) -> &[u8]
    ensures { result.now ≡ tree_in delivery.now }
{
    images_in(delivery).2
}

// The check on the three images of a delivery.
pub fn check_delivery(
    delivery: &[u8],
    sets: &mut [u32],
    indentations: &mut [u32],
) -> Result<(), Refusal>
    ensures { Judged (images_in delivery.now)
        (lists sets.old indentations.old)
        (given result)
        (lists sets.new indentations.new) }
{
    let (grammar, tokens, tree) = images_in(delivery);
    check(grammar, tokens, tree, sets, indentations)
}
