// The token image: its check, its count and its tokens by number.
#![tactic(auto)]

ghost use Rattle.std.specs.Prelude.{◌≡◌, ◌+◌, ◌*◌, ◌<◌, ◌≤◌, length, get_or};
ghost use Rattle.fields.specs.Fields.{field_at, first_fault, nowhere};
ghost use Rattle.token_image.specs.TokenImage.{header_fields, record_fields, records_fields, token_fields};
ghost use Rattle.token_image.specs.TokenImage.{token_count, TokenIs};

use fields::{Fault, Header, field_at};
use rules::{TOKENS, column_allowed};

// A token with its column.
#[derive(Clone, Copy, Debug, PartialEq, Eq)]
pub struct Token {
    pub terminal: u16,
    pub column: u16,
}

// The number of tokens.
pub fn token_count(image: &[u8]) -> u16
    requires { 6 ≤ length image.now }
    ensures { result ≡ token_count image.now }
{
    field_at(image, 0)
}

// The total length that the header says.
pub fn total_length(image: &[u8]) -> u16
    requires { 6 ≤ length image.now }
    ensures { result ≡ field_at image.now 4 }
{
    field_at(image, 4)
}

// Token k.
pub fn token_at(image: &[u8], k: u16) -> Token
    requires { 6 + 4 * k + 4 ≤ length image.now }
    ensures { TokenIs image.now k result }
{
    let at = 6 + 4 * usize::from(k);
    Token {
        terminal: field_at(image, at),
        column: field_at(image, at + 2),
    }
}

// The header's fields.
fn check_header(image: &[u8]) -> Result<(), Fault>
    ensures { result ≡ first_fault (header_fields image.now) }
{
    let header = Header {
        least: 0,
        most: TOKENS,
        bytes: 6,
        record_bytes: 4,
    };
    header.check(image)
}

// Whether field f of token k keeps its rule.
fn token_keeps(image: &[u8], terminals: u16, k: usize, f: usize) -> bool
    requires there { 6 + 4 * k + 4 ≤ length image.now }
    requires field { f < 2 }
    ensures { result ≡ (get_or (record_fields terminals image.now k) f nowhere).keeps }
{
    let value = field_at(image, 6 + 4 * k + 2 * f);
    match f {
        0 => value < terminals,
        _ => column_allowed(value),
    }
}

// The tokens' fields: document 01's nested loops, left by their label with the field's byte.
fn check_records(image: &[u8], terminals: u16) -> Result<(), Fault>
    requires { 6 + 4 * token_count image.now ≤ length image.now }
    ensures { result ≡ first_fault (records_fields terminals image.now) }
{
    let count = usize::from(token_count(image));
    let byte = 'search: loop {
        for k in 0..count {
            for f in 0..2 {
                if !token_keeps(image, terminals, k, f) {
                    break 'search (6 + 4 * k + 2 * f) as u32;
                }
            }
        }
        return Ok(());
    };
    Err(Fault { byte })
}

// Whether an image is a well-formed token image for a grammar of so many terminals: if not, the byte of the first
// field that breaks its rule, or the image's length where that is under 6.
pub fn check_tokens(image: &[u8], terminals: u16) -> Result<(), Fault>
    ensures { result ≡ first_fault (token_fields terminals image.now) }
{
    check_header(image)?;
    check_records(image, terminals)
}
