// Two lists, of terminals and of columns, to a token image. Terminal numbers are not judged.
#![tactic(auto)]

ghost use Rattle.std.specs.Prelude.{◌≡◌, ◌++◌, ◌+◌, ◌*◌, ◌≤◌, length, drop};
ghost use Rattle.rules.specs.Limits.{max_tokens};
ghost use Rattle.fields.specs.Fields.{first_fault};
ghost use Rattle.packers.specs.Packing.{column_fields, columns_refusal, token_image};
ghost use Rattle.packers.specs.Packing.{token_answer, TokensPacked};

use packers::{Refusal, into_room, put, put_header};
use rules::{TOKENS, column_allowed};

// The first column that is not allowed, of no more columns than a sheet has tokens.
fn check_columns(columns: &[u16]) -> Result<(), Refusal>
    requires { length columns.now ≤ max_tokens }
    ensures { result ≡ columns_refusal (first_fault (column_fields columns.now)) }
{
    for (k, &column) in columns.iter().enumerate() {
        if !column_allowed(column) {
            return Err(Refusal::Column(k as u32));
        }
    }
    Ok(())
}

// The answer, from the lists and the room alone.
#[tactic(auto, unfolding(packers::specs::Packing::token_answer))]
fn token_answer(terminals: &[u16], columns: &[u16], room: usize) -> Result<u16, Refusal>
    ensures { result ≡ token_answer terminals.now columns.now room }
{
    let count = terminals.len();
    if count != columns.len() {
        return Err(Refusal::Entries);
    }
    if count > usize::from(TOKENS) {
        return Err(Refusal::Entries);
    }
    check_columns(columns)?;
    into_room(6 + 4 * count, room)
}

// The image at the start of an output that has room for it.
fn write_tokens(terminals: &[u16], columns: &[u16], out: &mut [u8])
    requires counted { (length terminals.now ≡ length columns.now) × (length terminals.now ≤ max_tokens) }
    requires room { 6 + 4 * length terminals.now ≤ length out.old }
    ensures { out.new
        ≡ token_image terminals.now columns.now
        ++ drop (6 + 4 * length terminals.now) out.old }
{
    let count = terminals.len();
    put_header(out, count as u16, (6 + 4 * count) as u16);
    for (k, (&terminal, &column)) in terminals.iter().zip(columns).enumerate() {
        put(out, 3 + 2 * k, terminal);
        put(out, 4 + 2 * k, column);
    }
}

// Packs a list of terminals and one of their columns as a token image at the start of the output, and
// gives its length. Refused, and then nothing is written: lists of unequal length or over the greatest
// number of tokens; a column that is not allowed; too little room.
#[tactic(auto, using(packers::proofs::Packing::tokens_fit))]
pub fn pack_tokens(terminals: &[u16], columns: &[u16], out: &mut [u8]) -> Result<u16, Refusal>
    ensures { TokensPacked terminals.now columns.now out.old
        result
        out.new }
{
    let length = token_answer(terminals, columns, out.len())?;
    write_tokens(terminals, columns, out);
    Ok(length)
}
