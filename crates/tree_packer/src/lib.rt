// A list of production numbers to a tree image. Production numbers are not judged.
#![tactic(auto)]

ghost use Rattle.std.specs.Prelude.{◌≡◌, ◌++◌, ◌+◌, ◌*◌, ◌≤◌, length, drop};
ghost use Rattle.rules.specs.Limits.{max_nodes};
ghost use Rattle.packers.specs.Packing.{tree_image, tree_answer, TreePacked};

use packers::{Refusal, into_room, put, put_header};
use rules::NODES;

// The answer, from the list and the room alone.
#[tactic(auto, unfolding(packers::specs::Packing::tree_answer))]
fn tree_answer(productions: &[u16], room: usize) -> Result<u16, Refusal>
    ensures { result ≡ tree_answer productions.now room }
{
    let count = productions.len();
    if count < 1 {
        return Err(Refusal::Entries);
    }
    if count > usize::from(NODES) {
        return Err(Refusal::Entries);
    }
    into_room(6 + 2 * count, room)
}

// The image at the start of an output that has room for it.
fn write_tree(productions: &[u16], out: &mut [u8])
    requires counted { length productions.now ≤ max_nodes }
    requires room { 6 + 2 * length productions.now ≤ length out.old }
    ensures { out.new
        ≡ tree_image productions.now
        ++ drop (6 + 2 * length productions.now) out.old }
{
    let count = productions.len();
    put_header(out, count as u16, (6 + 2 * count) as u16);
    for (n, &production) in productions.iter().enumerate() {
        put(out, 3 + n, production);
    }
}

// Packs a list of production numbers as a tree image at the start of the output, and gives its length.
// Refused, and then nothing is written: an empty list or one over the greatest number of nodes; too little
// room.
#[tactic(auto, using(packers::proofs::Packing::tree_fits))]
pub fn pack_tree(productions: &[u16], out: &mut [u8]) -> Result<u16, Refusal>
    ensures { TreePacked productions.now out.old result out.new }
{
    let length = tree_answer(productions, out.len())?;
    write_tree(productions, out);
    Ok(length)
}
