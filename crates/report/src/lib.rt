// The text that the program prints: number and place of an answer and, on acceptance, one line a node.
#![tactic(auto)]

mod text;

ghost use Rattle.std.specs.Prelude.{◌≡◌};
ghost use Rattle.report.specs.Text.{shown, fits, Reported};

use rules::NODES;
use text::Text;

// The nodes that have a line: all where the number is that of acceptance, else none.
fn shown_nodes(number: u8, nodes: usize) -> usize
    ensures { result ≡ shown number nodes }
{
    if number == 0 { nodes } else { 0 }
}

// Whether lists of these lengths hold the entries of so many nodes, and so many bytes their text:
// two numbers and four a node, each of up to 20 digits and with the byte behind it.
fn text_fits(count: usize, sets: usize, indentations: usize, room: usize) -> bool
    ensures { result ≡ fits count sets indentations room }
{
    count <= usize::from(NODES)
        && 2 * count <= sets
        && count <= indentations
        && 42 + 84 * count <= room
}

// Puts the text of an answer at the start of `out` and gives its length; bytes past it are unchanged.
// The first line has number and place. Where the number is 0 each node below `nodes` has a line: the
// node, low and high at 2n and 2n + 1 of `sets` (- for no upper bound), and its indentation.
// Nothing is written, and 0 given, where a line is due for more than 4,096 nodes or for one whose
// entries are missing, or where `out` has under 42 bytes and 84 more for each line of a node.
pub fn report(
    number: u8,
    place: u32,
    nodes: usize,
    sets: &[u32],
    indentations: &[u32],
    out: &mut [u8],
) -> usize
    ensures { Reported number place nodes sets.now indentations.now out.old
        result
        out.new }
{
    let count = shown_nodes(number, nodes);
    if !text_fits(count, sets.len(), indentations.len(), out.len()) {
        return 0;
    }
    let mut text = Text { out, at: 0 };
    text.number(u64::from(number), b' ');
    text.number(u64::from(place), b'\n');
    text.lines(count, sets, indentations);
    text.at
}
