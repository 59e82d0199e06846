// The program: reads a delivery from standard input, has it checked, and writes the answer.
#![tactic(auto)]

mod input;

use delivery::{check_delivery, tree_in};
use input::Failed;
use report::report;
use tree_image::node_count;

// One byte more than the three longest images have: what is longer has a tree image that is too long.
const DELIVERY: usize = 47133;

// The sets and the indentations of the greatest tree.
const SETS: usize = 8192;

const INDENTATIONS: usize = 4096;

// Room for the text of every answer.
const TEXT: usize = 344106;

// Checks a delivery and writes the answer. The text is gathered and written at once. The nodes are
// counted where the tree is accepted, and so well formed.
fn answer(rt: &(impl Print + Eprint), delivery: &[u8]) {
    let mut sets = [0u32; SETS];
    let mut indentations = [0u32; INDENTATIONS];
    let mut text = [0u8; TEXT];
    let (number, place, nodes) = match check_delivery(delivery, &mut sets, &mut indentations) {
        Ok(()) => (0, 0, usize::from(node_count(tree_in(delivery)))),
        Err(refusal) => (refusal.number(), refusal.place(), 0),
    };
    let length = report(number, place, nodes, &sets, &indentations, &mut text);
    if rt.write_all(&text[..length]).is_err() {
        complain(rt, "pravisondo: standard output cannot be written");
    }
}

// A line on standard error. Where that fails as well, there is nobody left to tell.
fn complain(rt: &impl Eprint, line: &str) {
    let _ = rt.eprintln(line);
}

fn main(rt: HostRuntime) {
    let mut bytes = [0u8; DELIVERY];
    match input::read(&mut rt.stdin(), &mut bytes) {
        Ok(n) => answer(&rt, &bytes[..n]),
        Err(Failed) => complain(&rt, "pravisondo: standard input cannot be read"),
    }
}
