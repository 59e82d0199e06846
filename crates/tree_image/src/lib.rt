// The tree image: its check, its count and its nodes by number.
#![tactic(auto)]

ghost use Rattle.std.specs.Prelude.{◌≡◌, ◌+◌, ◌*◌, ◌≤◌, length};
ghost use Rattle.fields.specs.Fields.{first_fault};
ghost use Rattle.tree_image.specs.TreeImage.{header_fields, records_fields, tree_fields, node_count, node_at};

use fields::{Fault, Header, field_at};
use rules::NODES;

// The number of nodes.
pub fn node_count(image: &[u8]) -> u16
    requires { 6 ≤ length image.now }
    ensures { result ≡ node_count image.now }
{
    field_at(image, 0)
}

// The production number of node n.
pub fn node_at(image: &[u8], n: u16) -> u16
    requires { 6 + 2 * n + 2 ≤ length image.now }
    ensures { result ≡ node_at image.now n }
{
    field_at(image, 6 + 2 * usize::from(n))
}

// The header's fields.
fn check_header(image: &[u8]) -> Result<(), Fault>
    ensures { result ≡ first_fault (header_fields image.now) }
{
    let header = Header {
        least: 1,
        most: NODES,
        bytes: 6,
        record_bytes: 2,
    };
    header.check(image)
}

// The nodes, which are a field each: document 01's loop, left by its label with the field's byte.
fn check_records(image: &[u8], productions: u16) -> Result<(), Fault>
    requires { 6 + 2 * node_count image.now ≤ length image.now }
    ensures { result ≡ first_fault (records_fields productions image.now) }
{
    let count = usize::from(node_count(image));
    let byte = 'search: loop {
        for n in 0..count {
            let at = 6 + 2 * n;
            if field_at(image, at) >= productions {
                break 'search at as u32;
            }
        }
        return Ok(());
    };
    Err(Fault { byte })
}

// Whether an image is a well-formed tree image for a grammar of so many productions: if not, the byte of the first
// field that breaks its rule, or the image's length where that is under 6.
pub fn check_tree(image: &[u8], productions: u16) -> Result<(), Fault>
    ensures { result ≡ first_fault (tree_fields productions image.now) }
{
    check_header(image)?;
    check_records(image, productions)
}
