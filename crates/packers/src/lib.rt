// What the two packers share: what they answer, and how a field and a header are written.
#![tactic(auto)]

ghost use Rattle.std.specs.Prelude.{◌≡◌, [], ◌∷◌, ◌++◌, ◌+◌, ◌*◌, ◌%◌, ◌/◌, ◌≤◌, ◌<◌, length, set, drop};
ghost use Rattle.packers.specs.Answers.{refusal_number, refusal_place};
ghost use Rattle.packers.specs.Packing.{bytes_of, into_room};

// Why a packer writes nothing. Where it writes, it answers the length of the image, which stands in the
// first bytes of the output.
#[derive(Clone, Copy, Debug, PartialEq, Eq)]
pub enum Refusal {
    // Too many entries, an empty tree list, or two lists of unequal length.
    Entries,
    // A column above the greatest: the index of the first such.
    Column(u32),
    // The output is too short: the bytes needed.
    Room(u32),
}

impl Refusal {
    // The refusal's number.
    pub fn number(self) -> u8
        ensures { result ≡ refusal_number self }
    {
        match self {
            Refusal::Entries => 13,
            Refusal::Column(_) => 14,
            Refusal::Room(_) => 4,
        }
    }

    // The refusal's place.
    pub fn place(self) -> u32
        ensures { result ≡ refusal_place self }
    {
        match self {
            Refusal::Entries => 0,
            Refusal::Column(k) => k,
            Refusal::Room(needed) => needed,
        }
    }
}

// The answer for an image of so many bytes in an output of so many.
pub fn into_room(needed: usize, room: usize) -> Result<u16, Refusal>
    requires { needed < 65536 }
    ensures { result ≡ into_room needed room }
{
    if room < needed {
        return Err(Refusal::Room(needed as u32));
    }
    Ok(needed as u16)
}

// Field i of the output, low byte first.
pub fn put(out: &mut [u8], i: usize, value: u16)
    requires { (2 * i + 1 < length out.old) × (i < 65536) }
    ensures { out.new ≡ set (set out.old (2 * i) (value % 256)) (2 * i + 1) (value / 256) }
{
    let [low, high] = value.to_le_bytes();
    out[2 * i] = low;
    out[2 * i + 1] = high;
}

// The header of a tree image or a token image: count, offset, total length.
pub fn put_header(out: &mut [u8], count: u16, total: u16)
    requires { 6 ≤ length out.old }
    ensures { out.new ≡ bytes_of (count ∷ 6 ∷ total ∷ []) ++ drop 6 out.old }
{
    put(out, 0, count);
    put(out, 1, 6);
    put(out, 2, total);
}
