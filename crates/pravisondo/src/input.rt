// The input.
ghost use Rattle.std.specs.Prelude.{IfOk, ◌<◌, length, take};
ghost use Rattle.std.specs.Io.KnownBytes.{Consumes, IsAtEnd};
ghost use Rattle.pravisondo.specs.Input.{Within};

use std::io;
use std::io::Read;

// A read that failed. It makes the whole input worthless: the bytes before it would be judged as if they were all.
#[derive(Clone, Copy, Debug, PartialEq, Eq)]
pub struct Failed;

impl From<io::Error> for Failed {
    fn from(_: io::Error) -> Failed {
        Failed
    }
}

// Reads until `bytes` is full or the input ends, and returns how many bytes came. The bytes are counted here:
// std's `read_exact` gives no count, and its `read_to_end` needs a heap.
pub fn read<R: Read>(input: &mut R, bytes: &mut [u8]) -> Result<usize, Failed>
    ensures within { Within result (length bytes.new) }
    ensures came { IfOk result (λ n. Consumes (R.remaining input.old) (R.remaining input.new) (take n bytes.new)) }
    ensures whole { IfOk result (λ n. n < length bytes.new → IsAtEnd (R.remaining input.new)) }
{
    let mut done = 0;
    while done < bytes.len() {
        let came = input.read(&mut bytes[done..])?;
        if came == 0 {
            break;
        }
        done += came;
    }
    Ok(done)
}
