// A text put into an output, part behind part.
ghost use Rattle.std.specs.Prelude.{◌≡◌, [], ◌∷◌, ◌++◌, ◌+◌, ◌*◌, ◌≤◌, length};
ghost use Rattle.report.specs.Putting.{room, written_at, Puts};
ghost use Rattle.report.specs.Text.{decimal, upper, spaced, line, lines};

use rules::relation::UNBOUNDED;

// An output, and the index behind the text that stands in it.
#[derive(Drop)]
pub struct Text<'a> {
    pub out: &'a mut [u8],
    pub at: usize,
}

impl<'a> Text<'a> {
    // One byte.
    fn byte(&mut self, byte: u8)
        requires { 1 ≤ room self.old }
        ensures put { Puts (byte ∷ []) self.old self.new }
        ensures left { room self.old ≡ 1 + room self.new }
    {
        self.out[self.at] = byte;
        self.at += 1;
    }

    // Puts the digits of a number into an output from an index on, and gives the index behind them. It calls itself,
    // and hands on the index as a number, which stands in a register.
    fn digits(out: &mut [u8], at: usize, n: u64) -> usize
        requires { at + length (decimal n) ≤ length out.old }
        ensures put { out.new ≡ written_at at (decimal n) out.old }
        ensures behind { result ≡ at + length (decimal n) }
    {
        if n < 10 {
            out[at] = b'0' + n as u8;
            return at + 1;
        }
        let last = Text::digits(out, at, n / 10);
        out[last] = b'0' + (n % 10) as u8;
        last + 1
    }

    // A number, and the byte behind it.
    pub fn number(&mut self, n: u64, behind: u8)
        requires { 21 ≤ room self.old }
        ensures put { Puts (decimal n ++ (behind ∷ [])) self.old self.new }
        ensures left { room self.old ≤ 21 + room self.new }
    {
        self.at = Text::digits(self.out, self.at, n);
        self.byte(behind);
    }

    // The high of a set, or - for no upper bound, and a space.
    fn upper(&mut self, high: u32)
        requires { 21 ≤ room self.old }
        ensures put { Puts (spaced (upper high)) self.old self.new }
        ensures left { room self.old ≤ 21 + room self.new }
    {
        if high == UNBOUNDED {
            self.byte(b'-');
            self.byte(b' ');
        } else {
            self.number(u64::from(high), b' ');
        }
    }

    // The line of node n.
    fn line(&mut self, n: usize, low: u32, high: u32, indentation: u32)
        requires { 84 ≤ room self.old }
        ensures put { Puts (line n low high indentation) self.old self.new }
        ensures left { room self.old ≤ 84 + room self.new }
    {
        self.number(n as u64, b' ');
        self.number(u64::from(low), b' ');
        self.upper(high);
        self.number(u64::from(indentation), b'\n');
    }

    // The lines of the nodes below `count`.
    pub fn lines(&mut self, count: usize, sets: &[u32], indentations: &[u32])
        requires entries { (2 * count ≤ length sets.now) × (count ≤ length indentations.now) }
        requires room { 84 * count ≤ room self.old }
        ensures { Puts (lines sets.now indentations.now count) self.old self.new }
    {
        let nodes = sets.chunks_exact(2).zip(indentations).take(count);
        for (n, (set, &indentation)) in nodes.enumerate() {
            self.line(n, set[0], set[1], indentation);
        }
    }
}
