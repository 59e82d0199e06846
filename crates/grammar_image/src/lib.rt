// The grammar image: its check, its counts, and its productions and symbols by number.
#![tactic(auto)]

ghost use Rattle.std.specs.Prelude.{◌≡◌, ◌+◌, ◌*◌, ◌<◌, ◌≤◌, ◌++◌, length, get_or, IfOk, IfErr, Err};
ghost use Rattle.rules.specs.Limits.{max_entries, max_productions};
ghost use Rattle.fields.specs.Fields.{field_at, Bytes, each, each_from, WellFormed, first_fault, nowhere};
ghost use Rattle.grammar_image.specs.GrammarImage.{Counted, ProductionIs, SymbolIs};
ghost use Rattle.grammar_image.specs.GrammarImage.{production_count, entry_count, entry_byte, starts_at};
ghost use Rattle.grammar_image.specs.GrammarImage.{count_fields, offset_fields, production_fields, productions_fields};
ghost use Rattle.grammar_image.specs.GrammarImage.{symbol_fields, symbols_fields, grammar_fields};
ghost use Rattle.grammar_image.specs.Headers.{counted_prop};
ghost use Rattle.grammar_image.specs.Kinds.{kind_of, bound_of};

use fields::{Fault, byte_at, field_at};
use rules::{ENTRIES, NONTERMINALS, PRODUCTIONS, ROW, TERMINALS};
use std::ops::Range;

// The header of a grammar image.
#[derive(Clone, Copy, Debug, PartialEq, Eq)]
pub struct Counts {
    pub terminals: u16,
    pub nonterminals: u16,
    pub start: u16,
    pub productions: u16,
    pub entries: u16,
}

// A production: its left side, and its row as the number of its first symbol entry and a count.
#[derive(Clone, Copy, Debug, PartialEq, Eq)]
pub struct Production {
    pub left: u16,
    pub first: u16,
    pub count: u16,
}

// A symbol of a row. Kind and relation are the bytes of its entry, since `symbol_at` reads any image and
// promises what stands there.
#[derive(Clone, Copy, Debug, PartialEq, Eq)]
pub struct Symbol {
    pub kind: u8,
    pub relation: u8,
    pub number: u16,
}

// What stands at a symbol.
#[derive(Clone, Copy, Debug, PartialEq, Eq)]
pub enum Kind {
    Terminal,
    Nonterminal,
}

impl Production {
    // The symbol entries of its row.
    pub fn entries(self) -> Range<u32>
        ensures start { result.start ≡ self.first }
        ensures end { result.end ≡ self.first + self.count }
    {
        let first = u32::from(self.first);
        first..first + u32::from(self.count)
    }
}

impl Counts {
    // How many of this kind there are: their numbers are below it.
    fn of(self, kind: Kind) -> u16
        ensures { result ≡ bound_of self kind }
    {
        match kind {
            Kind::Terminal => self.terminals,
            Kind::Nonterminal => self.nonterminals,
        }
    }
}

impl Kind {
    // 0 is a terminal, and any other kind a nonterminal: a well-formed image has no other than 1.
    fn of(number: u8) -> Kind
        ensures { result ≡ kind_of number }
    {
        match number {
            0 => Kind::Terminal,
            _ => Kind::Nonterminal,
        }
    }
}

impl Symbol {
    // What stands at it, by its kind.
    pub fn kind(self) -> Kind
        ensures { result ≡ kind_of self.kind }
    {
        Kind::of(self.kind)
    }
}

// The counts of the header.
pub fn counts_at(image: &[u8]) -> Counts
    requires { 16 ≤ length image.now }
    ensures { Counted image.now result }
{
    Counts {
        terminals: field_at(image, 0),
        nonterminals: field_at(image, 2),
        start: field_at(image, 4),
        productions: field_at(image, 6),
        entries: field_at(image, 8),
    }
}

// The total length that the header says.
pub fn total_length(image: &[u8]) -> u16
    requires { 16 ≤ length image.now }
    ensures { result ≡ field_at image.now 14 }
{
    field_at(image, 14)
}

// Production p, its row by the number of its first symbol entry and a count.
pub fn production_at(image: &[u8], p: u16) -> Production
    requires { 16 + 6 * p + 6 ≤ length image.now }
    ensures { ProductionIs image.now p result }
{
    let at = 16 + 6 * usize::from(p);
    Production {
        left: field_at(image, at),
        first: field_at(image, at + 2),
        count: field_at(image, at + 4),
    }
}

// The symbol of entry y. First entry and count of any production add up within 32 bits.
pub fn symbol_at(image: &[u8], y: u32) -> Symbol
    requires { entry_byte image.now y + 4 ≤ length image.now }
    ensures { SymbolIs image.now y result }
{
    let at = 16 + 6 * usize::from(field_at(image, 6)) + 4 * (y as usize);
    Symbol {
        kind: byte_at(image, at),
        relation: byte_at(image, at + 1),
        number: field_at(image, at + 2),
    }
}

// A grammar image whose header lies within it, with the counts of that header.
#[derive(Clone, Copy)]
struct Header<'a> {
    image: &'a [u8],
    counts: Counts,
    ghost bytes: { Bytes image.now },
    ghost within: { 16 ≤ length image.now },
    ghost counted: { Counted image.now counts } by { counted_prop image.now counts },
}

// And its records, once the header keeps its rules: they lie within the image.
#[derive(Clone, Copy)]
struct Records<'a> {
    header: Header<'a>,
    ghost productions: { production_count header.image.now ≤ max_productions },
    ghost entries: { entry_count header.image.now ≤ max_entries },
    ghost within: { entry_byte header.image.now (entry_count header.image.now) ≤ length header.image.now },
}

impl<'a> Header<'a> {
    // A fault is the image's length where that is under 16.
    fn read(image: &'a [u8]) -> Result<Header<'a>, Fault>
        ensures read { IfOk result (λ header. header.image.now ≡ image.now) }
        ensures short { IfErr result (λ fault. Err fault ≡ first_fault (grammar_fields image.now)) }
    {
        let length = image.len();
        if length < 16 {
            return Err(Fault {
                byte: length as u32,
            });
        }
        Ok(Header {
            image,
            counts: counts_at(image),
        })
    }

    // The byte of symbol entry y.
    fn entry_byte(&self, y: u16) -> u32
        ensures { result ≡ entry_byte self.now.image.now y }
    {
        16 + 6 * u32::from(self.counts.productions) + 4 * u32::from(y)
    }

    // The header up to its symbol entries.
    fn check_counts(&self) -> Result<(), Fault>
        ensures { result ≡ first_fault (count_fields self.now.image.now) }
    {
        if !(1..=TERMINALS).contains(&self.counts.terminals) {
            return Err(Fault { byte: 0 });
        }
        if !(1..=NONTERMINALS).contains(&self.counts.nonterminals) {
            return Err(Fault { byte: 2 });
        }
        if self.counts.start >= self.counts.nonterminals {
            return Err(Fault { byte: 4 });
        }
        if !(1..=PRODUCTIONS).contains(&self.counts.productions) {
            return Err(Fault { byte: 6 });
        }
        if self.counts.entries > ENTRIES {
            return Err(Fault { byte: 8 });
        }
        Ok(())
    }

    // The header from the offset of the productions on.
    fn check_offsets(&self) -> Result<(), Fault>
        ensures { result ≡ first_fault (offset_fields self.now.image.now) }
    {
        if field_at(self.image, 10) != 16 {
            return Err(Fault { byte: 10 });
        }
        if u32::from(field_at(self.image, 12)) != self.entry_byte(0) {
            return Err(Fault { byte: 12 });
        }
        let total = field_at(self.image, 14);
        if u32::from(total) != self.entry_byte(self.counts.entries)
            || usize::from(total) != self.image.len()
        {
            return Err(Fault { byte: 14 });
        }
        Ok(())
    }

    // The header's fields.
    fn check(&self) -> Result<(), Fault>
        ensures { result ≡ first_fault (count_fields self.now.image.now ++ offset_fields self.now.image.now) }
    {
        self.check_counts()?;
        self.check_offsets()
    }
}

impl Records<'_> {
    // Whether field f of production p keeps its rule, where the one before ended at `starts`.
    fn production_keeps(&self, p: u16, f: u32, starts: u16) -> bool
        requires production { p < production_count self.now.header.image.now }
        requires field { f < 3 }
        requires starts { (starts ≡ starts_at self.now.header.image.now p) × (starts ≤ max_entries) }
        ensures { result ≡ (get_or (production_fields self.now.header.image.now p) f nowhere).keeps }
    {
        let counts = self.header.counts;
        let value = field_at(self.header.image, 16 + 6 * usize::from(p) + 2 * f as usize);
        match f {
            0 => value < counts.nonterminals,
            1 => value == starts,
            _ => value <= ROW && starts + value <= counts.entries,
        }
    }

    // The productions' fields, then their last end, which is a fault of byte 8. As document 01 has it, this
    // search and that of the symbols are nested loops, left by their label with the field's byte.
    fn check_productions(&self) -> Result<(), Fault>
        ensures { result ≡ first_fault (productions_fields self.now.header.image.now) }
    {
        let counts = self.header.counts;
        let mut starts = 0;
        let byte = 'search: loop {
            for p in 0..counts.productions {
                for f in 0..3 {
                    if !self.production_keeps(p, f, starts) {
                        break 'search 16 + 6 * u32::from(p) + 2 * f;
                    }
                }
                starts += field_at(self.header.image, 16 + 6 * usize::from(p) + 4);
            }
            if starts != counts.entries {
                break 'search 8;
            }
            return Ok(());
        };
        Err(Fault { byte })
    }

    // Whether field f of symbol entry y keeps its rule.
    fn symbol_keeps(&self, y: u16, f: u32) -> bool
        requires entry { y < entry_count self.now.header.image.now }
        requires field { f < 3 }
        ensures { result ≡ (get_or (symbol_fields self.now.header.image.now y) f nowhere).keeps }
    {
        let Header { image, counts, .. } = self.header;
        let at = self.header.entry_byte(y) as usize;
        match f {
            0 => byte_at(image, at) <= 1,
            1 => byte_at(image, at + 1) <= 3,
            _ => field_at(image, at + 2) < counts.of(Kind::of(byte_at(image, at))),
        }
    }

    // How far the fields of symbol entry y break their rules: 0 where each keeps its own. Kind and
    // relation are read as one field.
    fn entry_over(&self, y: u16) -> u16
        requires { y < entry_count self.now.header.image.now }
        ensures good { result ≡ 0 → WellFormed (symbol_fields self.now.header.image.now y) }
        ensures small { result < 256 }
    {
        let Header { image, counts, .. } = self.header;
        let at = self.header.entry_byte(y) as usize;
        let head = field_at(image, at);
        let kind = head % 256;
        let relation = head / 256;
        let limit = if kind % 2 == 0 {
            counts.terminals
        } else {
            counts.nonterminals
        };
        let beyond = u16::from(field_at(image, at + 2) >= limit);
        kind / 2 + relation / 4 + beyond
    }

    // The same of the sixteen symbol entries from y on, all together. A loop adds them up: of a chain with
    // `sum` it is not proved that the sum fits.
    fn sixteen_over(&self, y: u16) -> u16
        requires { y + 16 ≤ entry_count self.now.header.image.now }
        ensures { result ≡ 0 → WellFormed (each_from y 16 (symbol_fields self.now.header.image.now)) }
    {
        let mut over = 0;
        for e in 0..16 {
            over += self.entry_over(y + e);
        }
        over
    }

    // So many symbol entries from the first on keep their rules. They are tested sixteen at a time.
    fn good_entries(&self) -> u16
        ensures good { WellFormed (each result (symbol_fields self.now.header.image.now)) }
        ensures within { result ≤ entry_count self.now.header.image.now }
    {
        let groups = self.header.counts.entries / 16;
        for g in 0..groups {
            if self.sixteen_over(16 * g) != 0 {
                return 16 * g;
            }
        }
        16 * groups
    }

    // The symbol entries' fields: the search begins behind those that were found good.
    fn check_symbols(&self) -> Result<(), Fault>
        ensures { result ≡ first_fault (symbols_fields self.now.header.image.now) }
    {
        let good = self.good_entries();
        let byte = 'search: loop {
            for y in good..self.header.counts.entries {
                for f in 0..3 {
                    if !self.symbol_keeps(y, f) {
                        break 'search self.header.entry_byte(y) + f;
                    }
                }
            }
            return Ok(());
        };
        Err(Fault { byte })
    }

    // The records' fields: first the productions', then the symbols'.
    fn check(&self) -> Result<(), Fault>
        ensures { result ≡ first_fault
            (productions_fields self.now.header.image.now ++ symbols_fields self.now.header.image.now) }
    {
        self.check_productions()?;
        self.check_symbols()
    }
}

// Whether an image is a well-formed grammar image: good, or the byte of the first field that breaks
// its rule, or the image's length where that is under 16.
pub fn check_grammar(image: &[u8]) -> Result<(), Fault>
    ensures { result ≡ first_fault (grammar_fields image.now) }
{
    let header = Header::read(image)?;
    header.check()?;
    Records { header }.check()
}
