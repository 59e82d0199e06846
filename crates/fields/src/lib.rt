// What the images of document 01 share: their fields, and what the check of an image answers.
// An image is lent as a slice of its bytes. What is read lies within it: no reader tests its length.
#![tactic(auto)]

ghost use Rattle.std.specs.Prelude.{◌≡◌, ◌+◌, ◌≤◌, length, get_or};
ghost use Rattle.fields.specs.Fields.{field_at, first_fault, counted_fields};

// What the check of an image finds: the first field that breaks its rule. Where every field keeps its rule, the
// answer is `Ok(())`.
#[derive(Clone, Copy, Debug, PartialEq, Eq)]
pub struct Fault {
    // The byte of that field, or the image's length where its header does not fit.
    pub byte: u32,
}

// The byte at `at`.
pub fn byte_at(image: &[u8], at: usize) -> u8
    requires { at + 1 ≤ length image.now }
    ensures { result ≡ get_or image.now at 0 }
{
    image[at]
}

// The 16 bits at `at`, low byte first.
pub fn field_at(image: &[u8], at: usize) -> u16
    requires { at + 2 ≤ length image.now }
    ensures { result ≡ field_at image.now at }
{
    u16::from_le_bytes([image[at], image[at + 1]])
}

// How the header of an image with one count is formed: count, offset and total length.
#[derive(Clone, Copy, Debug, PartialEq, Eq)]
pub struct Header {
    // The least count.
    pub least: u16,
    // The greatest.
    pub most: u16,
    // The bytes of the header, which are the offset too.
    pub bytes: u16,
    // The bytes of each record behind it.
    pub record_bytes: u16,
}

impl Header {
    // The header's fields in an image.
    pub fn check(self, image: &[u8]) -> Result<(), Fault>
        requires { 6 ≤ self.bytes }
        ensures { result ≡ first_fault (counted_fields self image.now) }
    {
        let length = image.len();
        if length < usize::from(self.bytes) {
            return Err(Fault {
                byte: length as u32,
            });
        }
        let count = field_at(image, 0);
        if count < self.least {
            return Err(Fault { byte: 0 });
        }
        if count > self.most {
            return Err(Fault { byte: 0 });
        }
        if field_at(image, 2) != self.bytes {
            return Err(Fault { byte: 2 });
        }
        let total = usize::from(field_at(image, 4));
        if total != usize::from(self.bytes) + usize::from(self.record_bytes) * usize::from(count) {
            return Err(Fault { byte: 4 });
        }
        if total != length {
            return Err(Fault { byte: 4 });
        }
        Ok(())
    }
}
