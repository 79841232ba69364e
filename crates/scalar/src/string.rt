// A string after its opening quote, decoded into a lent room.

ghost use Rattle.std.specs.Prelude.{◌≡◌, ◌≤◌, length};
ghost use Rattle.meaning.specs.Strings as meant;
ghost use Rattle.scalar.specs.Decodes.{Decodes, Room, Puts};

use meaning::{Act, Refused, StringByte};

// A string: how many bytes of text it takes with its closing quote, and how many it says.
#[derive(Clone, Copy)]
pub struct Decoded {
    pub used: usize,
    pub written: usize,
}

// A refused one: 8 at its backslash, or 9, at 0; and how many bytes it says until then.
#[derive(Clone, Copy)]
pub struct BadString {
    pub refused: Refused,
    pub at: usize,
    pub written: usize,
}

// What a byte of a string does.
#[tactic(auto, using(laws::specs::Tests::tests), unfolding(meaning::specs::Strings::act_of))]
fn act(state: StringByte, b: u8) -> Act
    ensures { result ≡ meant.act_of state b }
{
    match (state, b) {
        (StringByte::Plain, b'"') => Act::End,
        (StringByte::Plain, b'\\') => Act::Hold,
        (StringByte::Plain, _) => Act::Put(b),
        (StringByte::AfterBackslash, b'n') => Act::Put(b'\n'),
        (StringByte::AfterBackslash, b't') => Act::Put(b'\t'),
        (StringByte::AfterBackslash, b'r') => Act::Put(b'\r'),
        (StringByte::AfterBackslash, b'"' | b'\\') => Act::Put(b),
        (StringByte::AfterBackslash, _) => Act::Fault,
    }
}

// Decodes src at the head of out. A refusal leaves the bytes decoded until then, and the rest of out as it was.
pub fn decode(src: &[u8], out: &mut [u8]) -> Result<Decoded, BadString>
    requires { length src.now ≤ length out.old }
    ensures { Decodes src.now out.old out.new result }
{
    let mut written = 0;
    let mut state = StringByte::Plain;
    for (i, b) in src.iter().enumerate() {
        match act(state, *b) {
            Act::End => {
                return Ok(Decoded {
                    used: i + 1,
                    written,
                });
            }
            Act::Fault => {
                return Err(BadString {
                    refused: Refused::BadEscape,
                    at: i - 1,
                    written,
                });
            }
            Act::Hold => state = StringByte::AfterBackslash,
            Act::Put(c) => {
                out[written] = c;
                written += 1;
                state = StringByte::Plain;
            }
        }
    }
    Err(BadString {
        refused: Refused::UnendedString,
        at: 0,
        written,
    })
}

// Decodes src into the unused rest of the store. A refusal leaves what is decoded until then after what stood there.
pub fn put_string(src: &[u8], store: &mut [u8], used: usize) -> Result<Decoded, BadString>
    requires { Room src.now store.old used }
    ensures { Puts src.now store.old used store.new result }
{
    decode(src, &mut store[used..])
}
