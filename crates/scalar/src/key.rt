// Keys and headers: segments split at every dot, each decoded into the store after those already there.

ghost use Rattle.std.specs.Prelude.{◌≡◌};
ghost use Rattle.scalar.specs.Stores.{Room};
ghost use Rattle.scalar.specs.Segments.{BareSegment, QuotedSegment, TrimmedSegment, KeyPart};
ghost use Rattle.scalar.specs.Splits.{Asked, Splits};

use crate::string::{BadString, put_string};
use meaning::{Refused, SEGMENTS};

// A refused segment, 7, 8 or 9, and how many bytes it left in the store.
#[derive(Clone, Copy)]
pub struct BadSegment {
    pub refused: Refused,
    pub written: usize,
}

impl From<BadString> for BadSegment {
    ghost from_gives = { λ b e. e ≡ record { refused = b.refused; written = b.written } };

    fn from(b: BadString) -> BadSegment {
        BadSegment {
            refused: b.refused,
            written: b.written,
        }
    }
}

// A key: how many segments were taken, up to where the store is used, and where in it each segment ends, 0 after the
// last.
#[derive(Clone, Copy)]
pub struct Key {
    pub n: usize,
    pub used: usize,
    pub ends: [usize; SEGMENTS],
}

// A refused key, and what was taken of it; its store is used up to what the refused segment left.
#[derive(Clone, Copy)]
pub struct BadKey {
    pub refused: Refused,
    pub taken: Key,
}

// What needs the whole key tells the refusal alone.
impl From<BadKey> for Refused {
    ghost from_gives = { λ b r. r ≡ b.refused };

    fn from(b: BadKey) -> Refused {
        b.refused
    }
}

fn malformed(written: usize) -> BadSegment
    ensures { result ≡ record { refused = Refused.MalformedKey; written = written } }
{
    BadSegment {
        refused: Refused::MalformedKey,
        written,
    }
}

// A segment without quotes, laid as it is. 7 leaves nothing, since it is empty.
fn put_bare(p: &[u8], store: &mut [u8], used: usize) -> Result<usize, BadSegment>
    requires { Room p.now store.old used }
    ensures { BareSegment p.now store.old used store.new result }
{
    if p.is_empty() {
        return Err(malformed(0));
    }
    slices::copy(p, &mut store[used..]);
    Ok(p.len())
}

// A segment after its opening quote. 8 and 9 leave what is decoded until then, 7 the whole string.
fn put_quoted(p: &[u8], store: &mut [u8], used: usize) -> Result<usize, BadSegment>
    requires { Room p.now store.old used }
    ensures { QuotedSegment p.now store.old used store.new result }
{
    let written = put_string(p, store, used)?.written;
    match p {
        [.., b'"'] if written != 0 => Ok(written),
        _ => Err(malformed(written)),
    }
}

// A trimmed segment.
fn put_trimmed(p: &[u8], store: &mut [u8], used: usize) -> Result<usize, BadSegment>
    requires { Room p.now store.old used }
    ensures { TrimmedSegment p.now store.old used store.new result }
{
    match p {
        [b'"', rest @ ..] => put_quoted(rest, store, used),
        _ => put_bare(p, store, used),
    }
}

// One part of a key between dots. 8 and 9 leave what is decoded until then, 7 the whole string or nothing.
#[inline(always)]
pub fn put_segment(s: &[u8], store: &mut [u8], used: usize) -> Result<usize, BadSegment>
    requires { Room s.now store.old used }
    ensures { KeyPart s.now store.old used store.new result }
{
    let t = chars::trim(s);
    put_trimmed(&s[t.from..t.end], store, used)
}

// A whole key, segments strictly left to right. 15 leaves the segments before it, 7, 8 and 9 also what the refused
// one laid. A part of its callers, as the walks of `values::grow` are: each key is else copied five times.
#[inline(always)]
pub fn put_key(s: &[u8], store: &mut [u8], used: usize, limit: usize) -> Result<Key, BadKey>
    requires { Asked limit s.now store.old used }
    ensures { Splits limit s.now store.old used store.new result }
{
    let mut taken = Key {
        n: 0,
        used,
        ends: [0; SEGMENTS],
    };
    let mut rest = s;
    for n in 0..limit {
        let end = slices::find(rest, b'.');
        match put_segment(&rest[..end], store, taken.used) {
            Ok(written) => {
                taken.used += written;
                taken.ends[n] = taken.used;
                taken.n = n + 1;
            }
            Err(BadSegment { refused, written }) => {
                taken.used += written;
                return Err(BadKey { refused, taken });
            }
        }
        if end == rest.len() {
            return Ok(taken);
        }
        rest = &rest[end + 1..];
    }
    let refused = Refused::TooManySegments;
    Err(BadKey { refused, taken })
}
