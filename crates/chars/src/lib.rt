// Characters of a byte string: UTF-8 (refusal 2, and the lent board name) and trimming.

#![tactic(auto)]

ghost use Rattle.std.specs.Prelude.{true, ◌≡◌, ◌+◌, ◌≤◌, ◌<◌, length, get_or, take, drop};
ghost use Rattle.std.specs.List.{list_any};
ghost use Rattle.meaning.specs.Base as base;
ghost use Rattle.meaning.specs.Utf8 as utf8;
ghost use Rattle.meaning.specs.Space as space;
ghost use Rattle.laws.specs.Trim as bytes;
ghost use Rattle.chars.specs.Rows as rows;
ghost use Rattle.chars.specs.Under.{Under};
ghost use Rattle.chars.specs.Trimmed.{Starting, Ending, Started, Ended, Trimmed, Dark, Snug};

// A part of a byte string, by its first byte and the byte after its last.
#[derive(Clone, Copy)]
pub struct Span {
    pub from: usize,
    pub end: usize,
}

// The four bytes at the head of a text, 0 past its end.
#[derive(Clone, Copy)]
pub struct Head {
    pub b: u32,
    pub c: u32,
    pub d: u32,
    pub e: u32,
}

// Whether n lies from low to high.
fn between(low: u32, high: u32, n: u32) -> bool
    ensures { result ≡ base.between low high n }
{
    (low..=high).contains(&n)
}

// The byte at i as a wider number, or 0 from the end on.
fn byte_or_zero(s: &[u8], i: usize) -> u32
    ensures { (result ≡ get_or s.now i 0) × (result < 256) }
{
    u32::from(slices::peek(s, i))
}

// Whether b and c are a row of two bytes.
fn row2(low: u32, high: u32, b: u32, c: u32) -> bool
    ensures { result ≡ rows.row2 low high b c }
{
    between(low, high, b) && between(0x80, 0xbf, c)
}

// Whether a head begins with a row of three.
fn row3(low: u32, high: u32, low2: u32, high2: u32, s: Head) -> bool
    ensures { result ≡ rows.row3 low high low2 high2 s.b s.c s.d }
{
    between(low, high, s.b) && between(low2, high2, s.c) && between(0x80, 0xbf, s.d)
}

// Whether a head is a row of four.
fn row4(low: u32, high: u32, low2: u32, high2: u32, s: Head) -> bool
    ensures { result ≡ rows.row4 low high low2 high2 s.b s.c s.d s.e }
{
    row3(low, high, low2, high2, s) && between(0x80, 0xbf, s.e)
}

// Whether a head begins with a character of three bytes: "UTF8-3" of RFC 3629.
fn three(s: Head) -> bool
    ensures { result ≡ rows.three s.b s.c s.d }
{
    row3(0xe0, 0xe0, 0xa0, 0xbf, s)
        || row3(0xe1, 0xec, 0x80, 0xbf, s)
        || row3(0xed, 0xed, 0x80, 0x9f, s)
        || row3(0xee, 0xef, 0x80, 0xbf, s)
}

// Whether a head is a character of four: "UTF8-4".
fn four(s: Head) -> bool
    ensures { result ≡ rows.four s.b s.c s.d s.e }
{
    row4(0xf0, 0xf0, 0x90, 0xbf, s)
        || row4(0xf1, 0xf3, 0x80, 0xbf, s)
        || row4(0xf4, 0xf4, 0x80, 0x8f, s)
}

// How many bytes the character at the head of s has, or 0.
fn width(s: &[u8]) -> usize
    ensures { result ≡ utf8.char s.now }
{
    if s.len() == 0 {
        return 0;
    }
    let b = byte_or_zero(s, 0);
    if between(0x00, 0x7f, b) {
        return 1;
    }
    let c = byte_or_zero(s, 1);
    if row2(0xc2, 0xdf, b, c) {
        return 2;
    }
    let d = byte_or_zero(s, 2);
    let e = byte_or_zero(s, 3);
    let head = Head { b, c, d, e };
    if three(head) {
        3
    } else if four(head) {
        4
    } else {
        0
    }
}

// The code point of the n bytes at the head of s.
fn code_point(s: &[u8], n: usize) -> u32
    requires { (0 < n) × (n ≤ 4) × (n ≤ length s.now) }
    ensures { result ≡ utf8.point (take n s.now) }
{
    let b = byte_or_zero(s, 0);
    let c = byte_or_zero(s, 1);
    let d = byte_or_zero(s, 2);
    let e = byte_or_zero(s, 3);
    match n {
        1 => b,
        2 => b % 32 * 64 + c % 64,
        3 => b % 16 * 4096 + c % 64 * 64 + d % 64,
        _ => b % 8 * 262144 + c % 64 * 4096 + d % 64 * 64 + e % 64,
    }
}

// Whether p lies in one of the ranges.
fn inside(ranges: &[(u32, u32)], p: u32) -> bool
    ensures { result ≡ list_any (λ r. base.between r.0 r.1 p) ranges.now }
{
    ranges.iter().any(|(low, high)| between(*low, *high, p))
}

// The code points that have the property White_Space, from a first to a last.
const SPACES: [(u32, u32); 11] = [
    (0x0009, 0x000d),
    (0x0020, 0x0020),
    (0x0085, 0x0085),
    (0x00a0, 0x00a0),
    (0x1680, 0x1680),
    (0x2000, 0x200a),
    (0x2028, 0x2028),
    (0x2029, 0x2029),
    (0x202f, 0x202f),
    (0x205f, 0x205f),
    (0x3000, 0x3000),
];

// Whether the code point has the property White_Space.
fn white(p: u32) -> bool
    ensures { result ≡ space.white p }
{
    inside(&SPACES, p)
}

// Whether an ASCII byte is white space.
fn ascii_white(b: u8) -> bool
    requires { b < 128 }
    ensures { result ≡ space.white b }
{
    b == b' ' || (b'\t'..=b'\r').contains(&b)
}

// How many bytes the white space at the head of s has, or 0.
fn white_at(s: &[u8]) -> usize
    ensures { result ≡ bytes.white_at s.now }
{
    let n = width(s);
    if n > 0 && white(code_point(s, n)) {
        n
    } else {
        0
    }
}

// Whether the last k bytes of s are one white character.
fn ends_in(s: &[u8], k: usize) -> bool
    ensures { result ≡ bytes.ends_in k s.now }
{
    k <= s.len() && white_at(&s[s.len() - k..]) == k
}

// How many bytes the white space at the end of s has, or 0.
fn white_end(s: &[u8]) -> usize
    ensures { result ≡ bytes.white_end s.now }
{
    for k in 1..=4 {
        if ends_in(s, k) {
            return k;
        }
    }
    0
}

// Where the white space at the head of s ends. ASCII by a branch: a step by its number of bytes takes 4 times as long.
fn trim_start(s: &[u8]) -> usize
    ensures { Started s.now result }
{
    let mut i = 0;
    while i < s.len() {
        if s[i] < 128 {
            if !ascii_white(s[i]) {
                return i;
            }
            i += 1;
        } else {
            let n = white_at(&s[i..]);
            if n == 0 {
                return i;
            }
            i += n;
        }
    }
    i
}

// Where the white space at the end of s begins.
fn trim_end(s: &[u8]) -> usize
    ensures { Ended s.now result }
{
    let mut e = s.len();
    while e > 0 {
        if s[e - 1] < 128 {
            if !ascii_white(s[e - 1]) {
                return e;
            }
            e -= 1;
        } else {
            let n = white_end(&s[..e]);
            if n == 0 {
                return e;
            }
            e -= n;
        }
    }
    e
}

// Both ends by characters of any width. Kept out of `trim`, which is quicker so where nothing but spaces stand there.
#[inline(never)]
fn trim_wide(s: &[u8]) -> Span
    ensures { Trimmed s.now result }
{
    let from = trim_start(s);
    let end = from + trim_end(&s[from..]);
    Span { from, end }
}

// Whether b is surely no white space by itself.
fn surely_no_space(b: u8) -> bool
    ensures { result ≡ true → Dark b }
{
    b' ' < b && b < 128
}

// Whether s surely has no white space at its ends.
fn surely_trimmed(s: &[u8]) -> bool
    ensures { result ≡ true → Snug s.now }
{
    !s.is_empty() && surely_no_space(s[0]) && surely_no_space(s[s.len() - 1])
}

// Past the spaces at the head.
fn after_spaces(s: &[u8]) -> usize
    ensures { Starting s.now result }
{
    s.iter().position(|b| *b != b' ').unwrap_or(s.len())
}

// Back over the spaces at the end.
fn before_spaces(s: &[u8]) -> usize
    ensures { Ending s.now result }
{
    for e in (0..s.len()).rev() {
        if s[e] != b' ' {
            return e + 1;
        }
    }
    0
}

// Where s lies without white space at both ends. Most texts have nothing but spaces there.
pub fn trim(s: &[u8]) -> Span
    ensures { Trimmed s.now result }
{
    let from = after_spaces(s);
    let end = from + before_spaces(&s[from..]);
    if surely_trimmed(&s[from..end]) {
        return Span { from, end };
    }
    trim_wide(s)
}

// Whether s is nothing but white space.
pub fn blank(s: &[u8]) -> bool
    ensures { result ≡ space.blank s.now }
{
    s.is_empty() || !surely_no_space(s[0]) && trim_start(s) == s.len()
}

// A number that none of the four bytes from i on is over.
fn bound_of_4(s: &[u8], i: usize) -> u8
    requires { i + 4 ≤ length s.now }
    ensures { Under s.now i 4 result }
{
    s[i] | s[i + 1] | s[i + 2] | s[i + 3]
}

// Whether there are eight bytes from i on, and all of them are ASCII.
fn ascii_8(s: &[u8], i: usize) -> bool
    requires { i ≤ length s.now }
    ensures { result ≡ true → Under s.now i 8 127 }
{
    s.len() - i >= 8 && bound_of_4(s, i) | bound_of_4(s, i + 4) < 128
}

// Whether all bytes are ASCII: together, since that takes many at once.
fn ascii(s: &[u8]) -> bool
    ensures { result ≡ true → Under s.now 0 (length s.now) 127 }
{
    s.iter().fold(0, |m, b| m | *b) < 128
}

// Whether s is UTF-8.
pub fn valid(s: &[u8]) -> bool
    ensures { result ≡ utf8.valid s.now }
{
    if ascii(s) {
        return true;
    }
    let mut i = 0;
    while i < s.len() {
        if ascii_8(s, i) {
            i += 8;
        } else {
            let n = width(&s[i..]);
            if n == 0 {
                return false;
            }
            i += n;
        }
    }
    true
}
