// Byte strings: what every crate above needs of one, written once.

#![tactic(auto)]

ghost use Rattle.std.specs.Prelude.{true, ◌≡◌, ◌++◌, ◌+◌, ◌≤◌, length, get_or, take, drop};
ghost use Rattle.meaning.specs.Base as base;
ghost use Rattle.laws.specs.Stored.{stored};
ghost use Rattle.slices.specs.Found.{Other, at?, Free, Passed, Found};
ghost use Rattle.slices.specs.Numbers.{little, number};

// The byte at i, or 0 from the end on.
pub fn peek(s: &[u8], i: usize) -> u8
    ensures { result ≡ get_or s.now i 0 }
{
    s.get(i).copied().unwrap_or(0)
}

// 0 only for a byte that is not c.
pub fn meets(b: u8, c: u8) -> u8
    ensures { result ≡ 0 → Other (at? c) b }
{
    u8::from(b == c)
}

// Whether none of the 16 bytes at a place is c. No byte ends the loop, so that the machine takes them at once.
fn none_of_16(s: &[u8], at: usize, c: u8) -> bool
    requires { at + 16 ≤ length s.now }
    ensures { result ≡ true → Free (at? c) s.now at 16 }
{
    let mut r = 0;
    for k in 0..16 {
        r |= meets(s[at + k], c);
    }
    r == 0
}

// How many bytes stand before the first c at least, as far as blocks of 16 go.
fn before_first(s: &[u8], c: u8) -> usize
    ensures { Passed (at? c) s.now result }
{
    let blocks = s.len() / 16;
    for k in 0..blocks {
        if !none_of_16(s, 16 * k, c) {
            return 16 * k;
        }
    }
    16 * blocks
}

// How many bytes stand before the first c, or all of them. By blocks: `position` takes 7 times as long on 64 bytes.
pub fn find(s: &[u8], c: u8) -> usize
    ensures { Found c s.now result }
{
    for i in before_first(s, c)..s.len() {
        if s[i] == c {
            return i;
        }
    }
    s.len()
}

// Whether the two are the same bytes.
pub fn same(a: &[u8], b: &[u8]) -> bool
    ensures { result ≡ base.same a.now b.now }
{
    a == b
}

// The same, told by the last byte first: that is where names of one length mostly differ.
pub fn same_last_first(a: &[u8], b: &[u8]) -> bool
    ensures { result ≡ base.same a.now b.now }
{
    let n = a.len();
    n == b.len() && (n == 0 || a[n - 1] == b[n - 1]) && same(a, b)
}

// Whether a comes before b in byte order. `a < b` takes 3 times as long at 16 bytes alike, and 10 times at 64.
pub fn less(a: &[u8], b: &[u8]) -> bool
    ensures { result ≡ base.less a.now b.now }
{
    a.cmp(&b).is_lt()
}

// Lays src at the head of dst. By bytes: `copy_from_slice` is a call of `memmove`, and the archive has none (HOST.md).
pub fn copy(src: &[u8], dst: &mut [u8])
    requires { length src.now ≤ length dst.old }
    ensures { dst.new ≡ src.now ++ drop (length src.now) dst.old }
{
    for i in 0..src.len() {
        dst[i] = src[i];
    }
}

// Whether all bytes are zero. No byte ends it, so that the machine takes many of them at once.
fn is_zero(s: &[u8]) -> bool
    ensures { result ≡ true → s.now ≡ base.zeros (length s.now) }
{
    s.iter().fold(0, |m, b| m | *b) == 0
}

// Makes every byte zero, unless they are already: to read them is quicker than to write them.
fn zero_block(s: &mut [u8])
    ensures { s.new ≡ base.zeros (length s.old) }
{
    if !is_zero(s) {
        s.fill(0);
    }
}

// Makes every byte zero. By blocks: `fill` alone writes what is zero, which is slower between other work.
pub fn zero(s: &mut [u8])
    ensures { s.new ≡ base.zeros (length s.old) }
{
    for k in 0..s.len() / 256 {
        zero_block(&mut s[256 * k..256 * k + 256]);
    }
    let whole = s.len() / 256 * 256;
    s[whole..].fill(0);
}

// Lays bytes at a place.
fn put_bytes<const K: usize>(s: &mut [u8], at: usize, bytes: [u8; K])
    requires { at + K ≤ length s.old }
    ensures { s.new ≡ stored s.old at bytes.entry }
{
    s[at..at + K].copy_from_slice(&bytes);
}

// The K bytes at a place.
fn get_bytes<const K: usize>(s: &[u8], at: usize) -> [u8; K]
    requires { at + K ≤ length s.now }
    ensures { result ≡ take K (drop at s.now) }
{
    let mut bytes = [0; K];
    bytes.copy_from_slice(&s[at..at + K]);
    bytes
}

// Numbers are written with the least byte first.
pub fn put2(s: &mut [u8], at: usize, n: u16)
    requires { at + 2 ≤ length s.old }
    ensures { s.new ≡ stored s.old at (little 2 n) }
{
    put_bytes(s, at, n.to_le_bytes());
}

pub fn put8(s: &mut [u8], at: usize, n: u64)
    requires { at + 8 ≤ length s.old }
    ensures { s.new ≡ stored s.old at (little 8 n) }
{
    put_bytes(s, at, n.to_le_bytes());
}

pub fn get2(s: &[u8], at: usize) -> u16
    requires { at + 2 ≤ length s.now }
    ensures { result ≡ number 2 s.now at }
{
    u16::from_le_bytes(get_bytes(s, at))
}

pub fn get8(s: &[u8], at: usize) -> u64
    requires { at + 8 ≤ length s.now }
    ensures { result ≡ number 8 s.now at }
{
    u64::from_le_bytes(get_bytes(s, at))
}
