// Texts in double quotes (W-203): bytes that need no escape are passed over and laid many at a time.

ghost use Rattle.std.specs.Prelude.{true, ◌≡◌, [], ◌∷◌, ◌++◌, ◌+◌, ◌≤◌, length};
ghost use Rattle.meaning.specs.Base as base;
ghost use Rattle.meaning.specs.Quoting as meant;
ghost use Rattle.slices.specs.Found.{Other, Free, Passed, Led};
ghost use Rattle.page.specs.Page.{Adds};
ghost use Rattle.page.specs.Runs.{escapes?};

use crate::Page;

// What stands after the backslash of a byte's escape, 0 for a byte that needs none.
fn letter(b: u8) -> u8
    ensures { result ≡ meant.letter_for b }
{
    match b {
        b'"' => b'"',
        b'\\' => b'\\',
        b'\n' => b'n',
        b'\t' => b't',
        b'\r' => b'r',
        _ => 0,
    }
}

// 0 only for a byte that needs no escape. Without a branch, so that the machine takes many bytes at once.
fn escapes(b: u8) -> u8
    ensures { result ≡ 0 → Other escapes? b }
{
    let q = slices::meets(b, b'"');
    let s = slices::meets(b, b'\\');
    let n = slices::meets(b, b'\n');
    let t = slices::meets(b, b'\t');
    let r = slices::meets(b, b'\r');
    q | s | n | t | r
}

// Whether none of the 16 bytes at a place needs an escape. No byte ends the loop, so that the machine takes them at
// once.
fn plain_16(s: &[u8], at: usize) -> bool
    requires { at + 16 ≤ length s.now }
    ensures { result ≡ true → Free escapes? s.now at 16 }
{
    let mut r: u8 = 0;
    for k in 0..16 {
        r |= escapes(s[at + k]);
    }
    r == 0
}

// How many bytes at the head need no escape at least, as far as blocks of 16 go.
fn plain_blocks(s: &[u8]) -> usize
    ensures { Passed escapes? s.now result }
{
    let mut i = 0;
    while 16 <= s.len() - i && plain_16(s, i) {
        i += 16;
    }
    i
}

// How many bytes stand before the first that needs an escape, or all of them.
fn plain_run(s: &[u8]) -> usize
    ensures { Led escapes? s.now result }
{
    for i in plain_blocks(s)..s.len() {
        if letter(s[i]) != 0 {
            return i;
        }
    }
    s.len()
}

impl Page<'_> {
    // A backslash and a letter.
    fn escape(&mut self, letter: u8)
        ensures { Adds (92 ∷ letter ∷ []) self.old self.new }
    {
        self.byte(b'\\');
        self.byte(letter);
    }

    // What stands between the quotes of a text.
    fn inside(&mut self, s: &[u8])
        ensures { Adds (meant.inner s.now) self.old self.new }
    {
        let mut i = 0;
        while i < s.len() {
            let j = i + plain_run(&s[i..]);
            self.put(&s[i..j]);
            if j == s.len() {
                return;
            }
            self.escape(letter(s[j]));
            i = j + 1;
        }
    }

    // A space, a quote, and a text between quotes.
    fn unclosed(&mut self, s: &[u8])
        ensures { Adds (32 ∷ 34 ∷ meant.inner s.now) self.old self.new }
    {
        self.byte(b' ');
        self.byte(b'"');
        self.inside(s);
    }

    // A space and a text in quotes.
    pub fn quoted(&mut self, s: &[u8])
        ensures { Adds (32 ∷ meant.quoted s.now) self.old self.new }
    {
        self.unclosed(s);
        self.byte(b'"');
    }

    // A space and a text with `.aic` after it, in quotes.
    pub fn quoted_aic(&mut self, s: &[u8])
        ensures { Adds (32 ∷ meant.quoted (s.now ++ base.ascii ".aic")) self.old self.new }
    {
        self.unclosed(s);
        self.put(b".aic");
        self.byte(b'"');
    }
}
