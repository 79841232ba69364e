// One writer for all that is printed: bytes, numbers, words and texts after what stands on a lent page.

#![tactic(auto)]

pub mod quote;

ghost use Rattle.std.specs.Prelude.{◌≡◌, [], ◌∷◌, length};
ghost use Rattle.meaning.specs.Base.{nil?};
ghost use Rattle.meaning.specs.Print.{decimal, shown};
ghost use Rattle.meaning.specs.Quoting.{quoted};
ghost use Rattle.meaning.specs.Listing.{placed};
ghost use Rattle.schema.specs.Words as words;
ghost use Rattle.schema.specs.Texts.{spelled};
ghost use Rattle.page.specs.Page.{Adds, Digits};

use schema::{Text, Word};

// Some lent bytes, and where the next one is written.
#[derive(Drop)]
pub struct Page<'a> {
    pub out: &'a mut [u8],
    pub at: usize,
}

impl Page<'_> {
    // Bytes, as many of them as the page takes.
    pub fn put(&mut self, s: &[u8])
        ensures { Adds s.now self.old self.new }
    {
        if self.at <= self.out.len() {
            let n = s.len().min(self.out.len() - self.at);
            let out = &mut *self.out;
            slices::copy(&s[..n], &mut out[self.at..self.at + n]);
            self.at += n;
        }
    }

    // One byte, where the page has room for it. It is stored; `put` of one byte is a call of memset or memcpy.
    pub fn byte(&mut self, b: u8)
        ensures { Adds (b ∷ []) self.old self.new }
    {
        if self.at < self.out.len() {
            self.out[self.at] = b;
            self.at += 1;
        }
    }

    // A space and bytes.
    pub fn field(&mut self, s: &[u8])
        ensures { Adds (32 ∷ s.now) self.old self.new }
    {
        self.byte(b' ');
        self.put(s);
    }

    // A space and a number in decimal.
    pub fn number(&mut self, n: u64)
        ensures { Adds (32 ∷ decimal n) self.old self.new }
    {
        let mut room = [0u8; 20];
        let from = digits(&mut room, n);
        self.field(&room[from..]);
    }

    // A space and a fixed word.
    pub fn word(&mut self, w: Word)
        ensures { Adds (32 ∷ words.word w) self.old self.new }
    {
        self.field(w.bytes());
    }

    // A space and a text in quotes.
    pub fn text(&mut self, store: &[u8], name: &[u8], t: Text)
        ensures { Adds (32 ∷ quoted (spelled store.now name.now t)) self.old self.new }
    {
        match t {
            Text::Absent => self.quoted(b""),
            Text::Stored { from, len } => self.quoted(schema::stored(store, from, len)),
            Text::Lent => self.quoted(name),
            Text::Fixed(w) => self.quoted(w.bytes()),
            Text::WithAic { from, len } => self.quoted_aic(schema::stored(store, from, len)),
        }
    }

    // A space and the reference to a partition in quotes, a bare `-` for an empty one.
    pub fn reference(&mut self, store: &[u8], name: &[u8], t: Text)
        ensures { Adds (32 ∷ shown (placed (spelled store.now name.now t))) self.old self.new }
    {
        if blank(store, name, t) {
            self.field(b"-");
        } else {
            self.text(store, name, t);
        }
    }
}

// The digits of a number at the end of the room, and where they begin.
fn digits(room: &mut [u8], number: u64) -> usize
    requires { length room.old ≡ 20 }
    ensures { Digits number room.new result }
{
    let mut n = number;
    let mut i = 19;
    while 10 <= n {
        room[i] = b'0' + (n % 10) as u8;
        n /= 10;
        i -= 1;
    }
    room[i] = b'0' + n as u8;
    i
}

// Whether a text has no bytes.
fn blank(store: &[u8], name: &[u8], t: Text) -> bool
    ensures { result ≡ nil? (spelled store.now name.now t) }
{
    match t {
        Text::Absent => true,
        Text::Stored { from, len } => schema::stored(store, from, len).is_empty(),
        Text::Lent => name.is_empty(),
        _ => false,
    }
}
