// The words of a feature string, one at a time: a reader holds the lent string and the place where it stands.

ghost use Rattle.std.specs.Prelude.{◌≡◌, ◌+◌, length, drop};
ghost use Rattle.meaning.specs.Features as meant;
ghost use Rattle.features.specs.Gaps.{gaps, run};
ghost use Rattle.features.specs.Reading as reading;

// A word of a string, from its first byte to the place after its last.
#[derive(Clone, Copy)]
pub struct Word {
    pub from: usize,
    pub to: usize,
}

// The functions over it are thin: they call those with plain parameters.
#[derive(Clone, Copy)]
pub struct Reader<'a> {
    pub words: &'a [u8],
    pub at: usize,
}

// The word that a reader stands before, and the reader after it.
#[derive(Clone, Copy)]
pub struct Step<'a> {
    pub word: Option<Word>,
    pub rest: Reader<'a>,
}

fn is_gap(b: u8) -> bool
    ensures { result ≡ meant.gap b }
{
    if b == b' ' {
        return true;
    }
    b == b','
}

// The first byte from a place on that is no gap.
fn skip(s: &[u8], at: usize) -> usize
    ensures { result ≡ at + gaps (drop at s.now) }
{
    let mut i = at;
    while i < s.len() {
        if is_gap(s[i]) {
            i += 1;
        } else {
            return i;
        }
    }
    i
}

// The first byte from a place on that is a gap.
fn stop(s: &[u8], at: usize) -> usize
    ensures { result ≡ at + run (drop at s.now) }
{
    let mut i = at;
    while i < s.len() {
        if is_gap(s[i]) {
            return i;
        }
        i += 1;
    }
    i
}

// The first word from a place on.
fn word_at(s: &[u8], at: usize) -> Option<Word>
    ensures { result ≡ reading.word_at s.now at }
{
    let a = skip(s, at);
    let b = stop(s, a);
    if a < b {
        return Some(Word { from: a, to: b });
    }
    None
}

pub fn new<'a>(words: &'a [u8], at: usize) -> Reader<'a>
    ensures { result ≡ record { words = words.entry; at = at } }
{
    Reader { words, at }
}

pub fn next<'a>(here: Reader<'a>) -> Step<'a>
    ensures { result ≡ reading.stepped here.entry }
{
    let word = word_at(here.words, here.at);
    let at = word.map_or(here.at, |w| w.to);
    let rest = Reader {
        words: here.words,
        at,
    };
    Step { word, rest }
}

// The first word from a place on, by the reader.
pub fn first(words: &[u8], at: usize) -> Option<Word>
    ensures { result ≡ reading.word_at words.now at }
{
    next(new(words, at)).word
}

// How many words a string has, by the reader.
pub fn count(words: &[u8]) -> usize
    ensures { result ≡ length (meant.words words.now) }
{
    let mut n = 0;
    let mut here = next(new(words, 0));
    while here.word.is_some() {
        here = next(here.rest);
        n += 1;
    }
    n
}
