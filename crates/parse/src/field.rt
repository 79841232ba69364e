// One field of a table, read in one way. Every reader gives its fault, 0 for none, beside what it read.

ghost use Rattle.std.specs.Prelude.{◌≡◌, unwrap_or};
ghost use Rattle.tree.specs.Doors.{Spread};
ghost use Rattle.schema.specs.Texts.{or_text};
ghost use Rattle.parse.specs.Fields as fields;

use features::WRONG_KIND;
use meaning::Refused;
use schema::{Kind, Media, Text};
use tree::{Fields, Value};

// The refusal of a number out of range.
const OUT_OF_RANGE: u32 = 21;

// The refusal of a field that must be there and is not.
const MISSING: u32 = 24;

// The greatest number that a field takes.
const MOST_NUMBER: u64 = 4294967295;

#[derive(Clone, Copy)]
pub struct TextRead {
    pub fault: u32,
    pub text: Text,
}

impl TextRead {
    // The text, or d where it is absent.
    pub fn or(self, d: Text) -> Text
        ensures { result ≡ or_text self.text d }
    {
        let t = self.text;
        t.or(d)
    }
}

#[derive(Clone, Copy)]
pub struct NumberRead {
    pub fault: u32,
    pub number: Option<u32>,
}

impl NumberRead {
    // The number, or d where it is absent.
    pub fn or(self, d: u32) -> u32
        ensures { result ≡ unwrap_or self.number d }
    {
        self.number.unwrap_or(d)
    }
}

#[derive(Clone, Copy)]
pub struct FlagRead {
    pub fault: u32,
    pub flag: bool,
}

#[derive(Clone, Copy)]
pub struct KindRead {
    pub fault: u32,
    pub kind: Kind,
}

#[derive(Clone, Copy)]
pub struct MediaRead {
    pub fault: u32,
    pub media: Media,
}

// The first fault of two.
pub fn first_fault(a: u32, b: u32) -> u32
    ensures { result ≡ fields.first_fault a b }
{
    if a == 0 {
        return b;
    }
    a
}

fn no_text(fault: u32) -> TextRead
    ensures { result ≡ fields.no_text fault }
{
    TextRead {
        fault,
        text: Text::Absent,
    }
}

pub fn text_of(v: Value) -> TextRead
    ensures { result ≡ fields.text_read v }
{
    match v {
        Value::Absent => no_text(0),
        Value::Text { from, len } => TextRead {
            fault: 0,
            text: Text::Stored { from, len },
        },
        _ => no_text(WRONG_KIND),
    }
}

fn no_number(fault: u32) -> NumberRead
    ensures { result ≡ fields.no_number fault }
{
    NumberRead {
        fault,
        number: None,
    }
}

// An integer in its range.
fn ranged(negative: bool, magnitude: u64) -> NumberRead
    ensures { result ≡ fields.ranged negative magnitude }
{
    if negative {
        return no_number(OUT_OF_RANGE);
    }
    if MOST_NUMBER < magnitude {
        return no_number(OUT_OF_RANGE);
    }
    NumberRead {
        fault: 0,
        number: Some(magnitude as u32),
    }
}

pub fn number_of(v: Value) -> NumberRead
    ensures { result ≡ fields.number_read v }
{
    match v {
        Value::Absent => no_number(0),
        Value::Number {
            negative,
            magnitude,
        } => ranged(negative, magnitude),
        _ => no_number(WRONG_KIND),
    }
}

fn no_flag(fault: u32) -> FlagRead
    ensures { result ≡ fields.no_flag fault }
{
    FlagRead { fault, flag: false }
}

// A flag that is absent is down.
pub fn flag_of(v: Value) -> FlagRead
    ensures { result ≡ fields.flag_read v }
{
    match v {
        Value::Absent => no_flag(0),
        Value::Flag(b) => FlagRead { fault: 0, flag: b },
        _ => no_flag(WRONG_KIND),
    }
}

// A refusal where there is no value.
fn missing(v: Value) -> u32
    ensures { result ≡ fields.missing v }
{
    match v {
        Value::Absent => MISSING,
        _ => 0,
    }
}

pub fn text(tree: &[u8], store: &[u8], f: Fields, key: &[u8]) -> TextRead
    requires { Spread tree.now f }
    ensures { result ≡ fields.text_at tree.now store.now f key.now }
{
    text_of(tree::field(tree, store, f, key))
}

pub fn number(tree: &[u8], store: &[u8], f: Fields, key: &[u8]) -> NumberRead
    requires { Spread tree.now f }
    ensures { result ≡ fields.number_at tree.now store.now f key.now }
{
    number_of(tree::field(tree, store, f, key))
}

pub fn flag(tree: &[u8], store: &[u8], f: Fields, key: &[u8]) -> FlagRead
    requires { Spread tree.now f }
    ensures { result ≡ fields.flag_at tree.now store.now f key.now }
{
    flag_of(tree::field(tree, store, f, key))
}

// A text that may not be missing.
pub fn text_needed(tree: &[u8], store: &[u8], f: Fields, key: &[u8]) -> TextRead
    requires { Spread tree.now f }
    ensures { result ≡ fields.text_needed tree.now store.now f key.now }
{
    let v = tree::field(tree, store, f, key);
    let t = text_of(v);
    let place = t.text;
    TextRead {
        fault: first_fault(t.fault, missing(v)),
        text: place,
    }
}

// An integer that may not be missing.
pub fn number_needed(tree: &[u8], store: &[u8], f: Fields, key: &[u8]) -> NumberRead
    requires { Spread tree.now f }
    ensures { result ≡ fields.number_needed tree.now store.now f key.now }
{
    let v = tree::field(tree, store, f, key);
    let n = number_of(v);
    let amount = n.number;
    NumberRead {
        fault: first_fault(n.fault, missing(v)),
        number: amount,
    }
}

// A kind by its word, `raw` where that is none.
fn kind_said(r: Result<Kind, Refused>) -> KindRead
    ensures { result ≡ fields.kind_said r }
{
    match r {
        Ok(kind) => KindRead { fault: 0, kind },
        Err(e) => KindRead {
            fault: e.number(),
            kind: Kind::Raw,
        },
    }
}

// A component's kind, `raw` where it has none.
pub fn kind(tree: &[u8], store: &[u8], f: Fields) -> KindRead
    requires { Spread tree.now f }
    ensures { result ≡ fields.kind_at tree.now store.now f }
{
    let t = text(tree, store, f, b"kind");
    match t.text {
        Text::Stored { from, len } => kind_said(Kind::parse(schema::stored(store, from, len))),
        _ => KindRead {
            fault: t.fault,
            kind: Kind::Raw,
        },
    }
}

// A medium by its word, `spi-nor` where that is none.
fn media_said(r: Result<Media, Refused>) -> MediaRead
    ensures { result ≡ fields.media_said r }
{
    match r {
        Ok(media) => MediaRead { fault: 0, media },
        Err(e) => MediaRead {
            fault: e.number(),
            media: Media::SpiNor,
        },
    }
}

// An image's media, the chip's where it has none.
pub fn media(tree: &[u8], store: &[u8], f: Fields, d: Media) -> MediaRead
    requires { Spread tree.now f }
    ensures { result ≡ fields.media_at tree.now store.now f d }
{
    let t = text(tree, store, f, b"media");
    match t.text {
        Text::Stored { from, len } => media_said(Media::parse(schema::stored(store, from, len))),
        _ => MediaRead {
            fault: t.fault,
            media: d,
        },
    }
}
