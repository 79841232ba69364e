// Feature lists: the words of a stored text or the items of an array, judged, and walked in byte order by a cursor.

#![tactic(auto)]

mod reader;

ghost use Rattle.std.specs.Prelude.{◌≡◌, ◌≤◌, length};
ghost use Rattle.meaning.specs.Base.{pick, nil?, same, less};
ghost use Rattle.schema.specs.Texts.{clip};
ghost use Rattle.features.specs.Pieces as piece;
ghost use Rattle.features.specs.Ordered as ordered;
ghost use Rattle.tree.specs.Both.{on};

use schema::Features;
use tree::{Fields, Rooms, Value};

// A part of the text store.
#[derive(Clone, Copy)]
pub struct Piece {
    pub from: usize,
    pub len: usize,
}

// An item in the order of the text, and the position after it.
#[derive(Clone, Copy)]
pub struct Raw {
    pub piece: Piece,
    pub next: usize,
}

// The refusal of a value of another kind than is asked for.
pub const WRONG_KIND: u32 = 20;

// The refusal of a list with more items or entries than it may have.
pub const TOO_MANY: u32 = 25;

// fault 0 where the list is right.
#[derive(Clone, Copy)]
pub struct FeaturesRead {
    pub fault: u32,
    pub features: Features,
}

// The first word of a stored text from a position on.
fn raw_word(store: &[u8], from: usize, len: usize, at: usize) -> Option<Raw>
    ensures { piece.Steps (piece.words_from store.now from len)
        (length (clip from len store.now)) at result }
{
    let s = schema::stored(store, from, len);
    let word = reader::first(s, at)?;
    Some(Raw {
        piece: Piece {
            from: from + word.from,
            len: word.to - word.from,
        },
        next: word.to,
    })
}

// Where a text stands in the store.
fn piece_of(v: Value) -> Piece
    ensures { result ≡ piece.piece_of v }
{
    match v {
        Value::Text { from, len } => Piece { from, len },
        _ => Piece { from: 0, len: 0 },
    }
}

// The first item of an array from a value's number on.
fn raw_item(rooms: Rooms<'_>, place: u16, at: usize) -> Option<Raw>
    requires { at ≤ rooms.made }
    ensures { piece.Steps (on piece.items_from rooms.entry place) rooms.entry.made at result }
{
    let step = tree::next_item(rooms.tree, tree::items_from(place, at, rooms.made))?;
    Some(Raw {
        piece: piece_of(rooms.value_at(step.value)),
        next: step.rest.at,
    })
}

// The first piece of a feature list from a position on.
fn raw_next(rooms: Rooms<'_>, f: Features, at: usize) -> Option<Raw>
    requires { at ≤ on piece.bound rooms f }
    ensures { on piece.StepsIn rooms.entry f at result }
{
    match f {
        Features::Absent => None,
        Features::Words { from, len } => raw_word(rooms.store, from, len, at),
        Features::Items(place) => raw_item(rooms, place, at),
    }
}

// Whether a feature list has no item.
pub fn is_empty(rooms: Rooms<'_>, f: Features) -> bool
    ensures { result ≡ nil? (on piece.pieces rooms.entry f) }
{
    raw_next(rooms, f, 0).is_none()
}

fn is_text(v: Value) -> bool
    ensures { result ≡ piece.is_text v }
{
    match v {
        Value::Text { from: _, len: _ } => true,
        _ => false,
    }
}

// The fault so far, or that of an item of the wrong kind.
fn kind_fault(fault: u32, v: Value) -> u32
    ensures { result ≡ pick (piece.is_text v) fault 20 }
{
    if is_text(v) {
        return fault;
    }
    WRONG_KIND
}

// Too many items come before those that are no text; one walk tells both, for a walk looks at every value made.
fn items_fault(rooms: Rooms<'_>, place: u16, limit: usize) -> u32
    ensures { result ≡ on piece.items_fault rooms.entry limit place }
{
    let mut fault: u32 = 0;
    let mut n: usize = 0;
    let mut w = tree::items_of(place, rooms.made);
    while let Some(step) = tree::next_item(rooms.tree, w) {
        if n == limit {
            return TOO_MANY;
        }
        fault = kind_fault(fault, rooms.value_at(step.value));
        n += 1;
        w = step.rest;
    }
    fault
}

fn refused_list(fault: u32) -> FeaturesRead
    ensures { result ≡ record { fault = fault; features = Features.Absent } }
{
    FeaturesRead {
        fault,
        features: Features::Absent,
    }
}

fn few_words(store: &[u8], from: usize, len: usize, limit: usize) -> FeaturesRead
    ensures { result ≡ piece.few_words store.now limit from len }
{
    let words = reader::count(schema::stored(store, from, len));
    if limit < words {
        return refused_list(TOO_MANY);
    }
    FeaturesRead {
        fault: 0,
        features: Features::Words { from, len },
    }
}

fn few_items(rooms: Rooms<'_>, place: u16, limit: usize) -> FeaturesRead
    ensures { result ≡ on piece.few_items rooms.entry limit place }
{
    let fault = items_fault(rooms, place, limit);
    if fault != 0 {
        return refused_list(fault);
    }
    FeaturesRead {
        fault: 0,
        features: Features::Items(place),
    }
}

// The feature list that a value is, where limit items are allowed.
pub fn read(rooms: Rooms<'_>, v: Value, limit: usize) -> FeaturesRead
    ensures { result ≡ on piece.features_read rooms.entry limit v }
{
    match v {
        Value::Absent => refused_list(0),
        Value::Text { from, len } => few_words(rooms.store, from, len, limit),
        Value::Array(place) => few_items(rooms, place, limit),
        _ => refused_list(WRONG_KIND),
    }
}

// Whether piece p comes before piece q in byte order.
fn before(store: &[u8], p: Piece, q: Piece) -> bool
    ensures { result ≡ less (piece.bytes_of store.now p) (piece.bytes_of store.now q) }
{
    let a = schema::stored(store, p.from, p.len);
    let b = schema::stored(store, q.from, q.len);
    slices::less(a, b)
}

fn comes_after(store: &[u8], after: Option<Piece>, p: Piece) -> bool
    ensures { result ≡ piece.comes_after store.now after p }
{
    after.is_none_or(|q| before(store, q, p))
}

fn comes_before(store: &[u8], best: Option<Piece>, p: Piece) -> bool
    ensures { result ≡ piece.ahead store.now best p }
{
    best.is_none_or(|q| before(store, p, q))
}

// The better of the best so far and p.
fn better(store: &[u8], after: Option<Piece>, best: Option<Piece>, p: Piece) -> Option<Piece>
    ensures { result ≡ piece.better store.now after best p }
{
    if comes_after(store, after, p) {
        if comes_before(store, best, p) {
            return Some(p);
        }
        return best;
    }
    best
}

// Of a list's items from a position on, the least after the last one given.
fn nearest(rooms: Rooms<'_>, f: Features, from: usize, after: Option<Piece>) -> Option<Piece>
    requires { from ≤ on piece.bound rooms f }
    ensures { result ≡ on ordered.next_from rooms.entry f from after }
{
    let mut best = None;
    let mut at = from;
    while let Some(raw) = raw_next(rooms, f, at) {
        best = better(rooms.store, after, best, raw.piece);
        at = raw.next;
    }
    best
}

// The next item in byte order after the last one given, each once.
pub fn next_feature(rooms: Rooms<'_>, f: Features, after: Option<Piece>) -> Option<Piece>
    ensures { result ≡ on ordered.next_in rooms.entry f after }
{
    nearest(rooms, f, 0, after)
}

// Whether two pieces have the same bytes.
fn same_piece(store: &[u8], p: Piece, q: Piece) -> bool
    ensures { result ≡ same (piece.bytes_of store.now p) (piece.bytes_of store.now q) }
{
    let a = schema::stored(store, p.from, p.len);
    let b = schema::stored(store, q.from, q.len);
    slices::same(a, b)
}

// Whether both are there and have the same bytes, or neither is.
fn same_feature(store: &[u8], x: Option<Piece>, y: Option<Piece>) -> bool
    ensures { result ≡ piece.same_feature store.now x y }
{
    match (x, y) {
        (Some(p), Some(q)) => same_piece(store, p, q),
        _ => x.is_none() && y.is_none(),
    }
}

// Two lists with the same items in the order of the text are told by one scan of each.
fn same_as_written(rooms: Rooms<'_>, f: Features, g: Features) -> bool
    ensures { on ordered.AlikeIn rooms.entry f g result }
{
    let mut at = 0;
    let mut bt = 0;
    loop {
        let a = raw_next(rooms, f, at);
        let b = raw_next(rooms, g, bt);
        let (Some(r), Some(s)) = (a, b) else {
            return a.is_none() && b.is_none();
        };
        if !same_piece(rooms.store, r.piece, s.piece) {
            return false;
        }
        at = r.next;
        bt = s.next;
    }
}

// Side by side in byte order: each step scans both lists.
fn equal_slow(rooms: Rooms<'_>, f: Features, g: Features) -> bool
    ensures { result ≡ on ordered.equal_in rooms.entry f g }
{
    let mut a = None;
    let mut b = None;
    loop {
        a = next_feature(rooms, f, a);
        b = next_feature(rooms, g, b);
        if !same_feature(rooms.store, a, b) {
            return false;
        }
        if a.is_none() {
            return true;
        }
    }
}

// Whether two lists have the same items, in byte order and each once.
pub fn equal(rooms: Rooms<'_>, f: Features, g: Features) -> bool
    ensures { result ≡ on ordered.equal_in rooms.entry f g }
{
    if same_as_written(rooms, f, g) {
        return true;
    }
    equal_slow(rooms, f, g)
}

// No list has more items.
fn most_items(store: &[u8], made: usize, f: Features) -> usize
    ensures { result ≡ piece.bound store.now store.now made f }
{
    match f {
        Features::Absent => 0,
        Features::Words { from, len } => schema::stored(store, from, len).len(),
        Features::Items(_) => made,
    }
}

// Among which values all items of a list stand: an array's between its first item and its newest, so that a walk
// looks at no others.
fn span(rooms: Rooms<'_>, f: Features) -> Fields
    ensures { result ≡ piece.span rooms.entry.tree.now rooms.entry.made f }
{
    match f {
        Features::Items(place) => rooms.fields_at(place),
        _ => Fields {
            place: 0,
            from: 0,
            to: rooms.made,
        },
    }
}

// How many items a list has from a position on, each once.
fn tally(rooms: Rooms<'_>, f: Features, from: usize) -> usize
    requires { from ≤ on piece.bound rooms f }
    ensures { result ≡ on ordered.count_from rooms.entry f from }
{
    let end = most_items(rooms.store, rooms.made, f);
    let mut after = None;
    for n in 0..end {
        after = nearest(rooms, f, from, after);
        if after.is_none() {
            return n;
        }
    }
    end
}

// How many items a list has, each once.
pub fn count_features(rooms: Rooms<'_>, f: Features) -> usize
    ensures { result ≡ length (on ordered.in_order rooms.entry f) }
{
    let s = span(rooms, f);
    let within = Rooms {
        tree: rooms.tree,
        store: rooms.store,
        made: s.to,
    };
    tally(within, f, s.from)
}
