// The layer of strings, integers, keys and values, for hosts that compare it with the original.

ghost use Rattle.std.specs.Prelude.{◌≡◌};
ghost use Rattle.meaning.specs.Integers as ints;
ghost use Rattle.host.specs.Values.{number_of, slot_of, size_fault, Spelled, Split, Ends, Readout};

use meaning::{ARRAYS, SEGMENTS, TEXT_BYTES, VALUES};
use values::State;
use values::value::Allowed;

// number 0 and the integer by sign and magnitude, or 12.
#[repr(C)]
#[derive(Clone, Copy)]
pub struct Number {
    pub number: u32,
    pub negative: bool,
    pub magnitude: u64,
}

// number 0, with the bytes of text used and the bytes written; or 8 with the place of its backslash; or 9; or 17.
#[repr(C)]
#[derive(Clone, Copy)]
pub struct Spelling {
    pub number: u32,
    pub used: usize,
    pub written: usize,
    pub at: usize,
}

// A value of a tree room, as it stands there.
#[repr(C)]
#[derive(Clone, Copy)]
pub struct Value {
    pub kind: u32,
    pub parent: u32,
    pub key: u32,
    pub len: u32,
    pub data: u64,
}

// The integer that s is.
pub fn preset_value_int(s: &[u8]) -> Number
    ensures { result ≡ number_of (ints.signed s.now) }
{
    match scalar::integer::read_int(s) {
        Ok(x) => Number {
            number: 0,
            negative: x.neg,
            magnitude: x.mag,
        },
        Err(refused) => Number {
            number: refused.number(),
            negative: false,
            magnitude: 0,
        },
    }
}

fn refused_string(number: u32, at: usize) -> Spelling
    ensures { result ≡ record { number = number; used = 0; written = 0; at = at } }
{
    Spelling {
        number,
        used: 0,
        written: 0,
        at,
    }
}

// Decodes a string after its opening quote. A refusal leaves the room all zero.
pub fn preset_value_string(src: &[u8], out: &mut [u8]) -> Spelling
    ensures { Spelled src.now out.old out.new result }
{
    slices::zero(out);
    if out.len() < src.len() {
        return refused_string(17, 0);
    }
    match scalar::string::decode(src, out) {
        Ok(said) => Spelling {
            number: 0,
            used: said.used,
            written: said.written,
            at: 0,
        },
        Err(bad) => {
            slices::zero(out);
            refused_string(bad.refused.number(), bad.at)
        }
    }
}

// Value number n of a tree room; no value where the room is too short for it.
pub fn preset_tree_slot(tree: &[u8], n: usize) -> Value
    ensures { result ≡ slot_of tree.now n }
{
    if n < tree::capacity(tree) {
        let v = tree::show_slot(tree, n);
        return Value {
            kind: v.kind as u32,
            parent: v.parent as u32,
            key: v.key as u32,
            len: v.len as u32,
            data: v.data,
        };
    }
    Value {
        kind: 0,
        parent: 0,
        key: 0,
        len: 0,
        data: 0,
    }
}

// number 0 with how many segments a key has and how many bytes they take; or 7, 8, 9 or 15; or 17.
#[repr(C)]
#[derive(Clone, Copy)]
pub struct Segments {
    pub number: u32,
    pub count: usize,
    pub used: usize,
}

fn refused_key(number: u32) -> Segments
    ensures { result ≡ record { number = number; count = 0; used = 0 } }
{
    Segments {
        number,
        count: 0,
        used: 0,
    }
}

// Splits a key at its dots, under 01's limit of 16 segments. A refusal leaves the room all zero.
pub fn preset_value_key(s: &[u8], store: &mut [u8]) -> Segments
    ensures { Split s.now store.old store.new result }
{
    slices::zero(store);
    if store.len() < s.len() {
        return refused_key(17);
    }
    match scalar::key::put_key(s, store, 0, SEGMENTS) {
        Ok(key) => Segments {
            number: 0,
            count: key.n,
            used: key.used,
        },
        Err(bad) => {
            slices::zero(store);
            refused_key(bad.refused.number())
        }
    }
}

// Where segment i of a key ends among its bytes; 0 where there is none. The room is all zero after it.
pub fn preset_value_key_end(s: &[u8], store: &mut [u8], i: usize) -> usize
    ensures { Ends s.now store.old store.new i result }
{
    slices::zero(store);
    if store.len() < s.len() {
        return 0;
    }
    let key = scalar::key::put_key(s, store, 0, SEGMENTS);
    slices::zero(store);
    match key {
        Ok(key) if i < SEGMENTS => key.ends[i],
        _ => 0,
    }
}

// number 0 with the bytes used of the store and the values made; or 8 to 12, 14 or 16; or 17, then 1.
#[repr(C)]
#[derive(Clone, Copy)]
pub struct ValueRead {
    pub number: u32,
    pub used: usize,
    pub made: usize,
}

fn refused_value(number: u32) -> ValueRead
    ensures { result ≡ record { number = number; used = 0; made = 0 } }
{
    ValueRead {
        number,
        used: 0,
        made: 0,
    }
}

// What the sizes of the two rooms and of a text are refused with: 17, then 1, or 0.
fn size_fault(text: &[u8], store: &[u8], tree: &[u8]) -> u32
    ensures { result ≡ size_fault text.now store.now tree.now }
{
    if toml_lite::rooms_suffice(store, tree) {
        if TEXT_BYTES < text.len() {
            return 1;
        }
        return 0;
    }
    17
}

// Reads one value under 01's limits into the two rooms. A refusal leaves both all zero.
pub fn preset_value_read(text: &[u8], store: &mut [u8], tree: &mut [u8]) -> ValueRead
    ensures { Readout text.now store.old tree.old store.new
        tree.new result }
{
    slices::zero(store);
    slices::zero(tree);
    let n = size_fault(text, store, tree);
    if n != 0 {
        return refused_value(n);
    }
    let st = State { used: 0, made: 0 };
    let allowed = Allowed {
        values: VALUES,
        arrays: ARRAYS,
    };
    match values::value::value(text, store, tree, st, 0, allowed) {
        Ok(end) => ValueRead {
            number: 0,
            used: end.used,
            made: end.made,
        },
        Err(e) => {
            slices::zero(store);
            slices::zero(tree);
            refused_value(e.refused.number())
        }
    }
}
