// The layer of strings, integers, keys and values, for hosts that compare it with the original.

ghost use Rattle.std.specs.Prelude.{◌≡◌};
ghost use Rattle.meaning.specs.Integers as ints;
ghost use Rattle.host.specs.Values.{number_of, slot_of, Spelled, Split, Ends, Readout};

use host::{Number, Segments, Spelling, Value, ValueRead};

// The integer that s is.
#[unsafe(no_mangle)]
pub extern "C" fn preset_value_int(s: &[u8]) -> Number
    ensures { result ≡ number_of (ints.signed s.now) }
{
    host::preset_value_int(s)
}

// Decodes a string after its opening quote. A refusal leaves the room all zero.
#[unsafe(no_mangle)]
pub extern "C" fn preset_value_string(src: &[u8], out: &mut [u8]) -> Spelling
    ensures { Spelled src.now out.old out.new result }
{
    host::preset_value_string(src, out)
}

// Value number n of a tree room; no value where the room is too short for it.
#[unsafe(no_mangle)]
pub extern "C" fn preset_tree_slot(tree: &[u8], n: usize) -> Value
    ensures { result ≡ slot_of tree.now n }
{
    host::preset_tree_slot(tree, n)
}

// Splits a key at its dots, under 01's limit of 16 segments. A refusal leaves the room all zero.
#[unsafe(no_mangle)]
pub extern "C" fn preset_value_key(s: &[u8], store: &mut [u8]) -> Segments
    ensures { Split s.now store.old store.new result }
{
    host::preset_value_key(s, store)
}

// Where segment i of a key ends among its bytes; 0 where there is none. The room is all zero after it.
#[unsafe(no_mangle)]
pub extern "C" fn preset_value_key_end(s: &[u8], store: &mut [u8], i: usize) -> usize
    ensures { Ends s.now store.old store.new i result }
{
    host::preset_value_key_end(s, store, i)
}

// Reads one value under 01's limits into the two rooms. A refusal leaves both all zero.
#[unsafe(no_mangle)]
pub extern "C" fn preset_value_read(text: &[u8], store: &mut [u8], tree: &mut [u8]) -> ValueRead
    ensures { Readout text.now store.old tree.old store.new
        tree.new result }
{
    host::preset_value_read(text, store, tree)
}
