// Whole presets, and views of the rooms that reading leaves.

ghost use Rattle.std.specs.Prelude.{◌≡◌};
ghost use Rattle.meaning.specs.Limits.{value_bytes};
ghost use Rattle.host.specs.Documents.{Presented, key_shown, child_shown, next_shown};

use host::{At, Outcome};

// Bytes per value of the tree room.
#[unsafe(no_mangle)]
pub extern "C" fn preset_value_size() -> u32
    ensures { result ≡ value_bytes }
{
    host::preset_value_size()
}

// Reads a text's tree into the two rooms, whatever its records are. A refusal leaves both rooms all zero.
#[unsafe(no_mangle)]
pub extern "C" fn document_read(text: &[u8], store: &mut [u8], tree: &mut [u8]) -> Outcome
    ensures { Presented text.now store.old tree.old store.new
        tree.new result }
{
    host::document_read(text, store, tree)
}

// The newest of the values made that hangs under the parent with the key; nothing where the room has fewer values.
#[unsafe(no_mangle)]
pub extern "C" fn preset_tree_find(
    tree: &[u8],
    store: &[u8],
    made: usize,
    parent: u16,
    key: &[u8],
) -> At
    ensures { result ≡ key_shown tree.now store.now made parent key.now }
{
    host::preset_tree_find(tree, store, made, parent, key)
}

// The first of the values made, from a number on, that hangs under the parent; nothing where the room has fewer values.
#[unsafe(no_mangle)]
pub extern "C" fn preset_tree_child(tree: &[u8], made: usize, parent: u16, from: usize) -> At
    ensures { result ≡ child_shown tree.now made parent from }
{
    host::preset_tree_child(tree, made, parent, from)
}

// The value under the parent with the least key of all (begun 0), or with the least key above that of value number
// after; nothing where the room has fewer values.
#[unsafe(no_mangle)]
pub extern "C" fn preset_tree_next(
    tree: &[u8],
    store: &[u8],
    made: usize,
    parent: u16,
    begun: u32,
    after: usize,
) -> At
    ensures { result ≡ next_shown tree.now store.now made parent begun after }
{
    host::preset_tree_next(tree, store, made, parent, begun, after)
}
