// Whole presets, and views of the rooms that reading leaves.

ghost use Rattle.std.specs.Prelude.{◌≡◌};
ghost use Rattle.meaning.specs.Limits.{value_bytes};
ghost use Rattle.host.specs.Documents.{Presented, at_of, key_shown, child_shown, last_visited, next_shown};

// number 0: accepted, and then made counts the values; else 01's number, section and place.
#[repr(C)]
#[derive(Clone, Copy)]
pub struct Outcome {
    pub number: u32,
    pub section: u32,
    pub place: u32,
    pub made: u32,
}

// found 1: value number `number`; else found 0.
#[repr(C)]
#[derive(Clone, Copy)]
pub struct At {
    pub found: u32,
    pub number: usize,
}

// Bytes per value of the tree room.
pub fn preset_value_size() -> u32
    ensures { result ≡ value_bytes }
{
    tree::width()
}

// Reads a text's tree into the two rooms, whatever its records are. A refusal leaves both rooms all zero.
pub fn document_read(text: &[u8], store: &mut [u8], tree: &mut [u8]) -> Outcome
    ensures { Presented text.now store.old tree.old store.new
        tree.new result }
{
    match toml_lite::read_tree(text, store, tree) {
        Ok(st) => Outcome {
            number: 0,
            section: 0,
            place: 0,
            made: st.made as u32,
        },
        Err(e) => Outcome {
            number: e.refused.number(),
            section: 0,
            place: e.line as u32,
            made: 0,
        },
    }
}

fn at_of(f: Option<usize>) -> At
    ensures { result ≡ at_of f }
{
    match f {
        Some(n) => At {
            found: 1,
            number: n,
        },
        None => At {
            found: 0,
            number: 0,
        },
    }
}

// The newest of the values made that hangs under the parent with the key; nothing where the room has fewer values.
pub fn preset_tree_find(tree: &[u8], store: &[u8], made: usize, parent: u16, key: &[u8]) -> At
    ensures { result ≡ key_shown tree.now store.now made parent key.now }
{
    if tree::capacity(tree) < made {
        return at_of(None);
    }
    at_of(tree::find_child(tree, store, made, parent, key))
}

// The first of the values made, from a number on, that hangs under the parent; nothing where the room has fewer values.
pub fn preset_tree_child(tree: &[u8], made: usize, parent: u16, from: usize) -> At
    ensures { result ≡ child_shown tree.now made parent from }
{
    if tree::capacity(tree) < made {
        return at_of(None);
    }
    let item = tree::next_item(tree, tree::items_from(parent, from, made));
    at_of(item.map(|i| i.value))
}

// Where a walk in byte order stands: at its start, or after a value.
fn last_visited(begun: u32, after: usize) -> Option<usize>
    ensures { result ≡ last_visited begun after }
{
    (begun != 0).then_some(after)
}

// The value under the parent with the least key of all (begun 0), or with the least key above that of value number
// after; nothing where the room has fewer values.
pub fn preset_tree_next(
    tree: &[u8],
    store: &[u8],
    made: usize,
    parent: u16,
    begun: u32,
    after: usize,
) -> At
    ensures { result ≡ next_shown tree.now store.now made parent begun after }
{
    if tree::capacity(tree) < made {
        return at_of(None);
    }
    let w = tree::keys_after(tree, parent, made, last_visited(begun, after));
    let key = tree::next_key(tree, store, w);
    at_of(key.map(|k| k.value))
}
