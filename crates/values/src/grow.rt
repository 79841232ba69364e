// What headers and keys do to the tree room: tables and arrays entered or made, values hung up.

ghost use Rattle.std.specs.Prelude.{◌≡◌, ◌+◌, ◌-◌, ◌≤◌, ◌<◌, length, get_or, take, None};
ghost use Rattle.values.specs.Grow.{seg_of, segs_of, void, keyed_slot, spelt, look_s, onward, make_s, item_s, enter_s};
ghost use Rattle.values.specs.Grow.{down_s, push_s, to_last_s, hang_s};
ghost use Rattle.values.specs.Carries.{slots_of, Grows, Makes, Keys, Numbered, Seeks, Sought, Enters, Paths};
ghost use Rattle.values.specs.Carries.{SomeKey, last_of, Keyed, Hangs, Assigns, Grew};

use meaning::Refused;
use scalar::key::Key;
use tree::{KIND_ARRAY, KIND_TABLE, Slot};

// How many values are made and may be made, and the place that a walk has come to.
#[derive(Clone, Copy)]
pub struct Here {
    pub made: usize,
    pub limit: usize,
    pub place: u16,
}

// A segment of a key, by where its bytes stand in the store.
#[derive(Clone, Copy)]
pub struct Segment {
    pub from: usize,
    pub end: usize,
}

// Makes one value after those there are.
pub fn make_slot(tree: &mut [u8], made: usize, limit: usize, v: Slot) -> Result<Here, Refused>
    requires { Makes limit tree.old made v }
    ensures { Grew limit tree.old tree.new made
        (make_s limit (slots_of tree.old made) v) result }
{
    if limit <= made {
        return Err(Refused::TooManyValues);
    }
    tree::put(tree, made, v);
    Ok(Here {
        made: made + 1,
        limit,
        place: (made + 2) as u16,
    })
}

// Makes a value without data, under the place and with a segment of the store as its key.
fn make_keyed(tree: &mut [u8], kind: u8, here: Here, segment: Segment) -> Result<Here, Refused>
    requires { Keys here.limit tree.old here.made segment.from segment.end }
    ensures { Grew here.limit tree.old tree.new here.made (make_s here.limit
        (slots_of tree.old here.made)
        (keyed_slot kind here.place (seg_of segment.from segment.end))) result }
{
    let v = Slot {
        kind,
        parent: here.place,
        key: segment.from as u16,
        len: (segment.end - segment.from) as u16,
        data: 0,
    };
    make_slot(tree, here.made, here.limit, v)
}

// The kind of value number n.
fn kind_at(tree: &[u8], made: usize, n: usize) -> u8
    requires { Numbered tree.now made n }
    ensures { result ≡ (get_or (slots_of tree.now made) n void).kind }
{
    tree::kind_at(tree, n)
}

// The newest value under the place whose key is a segment of the store.
fn seek(tree: &[u8], store: &[u8], here: Here, segment: Segment) -> Option<usize>
    requires { Seeks tree.now store.now here.made segment.from segment.end }
    ensures { Sought here.made (look_s store.now 0 (slots_of tree.now here.made)
        here.place (spelt store.now (seg_of segment.from segment.end)) None) result }
{
    let name = &store[segment.from..segment.end];
    tree::find_child(tree, store, here.made, here.place, name)
}

// Walks into the table of that name under the place, or makes one in the place of anything else.
fn enter(tree: &mut [u8], store: &[u8], here: Here, segment: Segment) -> Result<Here, Refused>
    requires { Enters here.limit tree.old store.now here.made segment.from segment.end }
    ensures { Grew here.limit tree.old tree.new here.made (enter_s here.limit
        store.now (slots_of tree.old here.made) here.place
        (seg_of segment.from segment.end)) result }
{
    let f = seek(tree, store, here, segment);
    match f {
        Some(n) => {
            if kind_at(tree, here.made, n) == KIND_TABLE {
                return Ok(Here {
                    place: (n + 2) as u16,
                    ..here
                });
            }
            make_keyed(tree, KIND_TABLE, here, segment)
        }
        None => make_keyed(tree, KIND_TABLE, here, segment),
    }
}

// Makes the next table of the array at this place; an array's item has the key of no bytes.
fn make_item(tree: &mut [u8], here: Here) -> Result<Here, Refused>
    requires { Grows here.limit tree.old here.made }
    ensures { Grew here.limit tree.old tree.new here.made
        (item_s here.limit (slots_of tree.old here.made) here.place) result }
{
    make_keyed(tree, KIND_TABLE, here, Segment { from: 0, end: 0 })
}

// Makes an array and its first table.
fn push_new(tree: &mut [u8], here: Here, segment: Segment) -> Result<Here, Refused>
    requires { Keys here.limit tree.old here.made segment.from segment.end }
    ensures { Grew here.limit tree.old tree.new here.made (onward
        (make_s here.limit (slots_of tree.old here.made)
        (keyed_slot 4 here.place (seg_of segment.from segment.end)))
        (item_s here.limit)) result }
{
    let array = make_keyed(tree, KIND_ARRAY, here, segment)?;
    make_item(tree, array)
}

// The next table of the array of that name under the place; 13 over anything else.
fn push(tree: &mut [u8], store: &[u8], here: Here, segment: Segment) -> Result<Here, Refused>
    requires { Enters here.limit tree.old store.now here.made segment.from segment.end }
    ensures { Grew here.limit tree.old tree.new here.made (push_s here.limit
        store.now (slots_of tree.old here.made) here.place
        (seg_of segment.from segment.end)) result }
{
    let f = seek(tree, store, here, segment);
    match f {
        Some(n) => {
            if kind_at(tree, here.made, n) == KIND_ARRAY {
                let array = Here {
                    place: (n + 2) as u16,
                    ..here
                };
                return make_item(tree, array);
            }
            Err(Refused::NotAnArray)
        }
        None => push_new(tree, here, segment),
    }
}

// Along the first so many segments of a key, the first of which begins at from in the store. Where a key is taken by
// value, the function is a part of its callers, so that the key is not copied.
#[inline(always)]
pub fn enter_path(
    tree: &mut [u8],
    store: &[u8],
    start: Here,
    key: Key,
    from: usize,
    steps: usize,
) -> Result<Here, Refused>
    requires { Paths start.limit tree.old store.now start.made key from steps }
    ensures { Grew start.limit tree.old tree.new start.made (down_s start.limit
        store.now (segs_of from (take steps key.ends)) (slots_of tree.old start.made)
        start.place) result }
{
    let mut here = start;
    let mut at = from;
    for end in &key.ends[..steps] {
        let segment = Segment {
            from: at,
            end: *end,
        };
        here = enter(tree, store, here, segment)?;
        at = *end;
    }
    Ok(here)
}

// The last segment of a key, the first of which begins at from in the store.
#[inline(always)]
fn last_segment(key: Key, from: usize) -> Segment
    requires { SomeKey key }
    ensures { result ≡ last_of key from }
{
    let last = key.n - 1;
    let end = key.ends[last];
    if last == 0 {
        return Segment { from, end };
    }
    Segment {
        from: key.ends[last - 1],
        end,
    }
}

// Hangs value number n up under the place, with a segment of the store as its key.
fn hang_up(tree: &mut [u8], here: Here, segment: Segment, n: usize) -> Result<Here, Refused>
    requires { Hangs here.limit tree.old here.made segment.from segment.end n }
    ensures { Grew here.limit tree.old tree.new here.made
        (hang_s n (slots_of tree.old here.made) here.place (seg_of segment.from segment.end)) result }
{
    let key = segment.from as u16;
    let len = (segment.end - segment.from) as u16;
    tree::hang(tree, n, here.place, key, len);
    Ok(here)
}

// A header `[[..]]`: along all but the last segment from the place, and the next table of the array there.
#[inline(always)]
pub fn push_path(
    tree: &mut [u8],
    store: &[u8],
    start: Here,
    key: Key,
    from: usize,
) -> Result<Here, Refused>
    requires { Keyed start.limit tree.old store.now start.made key from }
    ensures { Grew start.limit tree.old tree.new start.made (to_last_s start.limit
        store.now (push_s start.limit store.now) (segs_of from (take key.n key.ends))
        (slots_of tree.old start.made) start.place) result }
{
    let there = enter_path(tree, store, start, key, from, key.n - 1)?;
    push(tree, store, there, last_segment(key, from))
}

// An assignment of value number n: along all but the last segment from the place, and hung up there under the last.
#[inline(always)]
pub fn assign(
    tree: &mut [u8],
    store: &[u8],
    start: Here,
    key: Key,
    from: usize,
    n: usize,
) -> Result<Here, Refused>
    requires { Assigns start.limit tree.old store.now start.made key from n }
    ensures { Grew start.limit tree.old tree.new start.made (to_last_s start.limit
        store.now (hang_s n) (segs_of from (take key.n key.ends))
        (slots_of tree.old start.made) start.place) result }
{
    let there = enter_path(tree, store, start, key, from, key.n - 1)?;
    hang_up(tree, there, last_segment(key, from), n)
}
