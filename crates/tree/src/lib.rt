// The tree room: values of 32 bytes each in the order they are made, each hung up under a parent. Only this crate
// knows the layout.

#![tactic(auto)]

mod rooms;

ghost use Rattle.std.specs.Prelude.{◌≡◌, [], ◌∷◌, ◌+◌, ◌*◌, ◌/◌, ◌-◌, ◌≤◌, length, None};
ghost use Rattle.meaning.specs.Limits.{value_bytes};
ghost use Rattle.laws.specs.Stored.{stored};
ghost use Rattle.tree.specs.Room as room;
ghost use Rattle.tree.specs.Room.{Holds, Finds, Counts, Clear, cell, slot_at, hung};
ghost use Rattle.tree.specs.Doors as doors;
ghost use Rattle.tree.specs.Doors.{Stood, Spread};
ghost use Rattle.tree.specs.Order as order;
ghost use Rattle.tree.specs.Order.{Stands};
ghost use Rattle.tree.specs.Steps as steps;
ghost use Rattle.tree.specs.Steps.{Gives, Ready, Begins, KeyGives};

pub use rooms::Rooms;

// How many values a search tests before it decides to go on.
const BLOCK: usize = 8;

// Reading never makes more values, so that each has a place of two bytes.
pub const MOST_VALUES: usize = 65000;

// The place under which the root's fields hang.
pub const ROOT: u16 = 1;

// A value. Its kind is one of those below, KIND_NEGATIVE that of an integer with a minus.
// Its parent: 0 none yet, 1 the root, n + 2 value number n. Its key is len bytes of the text store. Its data: an
// integer's magnitude; start + 65536 * length of a string; 0 or 1; else 0.
#[derive(Clone, Copy)]
pub struct Slot {
    pub kind: u8,
    pub parent: u16,
    pub key: u16,
    pub len: u16,
    pub data: u64,
}

// Its kinds.
pub const KIND_STRING: u8 = 1;

pub const KIND_INTEGER: u8 = 2;

pub const KIND_BOOLEAN: u8 = 3;

pub const KIND_ARRAY: u8 = 4;

pub const KIND_TABLE: u8 = 5;

pub const KIND_NEGATIVE: u8 = 6;
// A string's data is where its bytes start, and so many times its length.
pub const STRING_LENGTH_UNIT: u64 = 65536;
// Bytes per value.
pub const VALUE_BYTES: usize = meaning::VALUE_BYTES;

// The most that a string's data can be: both its start and its length below the unit.
const STRING_MOST: u64 = 4294967295;

// What a value is: a string's bytes in the text store, an integer, a boolean, or the place where an array's items or
// a table's fields hang.
#[derive(Clone, Copy)]
pub enum Value {
    Absent,
    Text { from: usize, len: usize },
    Number { negative: bool, magnitude: u64 },
    Flag(bool),
    Array(u16),
    Table(u16),
}

// A table's place, and where among the values its children stand: from the first to before the end of the newest.
#[derive(Clone, Copy)]
pub struct Fields {
    pub place: u16,
    pub from: usize,
    pub to: usize,
}

// Where a value's key stands in the text store.
#[derive(Clone, Copy)]
pub struct Span {
    pub from: usize,
    pub len: usize,
}

// A walk over what hangs under a place, in the order of the text: an array's items, a list's entries.
// It goes on at a number, among so many values made.
#[derive(Clone, Copy)]
pub struct Items {
    pub place: u16,
    pub at: usize,
    pub end: usize,
}

// A walk over a table's keys in byte order, each key once. It goes on after a value; below a low number nothing
// hangs under the place.
#[derive(Clone, Copy)]
pub struct Keys {
    pub place: u16,
    pub low: usize,
    pub end: usize,
    pub after: Option<usize>,
}

// What a step of a walk gives: the next value, of a key its newest, and the walk over the rest.
#[derive(Clone, Copy)]
pub struct Step<W> {
    pub value: usize,
    pub rest: W,
}

// Bytes per value.
pub fn width() -> u32
    ensures { result ≡ value_bytes }
{
    VALUE_BYTES as u32
}

// How many values a room takes.
pub fn capacity(tree: &[u8]) -> usize
    ensures { result ≡ length tree.now / value_bytes }
{
    tree.len() / VALUE_BYTES
}

// The kind and the spare byte after it.
fn put_kind(tree: &mut [u8], at: usize, kind: u8)
    requires { at + 2 ≤ length tree.old }
    ensures { tree.new ≡ stored tree.old at (kind ∷ 0 ∷ []) }
{
    tree[at] = kind;
    tree[at + 1] = 0;
}

// Where a value hangs: its parent, its key and the key's length.
fn put_place(tree: &mut [u8], at: usize, v: Slot)
    requires { at + 6 ≤ length tree.old }
    ensures { tree.new ≡ stored tree.old at (room.place v) }
{
    slices::put2(tree, at, v.parent);
    slices::put2(tree, at + 2, v.key);
    slices::put2(tree, at + 4, v.len);
}

// What a value is, and the spare bytes after it.
fn put_payload(tree: &mut [u8], at: usize, v: Slot)
    requires { at + 24 ≤ length tree.old }
    ensures { tree.new ≡ stored tree.old at (room.body v) }
{
    slices::put8(tree, at, v.data);
    slices::put8(tree, at + 8, 0);
    slices::put8(tree, at + 16, 0);
}

// Writes value number n whole.
pub fn put(tree: &mut [u8], n: usize, v: Slot)
    requires { Holds tree.old (n + 1) }
    ensures { tree.new ≡ stored tree.old (32 * n) (cell v) }
{
    let at = VALUE_BYTES * n;
    put_kind(tree, at, v.kind);
    put_place(tree, at + 2, v);
    put_payload(tree, at + 8, v);
}

// Reads value number n.
fn get(tree: &[u8], n: usize) -> Slot
    requires { Holds tree.now (n + 1) }
    ensures { result ≡ slot_at tree.now n }
{
    let at = VALUE_BYTES * n;
    let parent = slices::get2(tree, at + 2);
    let key = slices::get2(tree, at + 4);
    let len = slices::get2(tree, at + 6);
    let data = slices::get8(tree, at + 8);
    Slot {
        kind: tree[at],
        parent,
        key,
        len,
        data,
    }
}

// Value number n as it stands, for whoever looks at a room from outside.
pub fn show_slot(tree: &[u8], n: usize) -> Slot
    requires { Holds tree.now (n + 1) }
    ensures { result ≡ slot_at tree.now n }
{
    get(tree, n)
}

// The kind of value number n.
pub fn kind_at(tree: &[u8], n: usize) -> u8
    requires { Holds tree.now (n + 1) }
    ensures { result ≡ (slot_at tree.now n).kind }
{
    let v = get(tree, n);
    v.kind
}

// The key of value number n.
pub fn key_at(tree: &[u8], n: usize) -> Span
    requires { Holds tree.now (n + 1) }
    ensures { steps.KeyIs tree.now n result }
{
    let v = get(tree, n);
    Span {
        from: v.key as usize,
        len: v.len as usize,
    }
}

// Hangs value number n up under a parent, with a key; an array's item has the key of no bytes.
pub fn hang(tree: &mut [u8], n: usize, parent: u16, key: u16, len: u16)
    requires { Holds tree.old (n + 1) }
    ensures { tree.new ≡ room.hung_at tree.old n parent key len }
{
    let v = get(tree, n);
    let w = Slot {
        kind: v.kind,
        parent,
        key,
        len,
        data: v.data,
    };
    put(tree, n, w);
}

// Whether value number n hangs under the parent.
fn hangs_under(tree: &[u8], n: usize, parent: u16) -> bool
    requires { Holds tree.now (n + 1) }
    ensures { result ≡ room.under tree.now n parent }
{
    let at = VALUE_BYTES * n;
    slices::get2(tree, at + 2) == parent
}

// Whether none of a block of values from number n on hangs under the parent. Their tests stand one after the other
// in the machine's code,
// which is quicker than a loop over all values.
fn none_under(tree: &[u8], n: usize, parent: u16) -> bool
    requires { Holds tree.now (n + 8) }
    ensures { result ≡ room.idle tree.now parent 8 n }
{
    let mut k = 0;
    while k < BLOCK {
        if hangs_under(tree, n + k, parent) {
            return false;
        }
        k += 1;
    }
    true
}

// Up from a number, a block at a time, as long as none of its values hangs under the parent.
fn skip_up(tree: &[u8], made: usize, parent: u16, from: usize) -> usize
    requires { Holds tree.now made }
    ensures { Clear tree.now parent from result }
{
    if made < from {
        return from;
    }
    let mut n = from;
    while BLOCK <= made - n {
        if none_under(tree, n, parent) {
            n += BLOCK;
        } else {
            return n;
        }
    }
    n
}

// Down from the newest of the values made, a block at a time, as long as none of its values hangs under the parent.
fn skip_down(tree: &[u8], made: usize, parent: u16) -> usize
    requires { Holds tree.now made }
    ensures { Clear tree.now parent result made }
{
    let mut i = made;
    while BLOCK <= i {
        if none_under(tree, i - BLOCK, parent) {
            i -= BLOCK;
        } else {
            return i;
        }
    }
    i
}

// Whether the value's key is these bytes.
fn key_is(store: &[u8], v: Slot, key: &[u8]) -> bool
    ensures { result ≡ room.keyed store.now v key.now }
{
    let from = v.key as usize;
    let end = from + v.len as usize;
    if store.len() < end {
        return false;
    }
    slices::same(&store[from..end], key)
}

fn is_named_child(tree: &[u8], store: &[u8], n: usize, parent: u16, key: &[u8]) -> bool
    requires { Holds tree.now (n + 1) }
    ensures { result ≡ room.mine tree.now store.now n parent key.now }
{
    if hangs_under(tree, n, parent) {
        let v = get(tree, n);
        return key_is(store, v, key);
    }
    false
}

// The newest of the values from one number to before another that hangs under the parent with the key.
fn seek(tree: &[u8], store: &[u8], from: usize, to: usize, parent: u16, key: &[u8]) -> Option<usize>
    requires { (from ≤ to) × Holds tree.now to }
    ensures { Finds from to
        (doors.sought tree.now store.now from to parent key.now) result }
{
    let mut i = to;
    while from < i {
        i -= 1;
        if is_named_child(tree, store, i, parent, key) {
            return Some(i);
        }
    }
    None
}

// The same of a block: where none of its values hangs under the parent, no key is looked at.
fn seek_block(tree: &[u8], store: &[u8], n: usize, parent: u16, key: &[u8]) -> Option<usize>
    requires { Holds tree.now (n + 8) }
    ensures { Finds n (n + 8)
        (doors.look_in tree.now store.now n 8 parent key.now) result }
{
    if none_under(tree, n, parent) {
        return None;
    }
    seek(tree, store, n, n + BLOCK, parent, key)
}

// The newest of the values made that hangs under the parent with the key.
pub fn find_child(tree: &[u8], store: &[u8], made: usize, parent: u16, key: &[u8]) -> Option<usize>
    requires { Holds tree.now made }
    ensures { Finds 0 made (room.look tree.now store.now made parent key.now) result }
{
    let mut i = made;
    while BLOCK <= i {
        i -= BLOCK;
        let found = seek_block(tree, store, i, parent, key);
        if found.is_some() {
            return found;
        }
    }
    seek(tree, store, 0, i, parent, key)
}

// The first of the values made that hangs under the parent, from a number on.
fn child(tree: &[u8], made: usize, parent: u16, from: usize) -> Option<usize>
    requires { Holds tree.now made }
    ensures { Finds from made (room.child tree.now made parent from) result }
{
    let mut n = skip_up(tree, made, parent, from);
    while n < made {
        if hangs_under(tree, n, parent) {
            return Some(n);
        }
        n += 1;
    }
    None
}

// The walk over all that hangs under a place, among so many values made.
pub fn items_of(place: u16, end: usize) -> Items
    ensures { result ≡ steps.items_from place 0 end }
{
    items_from(place, 0, end)
}

// The same from a number on.
pub fn items_from(place: u16, from: usize, end: usize) -> Items
    ensures { result ≡ steps.items_from place from end }
{
    Items {
        place,
        at: from,
        end,
    }
}

// A step of the walk.
pub fn next_item(tree: &[u8], w: Items) -> Option<Step<Items>>
    requires { Holds tree.now w.end }
    ensures { Gives tree.now w result }
{
    let value = child(tree, w.end, w.place, w.at)?;
    Some(Step {
        value,
        rest: items_from(w.place, value + 1, w.end),
    })
}

// How many of the values made hang under the parent.
pub fn count_items(tree: &[u8], made: usize, parent: u16) -> usize
    requires { Holds tree.now made }
    ensures { Counts tree.now made parent result }
{
    let mut n: usize = 0;
    let mut i = 0;
    while i < made {
        if hangs_under(tree, i, parent) {
            n += 1;
            i += 1;
        } else {
            i += 1;
        }
    }
    n
}

// Whether the value has a key.
fn has_key(store: &[u8], v: Slot) -> bool
    ensures { result ≡ order.has_key store.now v }
{
    let from = v.key as usize;
    let end = from + v.len as usize;
    end <= store.len()
}

// Whether v's key comes before w's.
fn before(store: &[u8], v: Slot, w: Slot) -> bool
    ensures { result ≡ order.before store.now v w }
{
    let from = v.key as usize;
    let to = from + v.len as usize;
    if store.len() < to {
        return false;
    }
    let start = w.key as usize;
    let stop = start + w.len as usize;
    if store.len() < stop {
        return false;
    }
    slices::less(&store[from..to], &store[start..stop])
}

// Whether v has a key above that of the value found before.
fn key_is_above(tree: &[u8], store: &[u8], after: Option<usize>, v: Slot) -> bool
    requires { Stands tree.now after }
    ensures { result ≡ order.above (slot_at tree.now) store.now after v }
{
    match after {
        Some(n) => {
            let w = get(tree, n);
            before(store, w, v)
        }
        None => has_key(store, v),
    }
}

// Whether v has a key below that of the best so far.
fn nearer(tree: &[u8], store: &[u8], best: Option<usize>, v: Slot) -> bool
    requires { Stands tree.now best }
    ensures { result ≡ order.nearer (slot_at tree.now) store.now best v }
{
    match best {
        Some(n) => {
            let w = get(tree, n);
            before(store, v, w)
        }
        None => true,
    }
}

// Whether value number n hangs under the parent with a key above.
fn follows(tree: &[u8], store: &[u8], parent: u16, after: Option<usize>, n: usize) -> bool
    requires { Holds tree.now (n + 1) × Stands tree.now after }
    ensures { result ≡ order.follows (slot_at tree.now) store.now parent after n }
{
    if hangs_under(tree, n, parent) {
        let v = get(tree, n);
        return key_is_above(tree, store, after, v);
    }
    false
}

// The nearer of the best so far and value number m.
fn better(
    tree: &[u8],
    store: &[u8],
    parent: u16,
    after: Option<usize>,
    best: Option<usize>,
    m: usize,
) -> Option<usize>
    requires { Holds tree.now (m + 1) × Stands tree.now after × Stands tree.now best }
    ensures { result ≡ order.better (slot_at tree.now) store.now parent after best m }
{
    if follows(tree, store, parent, after, m) {
        let v = get(tree, m);
        if nearer(tree, store, best, v) {
            return Some(m);
        }
        return best;
    }
    best
}

// One pass from the newest down: of values with one key the first met stays.
fn nearest(
    tree: &[u8],
    store: &[u8],
    low: usize,
    made: usize,
    parent: u16,
    after: Option<usize>,
) -> Option<usize>
    requires { Holds tree.now made × Clear tree.now parent 0 low × Stands tree.now after }
    ensures { Finds 0 made (order.nearest_of (slot_at tree.now) store.now parent after made)
        result }
{
    let mut best = None;
    let mut i = made;
    while low < i {
        i -= 1;
        best = better(tree, store, parent, after, best, i);
    }
    best
}

fn is_made(made: usize, after: Option<usize>) -> bool
    ensures { result ≡ order.is_made made after }
{
    match after {
        Some(n) => n < made,
        None => true,
    }
}

// The next key under the parent after that of the value found before, from nothing the first: of the keys above it
// the least, and of
// its values the newest. After a value that is not made, or whose key runs past the store, comes nothing.
fn next(
    tree: &[u8],
    store: &[u8],
    low: usize,
    made: usize,
    parent: u16,
    after: Option<usize>,
) -> Option<usize>
    requires { Holds tree.now made × Clear tree.now parent 0 low }
    ensures { Finds 0 made (order.next (slot_at tree.now) store.now made parent after) result }
{
    if is_made(made, after) {
        return nearest(tree, store, low, made, parent, after);
    }
    None
}

// The walk over all keys of a table, among so many values made.
pub fn keys_of(tree: &[u8], place: u16, end: usize) -> Keys
    requires { Holds tree.now end }
    ensures { Begins tree.now place end None result }
{
    keys_after(tree, place, end, None)
}

// The same after the key of a value. Where the table's values begin is looked up here, once for the whole walk.
pub fn keys_after(tree: &[u8], place: u16, end: usize, after: Option<usize>) -> Keys
    requires { Holds tree.now end }
    ensures { Begins tree.now place end after result }
{
    let low = skip_up(tree, end, place, 0);
    Keys {
        place,
        low,
        end,
        after,
    }
}

// A step of the walk.
pub fn next_key(tree: &[u8], store: &[u8], w: Keys) -> Option<Step<Keys>>
    requires { Ready tree.now w }
    ensures { KeyGives tree.now store.now w result }
{
    let value = next(tree, store, w.low, w.end, w.place, w.after)?;
    Some(Step {
        value,
        rest: Keys {
            after: Some(value),
            ..w
        },
    })
}

// A string's bytes by its data, where they lie in a store of so many bytes. No text that is read is longer than
// 65,535 bytes.
fn text(bits: u64, size: usize) -> Value
    ensures { result ≡ doors.text_of bits size }
{
    if STRING_MOST < bits {
        return Value::Absent;
    }
    let from = (bits % STRING_LENGTH_UNIT) as usize;
    let len = (bits / STRING_LENGTH_UNIT) as usize;
    if size < from + len {
        return Value::Absent;
    }
    Value::Text { from, len }
}

fn nonzero(n: u64) -> bool
    ensures { result ≡ doors.nonzero n }
{
    if n == 0 {
        return false;
    }
    true
}

// What a slot is, at its place.
fn classify(v: Slot, size: usize, place: u16) -> Value
    ensures { result ≡ doors.value_of v size place }
{
    let kind = v.kind;
    let data = v.data;
    match kind {
        KIND_STRING => text(data, size),
        KIND_INTEGER => Value::Number {
            negative: false,
            magnitude: data,
        },
        KIND_BOOLEAN => Value::Flag(nonzero(data)),
        KIND_ARRAY => Value::Array(place),
        KIND_TABLE => Value::Table(place),
        KIND_NEGATIVE => Value::Number {
            negative: nonzero(data),
            magnitude: data,
        },
        _ => Value::Absent,
    }
}

// What value number n is.
pub fn value_at(tree: &[u8], store: &[u8], n: usize) -> Value
    requires { Stood tree.now n }
    ensures { result ≡ doors.value_at tree.now store.now n }
{
    let v = get(tree, n);
    classify(v, store.len(), (n + 2) as u16)
}

// One past the newest of the values made that hangs under the parent.
fn newest(tree: &[u8], made: usize, parent: u16) -> usize
    requires { Holds tree.now made }
    ensures { result ≡ doors.newest tree.now made parent }
{
    let mut i = skip_down(tree, made, parent);
    while 0 < i {
        if hangs_under(tree, i - 1, parent) {
            return i;
        }
        i -= 1;
    }
    0
}

// Where the children of a place stand, so that its fields are looked for there alone.
pub fn fields_at(tree: &[u8], made: usize, place: u16) -> Fields
    requires { Holds tree.now made }
    ensures { result ≡ doors.fields_of tree.now made place }
{
    let to = newest(tree, made, place);
    Fields {
        place,
        from: child(tree, to, place, 0).unwrap_or(to),
        to,
    }
}

// Whether value number n is the parent's field of the key: most that are looked at have keys of other lengths, which
// is told first.
fn is_field(tree: &[u8], store: &[u8], n: usize, parent: u16, key: &[u8]) -> bool
    requires { Holds tree.now (n + 1) }
    ensures { result ≡ room.mine tree.now store.now n parent key.now }
{
    let at = VALUE_BYTES * n;
    let len = slices::get2(tree, at + 6) as usize;
    if len != key.len() {
        return false;
    }
    is_named_child(tree, store, n, parent, key)
}

// The newest of a table's fields with the key.
fn newest_field(tree: &[u8], store: &[u8], f: Fields, key: &[u8]) -> Option<usize>
    requires { Spread tree.now f }
    ensures { Finds f.from f.to (doors.among tree.now store.now f key.now)
        result }
{
    let mut i = f.to;
    while f.from < i {
        i -= 1;
        if is_field(tree, store, i, f.place, key) {
            return Some(i);
        }
    }
    None
}

// A table's field.
pub fn field(tree: &[u8], store: &[u8], f: Fields, key: &[u8]) -> Value
    requires { Spread tree.now f }
    ensures { result ≡ doors.field tree.now store.now f key.now }
{
    match newest_field(tree, store, f, key) {
        Some(n) => value_at(tree, store, n),
        None => Value::Absent,
    }
}

// Number i of the values made that hang under the parent, in the order of their numbers.
pub fn nth_item(tree: &[u8], made: usize, parent: u16, i: usize) -> Option<usize>
    requires { Holds tree.now made }
    ensures { Finds 0 made (doors.nth_of (doors.items tree.now made parent 0) i) result }
{
    let mut left = i;
    let mut from = 0;
    while from < made {
        if hangs_under(tree, from, parent) {
            if left == 0 {
                return Some(from);
            }
            left -= 1;
            from += 1;
        } else {
            from += 1;
        }
    }
    None
}
