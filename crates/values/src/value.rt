// Values. The value reader, the array reader and the reader of its items call each other on ever shorter text.

ghost use Rattle.std.specs.Prelude.{◌≡◌, ◌+◌, ◌<◌};
ghost use Rattle.values.specs.Out.{Ready, Filled, Places, Made};
ghost use Rattle.values.specs.Fill as fill;

use crate::{State, Stopped, splitting};
use meaning::Refused;
use tree::{
    KIND_ARRAY, KIND_BOOLEAN, KIND_INTEGER, KIND_NEGATIVE, KIND_STRING, STRING_LENGTH_UNIT, Slot,
};

// How many values there may be in all, and how many arrays may still be inside one another.
#[derive(Clone, Copy)]
pub struct Allowed {
    pub values: usize,
    pub arrays: usize,
}

// A value of a kind under a parent, without a key.
fn valued(parent: u16, kind: u8, data: u64) -> Slot
    ensures { result ≡ fill.valued parent kind «data» }
{
    Slot {
        kind,
        parent,
        key: 0,
        len: 0,
        data,
    }
}

// A string of n bytes from at on in the store.
fn string_slot(parent: u16, at: usize, n: usize) -> Slot
    requires { at + n < 65536 }
    ensures { result ≡ fill.string_slot parent at n }
{
    valued(
        parent,
        KIND_STRING,
        at as u64 + STRING_LENGTH_UNIT * (n as u64),
    )
}

fn sign_kind(neg: bool) -> u8
    ensures { result ≡ fill.sign_kind neg }
{
    if neg { KIND_NEGATIVE } else { KIND_INTEGER }
}

// Makes one value, or 16.
fn make(tree: &mut [u8], st: State, limit: usize, v: Slot) -> Result<State, Stopped>
    requires { Places limit tree.old st }
    ensures { Made limit tree.old tree.new st (fill.makes limit st.made v) result }
{
    if limit <= st.made {
        return Err(Stopped {
            refused: Refused::TooManyValues,
            at: st,
        });
    }
    tree::put(tree, st.made, v);
    Ok(State {
        made: st.made + 1,
        ..st
    })
}

// A string after its opening quote: 8, 9, then 10, then 16.
fn string(
    s: &[u8],
    store: &mut [u8],
    tree: &mut [u8],
    st: State,
    parent: u16,
    limit: usize,
) -> Result<State, Stopped>
    requires { Ready limit s.now store.old tree.old st }
    ensures { Filled limit s.now store.old tree.old store.new
        tree.new st (fill.string_out limit parent st.used st.made s.now) result }
{
    match scalar::string::put_string(s, store, st.used) {
        Ok(said) => {
            let next = State {
                used: st.used + said.written,
                ..st
            };
            if chars::blank(&s[said.used..]) {
                let v = string_slot(parent, st.used, said.written);
                return make(tree, next, limit, v);
            }
            Err(Stopped {
                refused: Refused::AfterString,
                at: next,
            })
        }
        Err(bad) => {
            let at = State {
                used: st.used + bad.written,
                ..st
            };
            Err(Stopped {
                refused: bad.refused,
                at,
            })
        }
    }
}

// `true`, `false` or an integer.
fn plain(s: &[u8], tree: &mut [u8], st: State, parent: u16, limit: usize) -> Result<State, Stopped>
    requires { Places limit tree.old st }
    ensures { Made limit tree.old tree.new st
        (fill.plain_out limit parent st.made s.now) result }
{
    if slices::same(s, b"true") {
        return make(tree, st, limit, valued(parent, KIND_BOOLEAN, 1));
    }
    if slices::same(s, b"false") {
        return make(tree, st, limit, valued(parent, KIND_BOOLEAN, 0));
    }
    match scalar::integer::read_int(s) {
        Ok(x) => make(tree, st, limit, valued(parent, sign_kind(x.neg), x.mag)),
        Err(refused) => Err(Stopped { refused, at: st }),
    }
}

// What follows a `[`: 11, 16, and the array's own value.
fn open_array(
    s: &[u8],
    tree: &mut [u8],
    st: State,
    parent: u16,
    limit: usize,
) -> Result<State, Stopped>
    requires { Places limit tree.old st }
    ensures { Made limit tree.old tree.new st
        (fill.open_out limit parent st.made s.now) result }
{
    match s {
        [.., b']'] => make(tree, st, limit, valued(parent, KIND_ARRAY, 0)),
        _ => Err(Stopped {
            refused: Refused::UnendedArray,
            at: st,
        }),
    }
}

// One value, white space around it passed over.
#[cycle(array_items_value)]
pub fn value(
    s: &[u8],
    store: &mut [u8],
    tree: &mut [u8],
    st: State,
    parent: u16,
    allowed: Allowed,
) -> Result<State, Stopped>
    requires { Ready allowed.values s.now store.old tree.old st }
    ensures { Filled allowed.values s.now store.old tree.old
        store.new tree.new st
        (fill.value_out allowed.values allowed.arrays parent st.used st.made s.now) result }
{
    let t = chars::trim(s);
    let from = t.from;
    let end = t.end;
    match &s[from..end] {
        [b'"', rest @ ..] => string(rest, store, tree, st, parent, allowed.values),
        [b'[', rest @ ..] => array(rest, store, tree, st, parent, allowed),
        all => plain(all, tree, st, parent, allowed.values),
    }
}

// What follows a `[`: 14 comes first, and the items hang under the array.
#[cycle(array_items_value)]
fn array(
    s: &[u8],
    store: &mut [u8],
    tree: &mut [u8],
    st: State,
    parent: u16,
    allowed: Allowed,
) -> Result<State, Stopped>
    requires { Ready allowed.values s.now store.old tree.old st }
    ensures { Filled allowed.values s.now store.old tree.old
        store.new tree.new st
        (fill.brackets_out allowed.values allowed.arrays parent st.used st.made s.now) result }
{
    if allowed.arrays == 0 {
        return Err(Stopped {
            refused: Refused::TooDeep,
            at: st,
        });
    }
    let next = open_array(s, tree, st, parent, allowed.values)?;
    let e = s.len() - 1;
    let under = (st.made + 2) as u16;
    let inside = Allowed {
        arrays: allowed.arrays - 1,
        ..allowed
    };
    items(&s[..e], store, tree, next, under, inside)
}

// The values between separating commas, one after the other; blank ones are passed over.
#[cycle(array_items_value)]
fn items(
    s: &[u8],
    store: &mut [u8],
    tree: &mut [u8],
    st: State,
    parent: u16,
    allowed: Allowed,
) -> Result<State, Stopped>
    requires { Ready allowed.values s.now store.old tree.old st }
    ensures { Filled allowed.values s.now store.old tree.old
        store.new tree.new st
        (fill.list_out allowed.values allowed.arrays parent st.used st.made s.now) result }
{
    let mut i = 0;
    let mut cur = st;
    while i < s.len() {
        let e = i + splitting::item(&s[i..]);
        if !chars::blank(&s[i..e]) {
            cur = value(&s[i..e], store, tree, cur, parent, allowed)?;
        }
        i = e + 1;
    }
    Ok(cur)
}
