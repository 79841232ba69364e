// The stem of the files that a plan makes.

ghost use Rattle.std.specs.Prelude.{◌≡◌};
ghost use Rattle.tree.specs.Doors.{Stood};
ghost use Rattle.tree.specs.Room.{Finds};
ghost use Rattle.plan.specs.Choices.{Standing};
ghost use Rattle.plan.specs.Stems as stems;
ghost use Rattle.tree.specs.Both.{on};

use crate::choice::Choice;
use schema::{Kind, Text};
use tree::Rooms;

// Where the last dot of a file's name stands; 0 where it has none, or only a first.
fn last_dot(s: &[u8]) -> usize
    ensures { stems.Dotted s.now result }
{
    for i in (0..s.len()).rev() {
        if s[i] == b'.' {
            return i;
        }
    }
    0
}

// "Its stem stops before the last dot, unless that dot is first": how many bytes of a file's name.
fn stem_length(s: &[u8]) -> usize
    ensures { result ≡ stems.stopped s.now }
{
    let n = last_dot(s);
    if n == 0 { s.len() } else { n }
}

// The stem of a file in the store.
fn stem_of(store: &[u8], file: Text) -> Text
    ensures { result ≡ stems.stem_of store.now file }
{
    match parse::component::name_in(store, file) {
        Text::Stored { from, len } => Text::Stored {
            from,
            len: stem_length(schema::stored(store, from, len)),
        },
        _ => Text::Absent,
    }
}

// Whether the component that value number n is an `app` with a partition.
fn leads(rooms: Rooms<'_>, n: usize) -> bool
    requires { Stood rooms.tree.now n }
    ensures { result ≡ on stems.leads rooms.entry n }
{
    if !crate::component::placed(rooms, n) {
        return false;
    }
    let t = parse::entry::entry_table(rooms, rooms.value_at(n));
    let k = parse::field::kind(rooms.tree, rooms.store, t.fields);
    k.kind == Kind::App
}

// The first of them.
fn leader(rooms: Rooms<'_>) -> Option<usize>
    ensures { Finds 0 rooms.entry.made (on stems.leader rooms.entry) result }
{
    let l = parse::view::component_list(rooms);
    let mut w = tree::items_of(l.place, l.end);
    while let Some(step) = tree::next_item(rooms.tree, w) {
        if leads(rooms, step.value) {
            return Some(step.value);
        }
        w = step.rest;
    }
    None
}

// "the package, else `bin`, else file stem" of the first `app` component with a partition, if there is one.
fn leading(rooms: Rooms<'_>) -> Text
    ensures { result ≡ on stems.leading rooms.entry }
{
    let Some(n) = leader(rooms) else {
        return Text::Absent;
    };
    let t = parse::entry::entry_table(rooms, rooms.value_at(n));
    let s = parse::component::read_sources(rooms.tree, rooms.store, t.fields);
    s.package.or(s.bin.or(stem_of(rooms.store, s.file)))
}

// "else the board name"
fn boot_stem(rooms: Rooms<'_>, name: &[u8]) -> Text
    ensures { result ≡ on stems.boot_stem rooms.entry name.now }
{
    let t = leading(rooms);
    if t.is_given() {
        return t;
    }
    let root = rooms.fields_at(tree::ROOT);
    let f = parse::front::read_front(rooms, root, parse::lent_name(name));
    f.board.name
}

// The key of the application that value number n is.
pub fn key_of(tree: &[u8], n: usize) -> Text
    requires { Stood tree.now n }
    ensures { result ≡ stems.key_of tree.now n }
{
    let k = tree::key_at(tree, n);
    Text::Stored {
        from: k.from,
        len: k.len,
    }
}

// "The stem is the selected package; for the boot chain" that of its first `app` component with a partition.
pub fn stem(rooms: Rooms<'_>, name: &[u8], c: Choice) -> Text
    requires { Standing rooms.tree.now c }
    ensures { result ≡ on stems.stem rooms.entry name.now c }
{
    match c {
        Choice::BootChain => boot_stem(rooms, name),
        Choice::Undeclared => Text::Absent,
        Choice::At { place: _, value } => key_of(rooms.tree, value),
    }
}
