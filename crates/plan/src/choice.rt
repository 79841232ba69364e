// What is selected beside the boot chain: 80 where no application has the key, 81 where a component has the
// application's name.

ghost use Rattle.std.specs.Prelude.{◌≡◌};
ghost use Rattle.tree.specs.Doors.{Stood};
ghost use Rattle.parse.specs.Entries.{Among};
ghost use Rattle.plan.specs.Choices as choices;
ghost use Rattle.plan.specs.Choices.{Chosen};
ghost use Rattle.tree.specs.Both.{on};

use meaning::{APPLICATIONS, FEATURES};
use parse::Refusal;
use parse::entry::List;
use tree::Rooms;

// Nothing more; a key that none has; an application by its entry number and the number of its value.
#[derive(Clone, Copy)]
pub enum Choice {
    BootChain,
    Undeclared,
    At { place: usize, value: usize },
}

// Whether value number n has the key.
fn has_key(tree: &[u8], store: &[u8], n: usize, key: &[u8]) -> bool
    requires { Stood tree.now n }
    ensures { result ≡ choices.keyed tree.now store.now key.now n }
{
    let k = tree::key_at(tree, n);
    slices::same_last_first(key, schema::stored(store, k.from, k.len))
}

// The first of a table's values in byte order of key that has the key.
fn declared(rooms: Rooms<'_>, list: List, key: &[u8]) -> Choice
    requires { Among rooms.tree.now rooms.made list }
    ensures { Chosen rooms.entry.tree.now
        (choices.declared rooms.entry.tree.now rooms.entry.store.now key.now list) result }
{
    let mut w = tree::keys_of(rooms.tree, list.place, list.end);
    let mut i = 0;
    while i <= APPLICATIONS {
        let Some(step) = tree::next_key(rooms.tree, rooms.store, w) else {
            return Choice::Undeclared;
        };
        if has_key(rooms.tree, rooms.store, step.value, key) {
            return Choice::At {
                place: i,
                value: step.value,
            };
        }
        w = step.rest;
        i += 1;
    }
    Choice::Undeclared
}

// Selection 0 is the boot chain; any other, the application of the key.
pub fn choose(rooms: Rooms<'_>, app: u32, key: &[u8]) -> Choice
    ensures { Chosen rooms.entry.tree.now
        (on choices.choice rooms.entry app key.now) result }
{
    if app == 0 {
        return Choice::BootChain;
    }
    let l = parse::view::application_list(rooms);
    declared(rooms, l, key)
}

// Whether the component that value number n is has the name.
fn named(rooms: Rooms<'_>, n: usize, name: &[u8]) -> bool
    requires { Stood rooms.tree.now n }
    ensures { result ≡ on choices.named rooms.entry name.now n }
{
    let t = parse::entry::entry_table(rooms, rooms.value_at(n));
    let f = t.fields;
    let own = parse::field::text_needed(rooms.tree, rooms.store, f, b"name");
    let place = own.text;
    slices::same_last_first(
        name,
        schema::stored(rooms.store, place.start(), place.length()),
    )
}

// Whether some component has the name.
fn is_component_name(rooms: Rooms<'_>, name: &[u8]) -> bool
    ensures { result ≡ on choices.taken rooms.entry name.now }
{
    let l = parse::view::component_list(rooms);
    let mut w = tree::items_of(l.place, l.end);
    while let Some(step) = tree::next_item(rooms.tree, w) {
        if named(rooms, step.value, name) {
            return true;
        }
        w = step.rest;
    }
    false
}

// 81: the application that value number n is, told at its entry.
fn check_name(rooms: Rooms<'_>, place: usize, n: usize) -> Refusal
    requires { Stood rooms.tree.now n }
    ensures { result ≡ on choices.name_fault rooms.entry place n }
{
    let r = parse::entry::application_at(rooms, n, FEATURES);
    let a = r.application;
    let name = a.name;
    let own = schema::stored(rooms.store, name.start(), name.length());
    if is_component_name(rooms, own) {
        return parse::refusal_at(parse::IN_APPLICATION, 81, place);
    }
    parse::refusal_at(0, 0, 0)
}

// 80, then 81.
pub fn check_selection(rooms: Rooms<'_>, app: u32, key: &[u8]) -> Refusal
    ensures { result ≡ on choices.refused rooms.entry app key.now }
{
    let c = choose(rooms, app, key);
    match c {
        Choice::BootChain => parse::refusal_at(0, 0, 0),
        Choice::Undeclared => parse::refusal_at(parse::IN_APPLICATION, 80, 0),
        Choice::At { place, value } => check_name(rooms, place, value),
    }
}
