// What a line says of an entry, read from the rooms without the rest of its record.

ghost use Rattle.std.specs.Prelude.{◌≡◌};
ghost use Rattle.tree.specs.Doors.{Stood};
ghost use Rattle.parse.specs.Entries.{component_at, application_at};
ghost use Rattle.report.specs.Shown as shown;
ghost use Rattle.tree.specs.Both.{on};

use schema::{Kind, Text, Word};
use tree::Rooms;

#[derive(Clone, Copy)]
pub struct ComponentBrief {
    pub kind: Kind,
    pub name: Text,
    pub partition: Text,
}

#[derive(Clone, Copy)]
pub struct ApplicationBrief {
    pub package: Text,
    pub name: Text,
    pub partition: Text,
}

// Of the component that value number n is.
pub fn component(rooms: Rooms<'_>, n: usize) -> ComponentBrief
    requires { Stood rooms.tree.now n }
    ensures { result ≡ shown.component_brief
        (on component_at rooms.entry n 32).component }
{
    let t = parse::entry::entry_table(rooms, rooms.value_at(n));
    let k = parse::field::kind(rooms.tree, rooms.store, t.fields);
    let o = parse::field::text(rooms.tree, rooms.store, t.fields, b"name");
    let p = parse::field::text(rooms.tree, rooms.store, t.fields, b"partition");
    ComponentBrief {
        kind: k.kind,
        name: o.text,
        partition: p.or(Text::Stored { from: 0, len: 0 }),
    }
}

// Of the application that value number n is.
pub fn application(rooms: Rooms<'_>, n: usize) -> ApplicationBrief
    requires { Stood rooms.tree.now n }
    ensures { result ≡ shown.application_brief
        (on application_at rooms.entry n 32).application }
{
    let t = parse::entry::entry_table(rooms, rooms.value_at(n));
    let key = plan::stem::key_of(rooms.tree, n);
    let o = parse::field::text(rooms.tree, rooms.store, t.fields, b"name");
    let p = parse::field::text(rooms.tree, rooms.store, t.fields, b"partition");
    ApplicationBrief {
        package: key,
        name: o.or(key),
        partition: p.or(Text::Fixed(Word::App)),
    }
}
