// An application's fields in 01's order.

ghost use Rattle.std.specs.Prelude.{◌≡◌};
ghost use Rattle.tree.specs.Doors.{Spread};
ghost use Rattle.parse.specs.Application as apps;
ghost use Rattle.tree.specs.Both.{on};

use crate::field::{first_fault, number, text};
use schema::{Application, Features, Text, Word};
use tree::{Fields, Rooms};

#[derive(Clone, Copy)]
pub struct Names {
    pub fault: u32,
    pub name: Text,
    pub partition: Text,
    pub filename: Text,
    pub attr: Text,
}

#[derive(Clone, Copy)]
pub struct Loading {
    pub fault: u32,
    pub features: Features,
    pub load_address: Option<u32>,
    pub entry_offset: Option<u32>,
}

#[derive(Clone, Copy)]
pub struct ApplicationRead {
    pub fault: u32,
    pub application: Application,
}

// `name`, `partition`, `filename`, `attr`.
fn read_names(tree: &[u8], store: &[u8], f: Fields, key: Text) -> Names
    requires { Spread tree.now f }
    ensures { result ≡ apps.names tree.now store.now f key }
{
    let n = text(tree, store, f, b"name");
    let p = text(tree, store, f, b"partition");
    let t = text(tree, store, f, b"filename");
    let a = text(tree, store, f, b"attr");
    let name = n.text;
    let partition = p.text;
    let filename = t.text;
    let attr = a.text;
    let called = name.or(key);
    Names {
        fault: first_fault(n.fault, first_fault(p.fault, first_fault(t.fault, a.fault))),
        name: called,
        partition: partition.or(Text::Fixed(Word::App)),
        filename: filename.or(called.aic()),
        attr: attr.or(Text::Fixed(Word::Optional)),
    }
}

// `features`, `load_address`, `entry_offset`.
fn read_loading(rooms: Rooms<'_>, f: Fields, limit: usize) -> Loading
    requires { Spread rooms.tree.now f }
    ensures { result ≡ on apps.loading rooms.entry f limit }
{
    let l = features::read(rooms, rooms.field(f, b"features"), limit);
    let a = number(rooms.tree, rooms.store, f, b"load_address");
    let o = number(rooms.tree, rooms.store, f, b"entry_offset");
    let features = l.features;
    let load_address = a.number;
    let entry_offset = o.number;
    Loading {
        fault: first_fault(l.fault, first_fault(a.fault, o.fault)),
        features,
        load_address,
        entry_offset,
    }
}

pub fn read_application(rooms: Rooms<'_>, f: Fields, key: Text, limit: usize) -> ApplicationRead
    requires { Spread rooms.tree.now f }
    ensures { result ≡ on apps.application_read rooms.entry f key limit }
{
    let n = read_names(rooms.tree, rooms.store, f, key);
    let l = read_loading(rooms, f, limit);
    let name = n.name;
    let partition = n.partition;
    let filename = n.filename;
    let attr = n.attr;
    let features = l.features;
    let load_address = l.load_address;
    let entry_offset = l.entry_offset;
    ApplicationRead {
        fault: first_fault(n.fault, l.fault),
        application: Application {
            package: key,
            name,
            partition,
            filename,
            attr,
            features,
            load_address,
            entry_offset,
        },
    }
}
