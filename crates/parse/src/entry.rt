// The entries of a preset's lists: where a list stands, an entry by the number of its value, and all entries in
// their order.

ghost use Rattle.std.specs.Prelude.{◌≡◌, ◌≤◌};
ghost use Rattle.tree.specs.Room.{Holds, Finds};
ghost use Rattle.tree.specs.Doors.{Stood, Spread};
ghost use Rattle.parse.specs.Entries as entries;
ghost use Rattle.parse.specs.Entries.{Among, Few, NoPartitions, Partitioned, Keyed};
ghost use Rattle.parse.specs.Refusals as refusals;
ghost use Rattle.tree.specs.Both.{on};

use crate::Refusal;
use crate::application::ApplicationRead;
use crate::component::ComponentRead;
use crate::field::first_fault;
use features::{TOO_MANY, WRONG_KIND};
use schema::{Partition, Text};
use tree::{Fields, Rooms, Value};

// The refusal of an entry that is no table.
const NO_TABLE: u32 = 23;

// A list's place, and how many values stand before the end of its items: none where it is absent.
#[derive(Clone, Copy)]
pub struct List {
    pub fault: u32,
    pub place: u16,
    pub end: usize,
}

// The number of an entry's value, and its place in the list.
#[derive(Clone, Copy)]
struct Entry {
    value: usize,
    place: usize,
}

#[derive(Clone, Copy)]
pub struct PartitionRead {
    pub fault: u32,
    pub partition: Partition,
}

// All partitions, or the refusal of the first wrong one.
#[derive(Clone, Copy)]
pub struct Partitions {
    pub fault: Refusal,
    pub count: usize,
    pub items: [Partition; meaning::PARTITIONS],
}

fn no_list(fault: u32) -> List
    ensures { result ≡ entries.no_list fault }
{
    List {
        fault,
        place: 0,
        end: 0,
    }
}

// The array that a value is.
fn list_of(v: Value, made: usize) -> List
    ensures { result ≡ entries.list_of made v }
{
    match v {
        Value::Absent => no_list(0),
        Value::Array(place) => List {
            fault: 0,
            place,
            end: made,
        },
        _ => no_list(WRONG_KIND),
    }
}

// The list under one key; under the other only where the first is absent.
pub fn list_at(
    tree: &[u8],
    store: &[u8],
    made: usize,
    root: Fields,
    one: &[u8],
    many: &[u8],
) -> List
    requires { Spread tree.now root }
    ensures { result ≡ entries.list_at tree.now store.now made root one.now
        many.now }
{
    let v = tree::field(tree, store, root, one);
    match v {
        Value::Absent => list_of(tree::field(tree, store, root, many), made),
        _ => list_of(v, made),
    }
}

// The table that an entry is, or a refusal.
pub fn entry_table(rooms: Rooms<'_>, v: Value) -> crate::front::TableRead
    ensures { result ≡ entries.entry_table rooms.entry.tree.now rooms.entry.made v }
{
    match v {
        Value::Table(place) => crate::front::TableRead {
            fault: 0,
            fields: rooms.fields_at(place),
        },
        _ => crate::front::no_table(NO_TABLE),
    }
}

// `name`, `offset`, `size`, `locked`.
fn read_partition(tree: &[u8], store: &[u8], f: Fields) -> PartitionRead
    requires { Spread tree.now f }
    ensures { result ≡ entries.partition_read tree.now store.now f }
{
    let n = crate::field::text_needed(tree, store, f, b"name");
    let o = crate::field::number_needed(tree, store, f, b"offset");
    let s = crate::field::number_needed(tree, store, f, b"size");
    let l = crate::field::flag(tree, store, f, b"locked");
    let name = n.text;
    PartitionRead {
        fault: first_fault(n.fault, first_fault(o.fault, first_fault(s.fault, l.fault))),
        partition: Partition {
            from: name.start(),
            len: name.length(),
            offset: o.number.unwrap_or(0),
            size: s.number.unwrap_or(0),
            locked: l.flag,
        },
    }
}

// The partition that value number n is.
pub fn partition_at(rooms: Rooms<'_>, n: usize) -> PartitionRead
    requires { Stood rooms.tree.now n }
    ensures { result ≡ on entries.partition_at rooms.entry n }
{
    let t = entry_table(rooms, rooms.value_at(n));
    let f = t.fields;
    let p = read_partition(rooms.tree, rooms.store, f);
    let partition = p.partition;
    PartitionRead {
        fault: first_fault(t.fault, p.fault),
        partition,
    }
}

pub fn component_at(rooms: Rooms<'_>, n: usize, limit: usize) -> ComponentRead
    requires { Stood rooms.tree.now n }
    ensures { result ≡ on entries.component_at rooms.entry n limit }
{
    let t = entry_table(rooms, rooms.value_at(n));
    let f = t.fields;
    let c = crate::component::read_component(rooms, f, limit);
    let component = c.component;
    ComponentRead {
        fault: first_fault(t.fault, c.fault),
        component,
    }
}

pub fn application_at(rooms: Rooms<'_>, n: usize, limit: usize) -> ApplicationRead
    requires { Stood rooms.tree.now n }
    ensures { result ≡ on entries.application_at rooms.entry n limit }
{
    let t = entry_table(rooms, rooms.value_at(n));
    let f = t.fields;
    let k = tree::key_at(rooms.tree, n);
    let key = Text::Stored {
        from: k.from,
        len: k.len,
    };
    let a = crate::application::read_application(rooms, f, key, limit);
    let application = a.application;
    ApplicationRead {
        fault: first_fault(t.fault, a.fault),
        application,
    }
}

fn no_partitions(number: u32, place: usize) -> Partitions
    ensures { NoPartitions (entries.refusal_at 3 number place) result }
{
    let blank = Partition {
        from: 0,
        len: 0,
        offset: 0,
        size: 0,
        locked: false,
    };
    Partitions {
        fault: crate::refusal_at(crate::IN_PARTITION, number, place),
        count: 0,
        items: [blank; meaning::PARTITIONS],
    }
}

// All partitions of a list that has no more than the limit.
fn each_partition(rooms: Rooms<'_>, place: u16, end: usize) -> Partitions
    requires { Few rooms.tree.now rooms.made place end }
    ensures { Partitioned (on entries.each_partition rooms.entry place end) result }
{
    let blank = Partition {
        from: 0,
        len: 0,
        offset: 0,
        size: 0,
        locked: false,
    };
    let mut items = [blank; meaning::PARTITIONS];
    let mut i = 0;
    let mut w = tree::items_of(place, end);
    while let Some(step) = tree::next_item(rooms.tree, w) {
        let r = partition_at(rooms, step.value);
        if r.fault != 0 {
            return no_partitions(r.fault, i);
        }
        items[i] = r.partition;
        i += 1;
        w = step.rest;
    }
    Partitions {
        fault: crate::refusal_at(0, 0, 0),
        count: i,
        items,
    }
}

// A list's length is judged before its entries.
pub fn read_partitions(rooms: Rooms<'_>, list: List, limit: usize) -> Partitions
    requires { Among rooms.tree.now rooms.made list × (limit ≤ 32) }
    ensures { Partitioned (on entries.partitions rooms.entry list limit) result }
{
    let n = tree::count_items(rooms.tree, list.end, list.place);
    if limit < n {
        return no_partitions(TOO_MANY, limit);
    }
    each_partition(rooms, list.place, list.end)
}

// The first refusal among all components of a list.
fn each_component(rooms: Rooms<'_>, place: u16, end: usize, limit: usize) -> Refusal
    requires { end ≤ rooms.made }
    ensures { result ≡ on entries.each_component rooms.entry place end limit }
{
    let mut i = 0;
    let mut w = tree::items_of(place, end);
    while let Some(step) = tree::next_item(rooms.tree, w) {
        let r = component_at(rooms, step.value, limit);
        if r.fault != 0 {
            return crate::refusal_at(crate::IN_COMPONENT, r.fault, i);
        }
        i += 1;
        w = step.rest;
    }
    crate::refusal_at(0, 0, 0)
}

pub fn check_components(rooms: Rooms<'_>, list: List, most: usize, limit: usize) -> Refusal
    requires { Among rooms.tree.now rooms.made list }
    ensures { result ≡ on entries.components rooms.entry list most limit }
{
    let n = tree::count_items(rooms.tree, list.end, list.place);
    if most < n {
        return crate::refusal_at(crate::IN_COMPONENT, TOO_MANY, most);
    }
    each_component(rooms, list.place, list.end, limit)
}

// The table that `apps` is, as a list of its keys in byte order.
fn keys_of(v: Value, made: usize) -> List
    ensures { result ≡ entries.keys_of made v }
{
    match v {
        Value::Absent => no_list(0),
        Value::Table(place) => List {
            fault: 0,
            place,
            end: made,
        },
        _ => no_list(WRONG_KIND),
    }
}

pub fn keys_at(tree: &[u8], store: &[u8], made: usize, root: Fields) -> List
    requires { Spread tree.now root }
    ensures { result ≡ entries.keys_at tree.now store.now made root }
{
    keys_of(tree::field(tree, store, root, b"apps"), made)
}

// How many keys a table has, as far as the limit and one more.
pub fn count_keys(tree: &[u8], store: &[u8], list: List, most: usize) -> usize
    requires { Holds tree.now list.end × (most ≤ 65000) }
    ensures { Keyed tree.now store.now list most result }
{
    let mut w = tree::keys_of(tree, list.place, list.end);
    let mut n: usize = 0;
    while n <= most {
        let Some(step) = tree::next_key(tree, store, w) else {
            return n;
        };
        w = step.rest;
        n += 1;
    }
    n
}

// Value number i of a table in byte order of key.
pub fn nth_key(tree: &[u8], store: &[u8], list: List, i: usize) -> Option<usize>
    requires { Holds tree.now list.end }
    ensures { Finds 0 list.end (entries.nth_key tree.now store.now list i) result }
{
    let mut w = tree::keys_of(tree, list.place, list.end);
    let mut left = i;
    while let Some(step) = tree::next_key(tree, store, w) {
        if left == 0 {
            return Some(step.value);
        }
        w = step.rest;
        left -= 1;
    }
    None
}

// The refusal so far; where there is none, that of the application that an entry is.
fn earlier_application(rooms: Rooms<'_>, e: Entry, limit: usize, fault: Refusal) -> Refusal
    requires { Stood rooms.tree.now e.value }
    ensures { result ≡ on entries.earlier_fault rooms.entry limit e fault }
{
    if fault.number != 0 {
        return fault;
    }
    let a = application_at(rooms, e.value, limit);
    if a.fault != 0 {
        return crate::refusal_at(crate::IN_APPLICATION, a.fault, e.place);
    }
    crate::refusal_at(0, 0, 0)
}

// The list's length is told before its entries, so the first refusal waits for the last key; a second walk would
// cost as much again.
pub fn check_applications(rooms: Rooms<'_>, list: List, most: usize, limit: usize) -> Refusal
    requires { Among rooms.tree.now rooms.made list × (most ≤ 65000) }
    ensures { result ≡ on entries.applications rooms.entry list most limit }
{
    let mut w = tree::keys_of(rooms.tree, list.place, list.end);
    let mut fault = crate::refusal_at(0, 0, 0);
    let mut i = 0;
    while i <= most {
        let Some(step) = tree::next_key(rooms.tree, rooms.store, w) else {
            return fault;
        };
        let e = Entry {
            value: step.value,
            place: i,
        };
        fault = earlier_application(rooms, e, limit, fault);
        w = step.rest;
        i += 1;
    }
    crate::refusal_at(crate::IN_APPLICATION, TOO_MANY, most)
}
