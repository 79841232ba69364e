// From tree to records: the fields of a preset in 01's order.

#![tactic(auto)]

pub mod application;
pub mod component;
pub mod entry;
pub mod field;
pub mod file;
pub mod front;
pub mod view;

ghost use Rattle.std.specs.Prelude.{◌≡◌, ◌≤◌, length};
ghost use Rattle.parse.specs.Verdict as verdicts;
ghost use Rattle.parse.specs.Verdict.{Judging, Told};
ghost use Rattle.parse.specs.Refused as refused;
ghost use Rattle.parse.specs.Refusals as refusals;
ghost use Rattle.tree.specs.Both.{on};

use meaning::Limits;
use schema::{Text, Word};
use tree::Rooms;

// The sections of a preset that a refusal names.
pub const IN_BOARD: u32 = 1;

pub const IN_IMAGE: u32 = 2;

pub const IN_PARTITION: u32 = 3;

pub const IN_COMPONENT: u32 = 4;

pub const IN_APPLICATION: u32 = 5;

// A refusal's number, 0 for none, its section and its place.
#[derive(Clone, Copy)]
pub struct Refusal {
    pub number: u32,
    pub section: u32,
    pub place: usize,
}

pub fn refusal_at(section: u32, number: u32, place: usize) -> Refusal
    ensures { result ≡ refusals.refusal number section place }
{
    Refusal {
        number,
        section,
        place,
    }
}

// A fault outside an entry.
pub fn in_section(section: u32, number: u32) -> Refusal
    ensures { result ≡ refusals.in_section section number }
{
    Refusal {
        number,
        section,
        place: 0,
    }
}

// The first of two.
pub fn earlier(a: Refusal, b: Refusal) -> Refusal
    ensures { result ≡ refusals.earlier a b }
{
    if a.number == 0 {
        return b;
    }
    a
}

// "one that is not UTF-8 counts as `board`"
pub fn lent_name(name: &[u8]) -> Text
    ensures { result ≡ refused.lent_text name.now }
{
    if chars::valid(name) {
        return Text::Lent;
    }
    Text::Fixed(Word::Board)
}

fn front_refusal(rooms: Rooms<'_>, name: &[u8]) -> Refusal
    ensures { result ≡ on verdicts.front_fault rooms.entry name.now }
{
    let root = rooms.fields_at(tree::ROOT);
    let f = front::read_front(rooms, root, lent_name(name));
    f.fault
}

fn partition_refusal(rooms: Rooms<'_>, limits: Limits) -> Refusal
    requires { Judging rooms.tree.now rooms.made limits }
    ensures { result ≡ on verdicts.partition_fault rooms.entry limits }
{
    let l = view::partition_list(rooms);
    let r = entry::read_partitions(rooms, l, limits.partitions);
    earlier(in_section(IN_PARTITION, l.fault), r.fault)
}

fn component_refusal(rooms: Rooms<'_>, limits: Limits) -> Refusal
    requires { Judging rooms.tree.now rooms.made limits }
    ensures { result ≡ on verdicts.component_fault rooms.entry limits }
{
    let l = view::component_list(rooms);
    let r = entry::check_components(rooms, l, limits.components, limits.features);
    earlier(in_section(IN_COMPONENT, l.fault), r)
}

fn application_refusal(rooms: Rooms<'_>, limits: Limits) -> Refusal
    requires { Judging rooms.tree.now rooms.made limits }
    ensures { result ≡ on verdicts.application_fault rooms.entry limits }
{
    let l = view::application_list(rooms);
    let r = entry::check_applications(rooms, l, limits.applications, limits.features);
    earlier(in_section(IN_APPLICATION, l.fault), r)
}

// The first refusal of the records, in 01's order.
pub fn check_records(rooms: Rooms<'_>, name: &[u8], limits: Limits) -> Refusal
    requires { Judging rooms.tree.now rooms.made limits }
    ensures { result ≡ on verdicts.verdict rooms.entry name.now limits }
{
    let a = front_refusal(rooms, name);
    if a.number != 0 {
        return a;
    }
    let b = partition_refusal(rooms, limits);
    if b.number != 0 {
        return b;
    }
    let c = component_refusal(rooms, limits);
    if c.number != 0 {
        return c;
    }
    application_refusal(rooms, limits)
}

// The same within 01's limits: the judge of records.
pub fn judge_records(rooms: Rooms<'_>, name: &[u8]) -> Refusal
    ensures { Told (on (verdicts.reading name.now) rooms.entry) result }
{
    check_records(rooms, name, meaning::of01())
}
