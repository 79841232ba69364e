// A planned component: its record, its payload and its PBP; and all of them in composition order.

ghost use Rattle.std.specs.Prelude.{◌≡◌};
ghost use Rattle.tree.specs.Doors.{Stood};
ghost use Rattle.plan.specs.Choices.{Standing};
ghost use Rattle.plan.specs.Planned as plans;
ghost use Rattle.tree.specs.Both.{on};

use crate::choice::Choice;
use meaning::FEATURES;
use schema::{Application, Boot, Component, Features, Head, Kind, Load, Role, Text};
use tree::Rooms;

// A package to build, its binary, and the features of one use.
#[derive(Clone, Copy)]
pub struct Build {
    pub package: Text,
    pub bin: Text,
    pub features: Features,
}

// A package or a file, as it is written.
#[derive(Clone, Copy)]
pub enum Source {
    Package(Build),
    File(Text),
}

// A component's record, but without `pbp`, and without `file` where that is the source.
#[derive(Clone, Copy)]
pub struct Planned {
    pub spec: Component,
    pub source: Source,
    pub pbp_source: Option<Source>,
}

// A package with the bin of one use: the package itself where none is given.
fn build_of(package: Text, bin: Text, features: Features) -> Build
    ensures { result ≡ plans.built «package» bin features }
{
    Build {
        package,
        bin: bin.or(package),
        features,
    }
}

// The package, else the file.
fn payload(h: Head, features: Features) -> Source
    ensures { result ≡ plans.payload h features }
{
    let package = h.package;
    let bin = h.bin;
    let file = h.file;
    if package.is_given() {
        return Source::Package(build_of(package, bin, features));
    }
    Source::File(file.or(Text::Stored { from: 0, len: 0 }))
}

// The file of the PBP, else its package, whose bin is the package itself.
fn pbp_payload(b: Boot, features: Features) -> Option<Source>
    ensures { result ≡ plans.pbp_payload b features }
{
    let pbp = b.pbp;
    let package = b.pbp_package;
    if pbp.is_given() {
        return Some(Source::File(pbp));
    }
    if package.is_given() {
        return Some(Source::Package(build_of(package, Text::Absent, features)));
    }
    None
}

// A file that is the source is taken out of the record.
fn head_left(h: Head) -> Head
    ensures { result ≡ plans.head_left h }
{
    let kind = h.kind;
    let name = h.name;
    let package = h.package;
    let bin = h.bin;
    let file = h.file;
    let filename = h.filename;
    if package.is_given() {
        return h;
    }
    Head {
        kind,
        name,
        package,
        bin,
        file: Text::Absent,
        filename,
    }
}

fn boot_left(b: Boot) -> Boot
    ensures { result ≡ plans.boot_left b }
{
    let ram = b.ram;
    let package = b.pbp_package;
    let private = b.private;
    Boot {
        updater: b.updater,
        ram,
        pbp: Text::Absent,
        pbp_package: package,
        private,
    }
}

fn plan_of(c: Component) -> Planned
    ensures { result ≡ plans.planned c }
{
    let head = c.head;
    let role = c.role;
    let boot = c.boot;
    let load = c.load;
    let features = role.features;
    let pbp_features = role.pbp_features;
    Planned {
        spec: Component {
            head: head_left(head),
            role,
            boot: boot_left(boot),
            load,
        },
        source: payload(head, features),
        pbp_source: pbp_payload(boot, pbp_features),
    }
}

// An application as a component.
pub fn component_of(a: Application) -> Component
    ensures { result ≡ plans.component_of a }
{
    let name = a.name;
    let package = a.package;
    let filename = a.filename;
    let features = a.features;
    let partition = a.partition;
    let attr = a.attr;
    let load_address = a.load_address;
    let entry_offset = a.entry_offset;
    Component {
        head: Head {
            kind: Kind::App,
            name,
            package,
            bin: Text::Absent,
            file: Text::Absent,
            filename,
        },
        role: Role {
            features,
            pbp_features: Features::Absent,
            partition,
            attr,
            target_attr: Text::Absent,
            target_filename: Text::Absent,
        },
        boot: no_boot(),
        load: load_of(load_address, entry_offset),
    }
}

fn no_boot() -> Boot
    ensures { result ≡ plans.no_boot }
{
    Boot {
        updater: false,
        ram: None,
        pbp: Text::Absent,
        pbp_package: Text::Absent,
        private: Text::Absent,
    }
}

fn load_of(load_address: Option<u32>, entry_offset: Option<u32>) -> Load
    ensures { result ≡ plans.loads load_address entry_offset }
{
    Load {
        load_address,
        entry_point: None,
        entry_offset,
        header_version: None,
        with_ext: false,
        ext_reserve: 0,
    }
}

// Whether the component that value number n is has a partition.
pub fn placed(rooms: Rooms<'_>, n: usize) -> bool
    requires { Stood rooms.tree.now n }
    ensures { result ≡ on plans.placed rooms.entry n }
{
    let t = parse::entry::entry_table(rooms, rooms.value_at(n));
    let f = t.fields;
    let own = parse::field::text(rooms.tree, rooms.store, f, b"partition");
    let place = own.text;
    schema::stored(rooms.store, place.start(), place.length()).len() != 0
}

// How many components stand before the first with a partition.
fn before_first_placed(rooms: Rooms<'_>) -> usize
    ensures { result ≡ on plans.ahead rooms.entry }
{
    let l = parse::view::component_list(rooms);
    let mut i = 0;
    let mut w = tree::items_of(l.place, l.end);
    while let Some(step) = tree::next_item(rooms.tree, w) {
        if placed(rooms, step.value) {
            return i;
        }
        i += 1;
        w = step.rest;
    }
    i
}

// Component number i of the preset, planned.
fn planned_component(rooms: Rooms<'_>, i: usize) -> Option<Planned>
    ensures { result ≡ on plans.own rooms.entry i }
{
    parse::view::component(rooms, i, FEATURES).map(plan_of)
}

// The application that value number n is, planned.
fn planned_application(rooms: Rooms<'_>, n: usize) -> Planned
    requires { Stood rooms.tree.now n }
    ensures { result ≡ on plans.planned_application rooms.entry n }
{
    let r = parse::entry::application_at(rooms, n, FEATURES);
    plan_of(component_of(r.application))
}

// "The application goes directly before the first component with a partition."
fn composed(rooms: Rooms<'_>, n: usize, i: usize) -> Option<Planned>
    requires { Stood rooms.tree.now n }
    ensures { result ≡ on plans.composed rooms.entry n i }
{
    let at = before_first_placed(rooms);
    if i < at {
        return planned_component(rooms, i);
    }
    if i == at {
        return Some(planned_application(rooms, n));
    }
    planned_component(rooms, i - 1)
}

// How many components the plan has.
pub fn count(rooms: Rooms<'_>, c: Choice) -> usize
    ensures { result ≡ on plans.count rooms.entry c }
{
    let l = parse::view::component_list(rooms);
    let n = tree::count_items(rooms.tree, l.end, l.place);
    match c {
        Choice::BootChain => n,
        Choice::Undeclared => 0,
        Choice::At { place: _, value: _ } => n + 1,
    }
}

// Component number i of the plan.
pub fn component(rooms: Rooms<'_>, c: Choice, i: usize) -> Option<Planned>
    requires { Standing rooms.tree.now c }
    ensures { result ≡ on plans.component rooms.entry c i }
{
    match c {
        Choice::BootChain => planned_component(rooms, i),
        Choice::Undeclared => None,
        Choice::At { place: _, value } => composed(rooms, value, i),
    }
}
