// Planning, and views of a plan in the rooms that it leaves. Total on any rooms: where there is no such part,
// `found` or `kind` is 0 and all else too.

ghost use Rattle.std.specs.Prelude.{◌≡◌};
ghost use Rattle.host.specs.Presets.{Answered};
ghost use Rattle.host.specs.Records as records;
ghost use Rattle.host.specs.Plans as plans;
ghost use Rattle.host.specs.Plans.{planned};
ghost use Rattle.tree.specs.Both.{on};

use crate::documents::Outcome;
use crate::presets::exported;
use crate::records::{
    BootView, Bytes, FeatureList, HeadView, LoadView, PartitionView, RoleView, boot_of, bytes_of,
    head_of, list_of, load_of, partition_of, role_of,
};
use plan::component::{Build, Planned, Source};
use schema::{Component, Features, Partition, Text};
use tree::Rooms;

// kind 0: none; 1: a package; 2: a file.
#[repr(C)]
#[derive(Clone, Copy)]
pub struct SourceView {
    pub kind: u32,
    pub package: Bytes,
    pub bin: Bytes,
    pub features: FeatureList,
    pub file: Bytes,
}

#[repr(C)]
#[derive(Clone, Copy)]
pub struct BuildView {
    pub found: u32,
    pub package: Bytes,
    pub bin: Bytes,
    pub features: FeatureList,
}

#[repr(C)]
#[derive(Clone, Copy)]
pub struct PlanCounts {
    pub components: usize,
    pub builds: usize,
}

// Reads a preset into the two rooms, holds it to the rules and plans it: selection 0 is the boot chain, any other
// the application of the key. A refusal leaves both rooms all zero.
pub fn preset_plan(
    text: &[u8],
    name: &[u8],
    app: u32,
    key: &[u8],
    store: &mut [u8],
    tree: &mut [u8],
) -> Outcome
    ensures { Answered (planned text.now name.now app key.now
        store.old tree.old) text.now name.now store.old
        tree.old store.new tree.new result }
{
    exported(preset::planning::plan(text, name, app, key, store, tree))
}

// Component number i of a plan, where the rooms have one.
fn planned_at(
    tree: &[u8],
    store: &[u8],
    made: usize,
    app: u32,
    key: &[u8],
    i: usize,
) -> Option<Planned>
    ensures { result ≡ plans.component tree.now store.now made app key.now i }
{
    let Some(rooms) = Rooms::of(tree, store, made) else {
        return None;
    };
    let c = plan::choice::choose(rooms, app, key);
    plan::component::component(rooms, c, i)
}

// The record of a planned component.
fn spec_of(f: Option<Planned>) -> Option<Component>
    ensures { result ≡ plans.spec_of f }
{
    f.map(|p| p.spec)
}

// What component number i of a plan is; its `file` is absent where that is its source.
pub fn preset_plan_head(
    tree: &[u8],
    store: &[u8],
    made: usize,
    app: u32,
    key: &[u8],
    i: usize,
) -> HeadView
    ensures { result ≡ records.head_of
        (plans.spec_of (plans.component tree.now store.now made app key.now i)) }
{
    head_of(spec_of(planned_at(tree, store, made, app, key, i)))
}

// What it is built with and where it goes.
pub fn preset_plan_role(
    tree: &[u8],
    store: &[u8],
    made: usize,
    app: u32,
    key: &[u8],
    i: usize,
) -> RoleView
    ensures { result ≡ records.role_of
        (plans.spec_of (plans.component tree.now store.now made app key.now i)) }
{
    role_of(spec_of(planned_at(tree, store, made, app, key, i)))
}

// What it does at boot; its `pbp` is a source.
pub fn preset_plan_boot(
    tree: &[u8],
    store: &[u8],
    made: usize,
    app: u32,
    key: &[u8],
    i: usize,
) -> BootView
    ensures { result ≡ records.boot_of
        (plans.spec_of (plans.component tree.now store.now made app key.now i)) }
{
    boot_of(spec_of(planned_at(tree, store, made, app, key, i)))
}

// How it is loaded.
pub fn preset_plan_load(
    tree: &[u8],
    store: &[u8],
    made: usize,
    app: u32,
    key: &[u8],
    i: usize,
) -> LoadView
    ensures { result ≡ records.load_of
        (plans.spec_of (plans.component tree.now store.now made app key.now i)) }
{
    load_of(spec_of(planned_at(tree, store, made, app, key, i)))
}

fn source_of(s: Option<Source>) -> SourceView
    ensures { result ≡ plans.source_of s }
{
    match s {
        None => no_source(),
        Some(Source::Package(b)) => SourceView {
            kind: 1,
            package: bytes_of(b.package),
            bin: bytes_of(b.bin),
            features: list_of(b.features),
            file: bytes_of(Text::Absent),
        },
        Some(Source::File(t)) => SourceView {
            kind: 2,
            package: bytes_of(Text::Absent),
            bin: bytes_of(Text::Absent),
            features: list_of(Features::Absent),
            file: bytes_of(t),
        },
    }
}

fn no_source() -> SourceView
    ensures { result ≡ plans.no_source }
{
    SourceView {
        kind: 0,
        package: bytes_of(Text::Absent),
        bin: bytes_of(Text::Absent),
        features: list_of(Features::Absent),
        file: bytes_of(Text::Absent),
    }
}

// Its payload: a package or a file, as written.
pub fn preset_plan_source(
    tree: &[u8],
    store: &[u8],
    made: usize,
    app: u32,
    key: &[u8],
    i: usize,
) -> SourceView
    ensures { result ≡ plans.payload
        (plans.component tree.now store.now made app key.now i) }
{
    source_of(planned_at(tree, store, made, app, key, i).map(|p| p.source))
}

// Its PBP.
pub fn preset_plan_pbp(
    tree: &[u8],
    store: &[u8],
    made: usize,
    app: u32,
    key: &[u8],
    i: usize,
) -> SourceView
    ensures { result ≡ plans.pbp
        (plans.component tree.now store.now made app key.now i) }
{
    source_of(planned_at(tree, store, made, app, key, i).and_then(|p| p.pbp_source))
}

// The partition that a planned component's reference finds.
fn target_of(rooms: Rooms<'_>, f: Option<Planned>) -> Option<Partition>
    ensures { result ≡ on plans.target_of rooms.entry f }
{
    let p = f?;
    plan::target::partition(rooms, p.spec.role.partition)
}

pub fn preset_plan_partition(
    tree: &[u8],
    store: &[u8],
    made: usize,
    app: u32,
    key: &[u8],
    i: usize,
) -> PartitionView
    ensures { result ≡ plans.target_shown tree.now store.now made
        (plans.component tree.now store.now made app key.now i) }
{
    let f = planned_at(tree, store, made, app, key, i);
    let Some(rooms) = Rooms::of(tree, store, made) else {
        return partition_of(None);
    };
    partition_of(target_of(rooms, f))
}

fn build_of(f: Option<Build>) -> BuildView
    ensures { result ≡ plans.build_of f }
{
    match f {
        None => BuildView {
            found: 0,
            package: bytes_of(Text::Absent),
            bin: bytes_of(Text::Absent),
            features: list_of(Features::Absent),
        },
        Some(b) => BuildView {
            found: 1,
            package: bytes_of(b.package),
            bin: bytes_of(b.bin),
            features: list_of(b.features),
        },
    }
}

// Build number i of a plan, in first use.
pub fn preset_plan_build(
    tree: &[u8],
    store: &[u8],
    made: usize,
    app: u32,
    key: &[u8],
    i: usize,
) -> BuildView
    ensures { result ≡ plans.build_shown tree.now store.now made app key.now i }
{
    let Some(rooms) = Rooms::of(tree, store, made) else {
        return build_of(None);
    };
    let c = plan::choice::choose(rooms, app, key);
    build_of(plan::builds::build(rooms, c, i))
}

// How many components and builds a plan has.
pub fn preset_plan_counts(
    tree: &[u8],
    store: &[u8],
    made: usize,
    app: u32,
    key: &[u8],
) -> PlanCounts
    ensures { result ≡ plans.counts_shown tree.now store.now made app key.now }
{
    let Some(rooms) = Rooms::of(tree, store, made) else {
        return PlanCounts {
            components: 0,
            builds: 0,
        };
    };
    let c = plan::choice::choose(rooms, app, key);
    let b = plan::builds::builds(rooms, c);
    PlanCounts {
        components: plan::component::count(rooms, c),
        builds: b.count,
    }
}

// The stem of a plan's files; the lent name is the board's where the text has none.
pub fn preset_plan_stem(
    tree: &[u8],
    store: &[u8],
    made: usize,
    name: &[u8],
    app: u32,
    key: &[u8],
) -> Bytes
    ensures { result ≡ plans.stem_shown tree.now store.now made name.now app
        key.now }
{
    let Some(rooms) = Rooms::of(tree, store, made) else {
        return bytes_of(Text::Absent);
    };
    let c = plan::choice::choose(rooms, app, key);
    bytes_of(plan::stem::stem(rooms, name, c))
}
