// Planning, and views of a plan in the rooms that it leaves. Total on any rooms: where there is no such part,
// `found` or `kind` is 0 and all else too.

ghost use Rattle.std.specs.Prelude.{◌≡◌};
ghost use Rattle.host.specs.Presets.{Answered};
ghost use Rattle.host.specs.Records as records;
ghost use Rattle.host.specs.Plans as plans;
ghost use Rattle.host.specs.Plans.{planned};

use host::{
    BootView, BuildView, Bytes, HeadView, LoadView, Outcome, PartitionView, PlanCounts, RoleView,
    SourceView,
};

// Reads a preset into the two rooms, holds it to the rules and plans it: selection 0 is the boot chain, any other
// the application of the key. A refusal leaves both rooms all zero.
#[unsafe(no_mangle)]
pub extern "C" fn preset_plan(
    text: &[u8],
    name: &[u8],
    app: u32,
    key: &[u8],
    store: &mut [u8],
    tree: &mut [u8],
) -> Outcome
    ensures { Answered (planned text.now name.now app key.now
        store.old tree.old) text.now name.now store.old
        tree.old store.new tree.new result }
{
    host::preset_plan(text, name, app, key, store, tree)
}

// What component number i of a plan is; its `file` is absent where that is its source.
#[unsafe(no_mangle)]
pub extern "C" fn preset_plan_head(
    tree: &[u8],
    store: &[u8],
    made: usize,
    app: u32,
    key: &[u8],
    i: usize,
) -> HeadView
    ensures { result ≡ records.head_of
        (plans.spec_of (plans.component tree.now store.now made app key.now i)) }
{
    host::preset_plan_head(tree, store, made, app, key, i)
}

// What it is built with and where it goes.
#[unsafe(no_mangle)]
pub extern "C" fn preset_plan_role(
    tree: &[u8],
    store: &[u8],
    made: usize,
    app: u32,
    key: &[u8],
    i: usize,
) -> RoleView
    ensures { result ≡ records.role_of
        (plans.spec_of (plans.component tree.now store.now made app key.now i)) }
{
    host::preset_plan_role(tree, store, made, app, key, i)
}

// What it does at boot; its `pbp` is a source.
#[unsafe(no_mangle)]
pub extern "C" fn preset_plan_boot(
    tree: &[u8],
    store: &[u8],
    made: usize,
    app: u32,
    key: &[u8],
    i: usize,
) -> BootView
    ensures { result ≡ records.boot_of
        (plans.spec_of (plans.component tree.now store.now made app key.now i)) }
{
    host::preset_plan_boot(tree, store, made, app, key, i)
}

// How it is loaded.
#[unsafe(no_mangle)]
pub extern "C" fn preset_plan_load(
    tree: &[u8],
    store: &[u8],
    made: usize,
    app: u32,
    key: &[u8],
    i: usize,
) -> LoadView
    ensures { result ≡ records.load_of
        (plans.spec_of (plans.component tree.now store.now made app key.now i)) }
{
    host::preset_plan_load(tree, store, made, app, key, i)
}

// Its payload: a package or a file, as written.
#[unsafe(no_mangle)]
pub extern "C" fn preset_plan_source(
    tree: &[u8],
    store: &[u8],
    made: usize,
    app: u32,
    key: &[u8],
    i: usize,
) -> SourceView
    ensures { result ≡ plans.payload
        (plans.component tree.now store.now made app key.now i) }
{
    host::preset_plan_source(tree, store, made, app, key, i)
}

// Its PBP.
#[unsafe(no_mangle)]
pub extern "C" fn preset_plan_pbp(
    tree: &[u8],
    store: &[u8],
    made: usize,
    app: u32,
    key: &[u8],
    i: usize,
) -> SourceView
    ensures { result ≡ plans.pbp
        (plans.component tree.now store.now made app key.now i) }
{
    host::preset_plan_pbp(tree, store, made, app, key, i)
}

#[unsafe(no_mangle)]
pub extern "C" fn preset_plan_partition(
    tree: &[u8],
    store: &[u8],
    made: usize,
    app: u32,
    key: &[u8],
    i: usize,
) -> PartitionView
    ensures { result ≡ plans.target_shown tree.now store.now made
        (plans.component tree.now store.now made app key.now i) }
{
    host::preset_plan_partition(tree, store, made, app, key, i)
}

// Build number i of a plan, in first use.
#[unsafe(no_mangle)]
pub extern "C" fn preset_plan_build(
    tree: &[u8],
    store: &[u8],
    made: usize,
    app: u32,
    key: &[u8],
    i: usize,
) -> BuildView
    ensures { result ≡ plans.build_shown tree.now store.now made app key.now i }
{
    host::preset_plan_build(tree, store, made, app, key, i)
}

// How many components and builds a plan has.
#[unsafe(no_mangle)]
pub extern "C" fn preset_plan_counts(
    tree: &[u8],
    store: &[u8],
    made: usize,
    app: u32,
    key: &[u8],
) -> PlanCounts
    ensures { result ≡ plans.counts_shown tree.now store.now made app key.now }
{
    host::preset_plan_counts(tree, store, made, app, key)
}

// The stem of a plan's files; the lent name is the board's where the text has none.
#[unsafe(no_mangle)]
pub extern "C" fn preset_plan_stem(
    tree: &[u8],
    store: &[u8],
    made: usize,
    name: &[u8],
    app: u32,
    key: &[u8],
) -> Bytes
    ensures { result ≡ plans.stem_shown tree.now store.now made name.now app
        key.now }
{
    host::preset_plan_stem(tree, store, made, name, app, key)
}
