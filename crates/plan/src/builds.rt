// What is to be built: one build for each package, in first use.

ghost use Rattle.std.specs.Prelude.{[], map, ◌≡◌, ◌≤◌, take, replicate};
ghost use Rattle.tree.specs.Doors.{Stood};
ghost use Rattle.plan.specs.Choices.{Standing};
ghost use Rattle.plan.specs.Builds as builds;
ghost use Rattle.plan.specs.Builds.{Wanting, Used};
ghost use Rattle.tree.specs.Both.{on};

use crate::choice::Choice;
use crate::component::Build;
use meaning::{COMPONENTS, FEATURES};
use schema::spot::{Spot, same_text};
use schema::{Features, Text};
use tree::Rooms;

// Two for each component, and one for the application.
const COMPONENT_USES: usize = 2 * COMPONENTS;

const MOST_USES: usize = COMPONENT_USES + 1;

// Uses of packages, or builds; one whose package is absent is none.
#[derive(Clone, Copy)]
pub struct BuildList {
    pub count: usize,
    pub items: [Use; MOST_USES],
}

// A use of no package.
const NO_USE: Use = Use {
    package: Spot::Nothing,
    bin: Spot::Nothing,
    features: Spot::Nothing,
};

// A component's two packages.
#[derive(Clone, Copy)]
pub struct Wanted {
    pub own: Use,
    pub pbp: Use,
}

// A build by where its texts are, in few bytes, since tables of them are handed on.
#[derive(Clone, Copy)]
pub struct Use {
    pub package: Spot,
    pub bin: Spot,
    pub features: Spot,
}

// The use of a package: its bin is the package itself where none is given.
fn use_of(package: Text, bin: Text, features: Features) -> Use
    ensures { result ≡ builds.use_of «package» bin features }
{
    Use {
        package: Spot::from(package),
        bin: Spot::from(bin.or(package)),
        features: Spot::from(features),
    }
}

// The build of a use.
pub fn build_at(u: Use) -> Build
    ensures { result ≡ builds.build_at u }
{
    Build {
        package: Text::from(u.package),
        bin: Text::from(u.bin),
        features: Features::from(u.features),
    }
}

// An array of none.
fn no_builds() -> [Use; MOST_USES]
    ensures { result ≡ replicate 129 builds.no_use }
{
    [NO_USE; MOST_USES]
}

// "each component's package, then its `pbp_package`", whose bin is the package itself.
fn wanted_at(rooms: Rooms<'_>, n: usize) -> Wanted
    requires { Stood rooms.tree.now n }
    ensures { builds.both_at result ≡ on builds.wanted_at rooms.entry n }
{
    let t = parse::entry::entry_table(rooms, rooms.value_at(n));
    let s = parse::component::read_sources(rooms.tree, rooms.store, t.fields);
    let l = parse::component::read_lists(rooms, t.fields, FEATURES);
    let o = parse::field::text(rooms.tree, rooms.store, t.fields, b"pbp_package");
    Wanted {
        own: use_of(s.package, s.bin, l.features),
        pbp: use_of(o.text, Text::Absent, l.pbp_features),
    }
}

// The uses of all components of a list; no more than 64 of them are asked.
fn each_component(rooms: Rooms<'_>, place: u16, end: usize) -> BuildList
    requires { Wanting rooms.tree.now rooms.made end }
    ensures { Used 128 (on builds.each_component rooms.entry place end) result }
{
    let mut items = no_builds();
    let mut i: usize = 0;
    let mut w = tree::items_of(place, end);
    while let Some(step) = tree::next_item(rooms.tree, w) {
        if COMPONENT_USES <= i {
            break;
        }
        let used = wanted_at(rooms, step.value);
        items[i] = used.own;
        items[i + 1] = used.pbp;
        i += 2;
        w = step.rest;
    }
    BuildList { count: i, items }
}

// The use of the application that value number n is: its package and bin are its key.
fn application_use(rooms: Rooms<'_>, n: usize) -> Use
    requires { Stood rooms.tree.now n }
    ensures { builds.build_at result ≡ on builds.application_use rooms.entry n }
{
    let r = parse::entry::application_at(rooms, n, FEATURES);
    let k = tree::key_at(rooms.tree, n);
    let package = Spot::of_bytes(k.from, k.len);
    Use {
        package,
        bin: package,
        features: Spot::from(r.application.features),
    }
}

// "the application last": that use after those of the components.
fn with_application(rooms: Rooms<'_>, n: usize, u: BuildList) -> BuildList
    requires { Stood rooms.tree.now n × builds.Room u }
    ensures { on builds.Followed rooms.entry n u result }
{
    let mut items = u.items;
    items[u.count] = application_use(rooms, n);
    BuildList {
        count: u.count + 1,
        items,
    }
}

// Those of some uses that no earlier one is of the same package as.
fn first_uses(store: &[u8], uses: [Use; MOST_USES], count: usize) -> BuildList
    requires { count ≤ 129 }
    ensures { Used 129 (builds.first_uses store.now [] (map builds.build_at (take count uses))) result }
{
    let mut items = no_builds();
    let mut n = 0;
    'next: for i in 0..count {
        let u = uses[i];
        if !Text::from(u.package).is_given() {
            continue;
        }
        for j in 0..i {
            if same_text(store, u.package, uses[j].package) {
                continue 'next;
            }
        }
        items[n] = u;
        n += 1;
    }
    BuildList { count: n, items }
}

// All uses of a plan in their order; a key that is not declared has none.
fn uses(rooms: Rooms<'_>, c: Choice) -> BuildList
    requires { Standing rooms.tree.now c }
    ensures { Used 129 (on builds.uses rooms.entry c) result }
{
    let l = parse::view::component_list(rooms);
    let u = each_component(rooms, l.place, l.end);
    match c {
        Choice::BootChain => u,
        Choice::Undeclared => BuildList {
            count: 0,
            items: no_builds(),
        },
        Choice::At { place: _, value } => with_application(rooms, value, u),
    }
}

// "one per package, with the first use's `bin`", and its features.
pub fn builds(rooms: Rooms<'_>, c: Choice) -> BuildList
    requires { Standing rooms.tree.now c }
    ensures { Used 129 (on builds.builds_of rooms.entry c) result }
{
    let u = uses(rooms, c);
    first_uses(rooms.store, u.items, u.count)
}

// Build number i of a plan.
pub fn build(rooms: Rooms<'_>, c: Choice, i: usize) -> Option<Build>
    requires { Standing rooms.tree.now c }
    ensures { result ≡ on builds.build rooms.entry c i }
{
    let b = builds(rooms, c);
    if i < b.count {
        return Some(build_at(b.items[i]));
    }
    None
}
