// 60: the packages that entries use, and the first use with another feature set than an earlier one.

ghost use Rattle.std.specs.Prelude.{[], ◌≡◌, length};
ghost use Rattle.turns.specs.Marks.{first_hit};
ghost use Rattle.layout.specs.Parts.{placed};
ghost use Rattle.validate.specs.Clashes as clashes;
ghost use Rattle.tree.specs.Both.{on};

use schema::spot::{Spot, same_text};
use schema::{Component, Features};
use tree::Rooms;

// As many components as there may be, and as many applications.
pub const MOST_PAIRS: usize = meaning::COMPONENTS + meaning::APPLICATIONS;

// An entry's packages with the features that they are to have.
#[derive(Clone, Copy)]
pub struct Pair {
    pub package: Spot,
    pub features: Spot,
    pub pbp_package: Spot,
    pub pbp_features: Spot,
}

// One package with the features that it is to have.
#[derive(Clone, Copy)]
struct Use {
    package: Spot,
    features: Spot,
}

// Whether it is one package with two feature sets.
fn differ(rooms: Rooms<'_>, u: Use, v: Use) -> bool
    ensures { result ≡ on clashes.differ rooms.entry u v }
{
    same_text(rooms.store, u.package, v.package)
        && !features::equal(
            rooms,
            Features::from(u.features),
            Features::from(v.features),
        )
}

fn own_use(a: Pair) -> Use
    ensures { result ≡ clashes.own_use a }
{
    Use {
        package: a.package,
        features: a.features,
    }
}

fn pbp_use(a: Pair) -> Use
    ensures { result ≡ clashes.pbp_use a }
{
    Use {
        package: a.pbp_package,
        features: a.pbp_features,
    }
}

// Whether a use and some use of an entry differ.
fn use_differs(rooms: Rooms<'_>, u: Use, b: Pair) -> bool
    ensures { result ≡ on clashes.use_differs rooms.entry u b }
{
    differ(rooms, u, own_use(b)) || differ(rooms, u, pbp_use(b))
}

// Whether some use of one entry and some use of another differ.
fn clash(rooms: Rooms<'_>, a: Pair, b: Pair) -> bool
    ensures { result ≡ on clashes.clash rooms.entry a b }
{
    use_differs(rooms, own_use(a), b) || use_differs(rooms, pbp_use(a), b)
}

// Whether an entry uses a package. A part of its callers, as `same_text` is: full lists ask 8,000 times, and a call for
// each takes half as long again.
#[inline(always)]
fn uses_package(store: &[u8], p: Spot, b: Pair) -> bool
    ensures { result ≡ clashes.uses_package store.now p b }
{
    same_text(store, p, b.package) || same_text(store, p, b.pbp_package)
}

// Whether two entries use one package.
#[inline(always)]
fn share_package(store: &[u8], a: Pair, b: Pair) -> bool
    ensures { result ≡ clashes.share_package store.now a b }
{
    uses_package(store, a.package, b) || uses_package(store, a.pbp_package, b)
}

// A package that an entry does not use; none where it does.
fn package_beyond(store: &[u8], p: Spot, b: Pair) -> Spot
    ensures { result ≡ clashes.package_beyond store.now p b }
{
    if uses_package(store, p, b) {
        return Spot::Nothing;
    }
    p
}

// What an entry uses that another does not.
fn uses_beyond(store: &[u8], a: Pair, b: Pair) -> Pair
    ensures { result ≡ clashes.uses_beyond store.now a b }
{
    Pair {
        package: package_beyond(store, a.package, b),
        pbp_package: package_beyond(store, a.pbp_package, b),
        ..a
    }
}

// The first entry that clashes with an earlier one.
pub fn first_clash(rooms: Rooms<'_>, pairs: &[Pair]) -> Option<usize>
    ensures { result ≡ placed (length pairs.now)
        (first_hit (on clashes.clash rooms.entry) [] pairs.now) }
{
    for i in 0..pairs.len() {
        // one earlier use of a package is enough: those before this entry agree
        let mut rest = pairs[i];
        for j in 0..i {
            if !share_package(rooms.store, rest, pairs[j]) {
                continue;
            }
            if clash(rooms, rest, pairs[j]) {
                return Some(i);
            }
            rest = uses_beyond(rooms.store, rest, pairs[j]);
        }
    }
    None
}

// "where a component's `pbp_package` is its `package`, only `pbp_features` count"
pub fn pair_of_component(store: &[u8], c: Component) -> Pair
    ensures { result ≡ clashes.pair_of_component store.now c }
{
    let package = Spot::from(c.head.package);
    let pbp_package = Spot::from(c.boot.pbp_package);
    let pbp_features = Spot::from(c.role.pbp_features);
    let features = if same_text(store, package, pbp_package) {
        pbp_features
    } else {
        Spot::from(c.role.features)
    };
    Pair {
        package,
        features,
        pbp_package,
        pbp_features,
    }
}

// An application's package is its key.
pub fn pair_of_application(key: Spot, features: Features) -> Pair
    ensures { result ≡ clashes.pair_of_application key features }
{
    Pair {
        package: key,
        features: Spot::from(features),
        pbp_package: Spot::Nothing,
        pbp_features: Spot::Nothing,
    }
}
