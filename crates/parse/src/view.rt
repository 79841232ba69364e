// A record by its entry number, read from the rooms when it is wanted.

ghost use Rattle.std.specs.Prelude.{◌≡◌, ◌≤◌};
ghost use Rattle.tree.specs.Doors.{Stood};
ghost use Rattle.parse.specs.Views as views;
ghost use Rattle.tree.specs.Both.{on};

use crate::entry::List;
use schema::{Application, Chip, Component, Media, Partition};
use tree::Rooms;

// Where the three lists stand.
pub fn partition_list(rooms: Rooms<'_>) -> List
    ensures { result ≡ on views.partition_list rooms.entry }
{
    let root = rooms.fields_at(tree::ROOT);
    crate::entry::list_at(
        rooms.tree,
        rooms.store,
        rooms.made,
        root,
        b"partition",
        b"partitions",
    )
}

pub fn component_list(rooms: Rooms<'_>) -> List
    ensures { result ≡ on views.component_list rooms.entry }
{
    let root = rooms.fields_at(tree::ROOT);
    crate::entry::list_at(
        rooms.tree,
        rooms.store,
        rooms.made,
        root,
        b"component",
        b"components",
    )
}

pub fn application_list(rooms: Rooms<'_>) -> List
    ensures { result ≡ on views.application_list rooms.entry }
{
    let root = rooms.fields_at(tree::ROOT);
    crate::entry::keys_at(rooms.tree, rooms.store, rooms.made, root)
}

// A record without fault.
fn good_partition(rooms: Rooms<'_>, n: usize) -> Option<Partition>
    requires { Stood rooms.tree.now n }
    ensures { result ≡ on views.good_partition rooms.entry n }
{
    let r = crate::entry::partition_at(rooms, n);
    (r.fault == 0).then_some(r.partition)
}

fn good_component(rooms: Rooms<'_>, n: usize, limit: usize) -> Option<Component>
    requires { Stood rooms.tree.now n }
    ensures { result ≡ on views.good_component rooms.entry n limit }
{
    let r = crate::entry::component_at(rooms, n, limit);
    (r.fault == 0).then_some(r.component)
}

fn good_application(rooms: Rooms<'_>, n: usize, limit: usize) -> Option<Application>
    requires { Stood rooms.tree.now n }
    ensures { result ≡ on views.good_application rooms.entry n limit }
{
    let r = crate::entry::application_at(rooms, n, limit);
    (r.fault == 0).then_some(r.application)
}

pub fn partition(rooms: Rooms<'_>, i: usize) -> Option<Partition>
    ensures { result ≡ on views.partition rooms.entry i }
{
    let l = partition_list(rooms);
    let n = tree::nth_item(rooms.tree, l.end, l.place, i)?;
    good_partition(rooms, n)
}

pub fn component(rooms: Rooms<'_>, i: usize, limit: usize) -> Option<Component>
    ensures { result ≡ on views.component rooms.entry i limit }
{
    let l = component_list(rooms);
    let n = tree::nth_item(rooms.tree, l.end, l.place, i)?;
    good_component(rooms, n, limit)
}

pub fn application(rooms: Rooms<'_>, i: usize, limit: usize) -> Option<Application>
    ensures { result ≡ on views.application rooms.entry i limit }
{
    let l = application_list(rooms);
    let n = crate::entry::nth_key(rooms.tree, rooms.store, l, i)?;
    good_application(rooms, n, limit)
}

// Where all three stand.
#[derive(Clone, Copy)]
pub struct Lists {
    pub partitions: List,
    pub components: List,
    pub applications: List,
}

pub fn lists_of(rooms: Rooms<'_>) -> Lists
    ensures { result ≡ on views.lists_of rooms.entry }
{
    Lists {
        partitions: partition_list(rooms),
        components: component_list(rooms),
        applications: application_list(rooms),
    }
}

// How many entries the lists have; of applications no more than one past the limit are counted.
#[derive(Clone, Copy)]
pub struct Counts {
    pub partitions: usize,
    pub components: usize,
    pub applications: usize,
}

// Of lists that are looked up already.
pub fn counts_in(rooms: Rooms<'_>, l: Lists) -> Counts
    requires { l ≡ on views.lists_of rooms }
    ensures { result ≡ on views.counts_of rooms.entry }
{
    let p = l.partitions;
    let c = l.components;
    let a = l.applications;
    Counts {
        partitions: tree::count_items(rooms.tree, p.end, p.place),
        components: tree::count_items(rooms.tree, c.end, c.place),
        applications: crate::entry::count_keys(rooms.tree, rooms.store, a, meaning::APPLICATIONS),
    }
}

pub fn counts_of(rooms: Rooms<'_>) -> Counts
    ensures { result ≡ on views.counts_of rooms.entry }
{
    let l = lists_of(rooms);
    counts_in(rooms, l)
}

// The same of any rooms: nothing where they do not hold the values.
pub fn counts_at(tree: &[u8], store: &[u8], made: usize) -> Counts
    ensures { result ≡ views.counts_at tree.now store.now made }
{
    match Rooms::of(tree, store, made) {
        Some(rooms) => counts_of(rooms),
        None => Counts {
            partitions: 0,
            components: 0,
            applications: 0,
        },
    }
}

// What a preset is for.
#[derive(Clone, Copy)]
pub struct Device {
    pub chip: Chip,
    pub media: Media,
}

// Of board and image only what says it is read.
pub fn device_of(rooms: Rooms<'_>) -> Device
    ensures { result ≡ on views.device_of rooms.entry }
{
    let root = rooms.fields_at(tree::ROOT);
    let b = crate::front::table_at(rooms, root, b"board");
    let i = crate::front::table_at(rooms, root, b"image");
    let f = i.fields;
    let c = crate::front::chip_of(rooms.tree, rooms.store, b.fields, f);
    let chip = c.chip;
    let m = crate::field::media(rooms.tree, rooms.store, f, chip.default_media());
    let media = m.media;
    Device { chip, media }
}
