// 52 to 59: what a component's own rules say, and the entry it makes.

ghost use Rattle.std.specs.Prelude.{◌≡◌, map, false};
ghost use Rattle.meaning.specs.Base.{pick, nil?};
ghost use Rattle.tree.specs.Doors.{Stood};
ghost use Rattle.layout.specs.Parts.{part_name, is_first};
ghost use Rattle.validate.specs.Entries as entries;
ghost use Rattle.tree.specs.Both.{on};

use crate::{Entry, kept};
use meaning::{FEATURES, Refused};
use schema::{Boot, Component, LONGEST_NAME, Partition, Text};
use tree::Rooms;
use turns::Mark;

// 52: name over 32 bytes.
fn check_name(store: &[u8], name: Text) -> Result<(), Refused>
    ensures { result ≡ entries.name_checked store.now name }
{
    if LONGEST_NAME < kept(store, name).len() {
        return Err(Refused::ComponentNameTooLong);
    }
    Ok(())
}

// 53, 54: package and file; neither.
fn check_source(pack: bool, file: bool) -> Result<(), Refused>
    ensures { result ≡ entries.source_checked pack file }
{
    if pack && file {
        return Err(Refused::TwoSources);
    }
    if !pack && !file {
        return Err(Refused::NoSource);
    }
    Ok(())
}

// 55, 56: `pbp` and `pbp_package`; updater without `ram`.
fn check_boot(b: Boot) -> Result<(), Refused>
    ensures { result ≡ entries.boot_checked b }
{
    if b.pbp.is_given() && b.pbp_package.is_given() {
        return Err(Refused::TwoPbps);
    }
    if b.updater && b.ram.is_none() {
        return Err(Refused::UpdaterWithoutRam);
    }
    Ok(())
}

// 57, 58: no partition and no updater; unknown partition.
fn check_target(reference: &[u8], updater: bool, known: bool) -> Result<(), Refused>
    ensures { result ≡ entries.target_checked (nil? reference.now) updater known }
{
    if reference.is_empty() {
        if updater {
            Ok(())
        } else {
            Err(Refused::NoPartition)
        }
    } else if known {
        Ok(())
    } else {
        Err(Refused::UnknownPartition)
    }
}

// What an extension reserves comes in blocks of so many bytes.
const RESERVE_BLOCK: u32 = 512;

// 59: `ext_reserve` not a multiple of 512.
fn check_reserve(n: u32) -> Result<(), Refused>
    ensures { result ≡ entries.reserve_checked n }
{
    if n % RESERVE_BLOCK != 0 {
        return Err(Refused::ReserveOffBlock);
    }
    Ok(())
}

// 52 to 59; whether the reference names a partition is known.
fn check_late(store: &[u8], c: Component, known: bool) -> Result<(), Refused>
    ensures { result ≡ entries.late_checked store.now known c }
{
    check_name(store, c.head.name)?;
    check_source(c.head.package.is_given(), c.head.file.is_given())?;
    check_boot(c.boot)?;
    check_target(kept(store, c.role.partition), c.boot.updater, known)?;
    check_reserve(c.load.ext_reserve)
}

// Whether the partition found, among so many, is the first.
fn in_first(reference: &[u8], at: Option<usize>, count: usize) -> bool
    ensures { result ≡ pick (nil? reference.now) false (is_first count at) }
{
    !reference.is_empty() && at.unwrap_or(count) == 0
}

fn entry_of(store: &[u8], fault: u32, c: Component, items: &[Partition]) -> Entry
    ensures { result ≡ entries.component_entry store.now (map (part_name store.now) items.now) fault
        c }
{
    let reference = kept(store, c.role.partition);
    let at = layout::find_partition(store, items, layout::partition_name(reference));
    Entry {
        fault,
        mark: Mark {
            from: c.head.name.start(),
            len: c.head.name.length(),
            early: Ok(()),
            late: check_late(store, c, at.is_some()),
        },
        pair: crate::uses::pair_of_component(store, c),
        first: in_first(reference, at, items.len()),
    }
}

// The entry of the component that value number n is.
pub fn entry(rooms: Rooms<'_>, n: usize, items: &[Partition]) -> Entry
    requires { Stood rooms.tree.now n }
    ensures { result ≡ on entries.component_at rooms.entry
        (map (part_name rooms.entry.store.now) items.now) n }
{
    let r = parse::entry::component_at(rooms, n, FEATURES);
    entry_of(rooms.store, r.fault, r.component, items)
}
