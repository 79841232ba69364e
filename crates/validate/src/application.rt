// 61 to 67: what an application's own rules say, and the entry it makes.

ghost use Rattle.std.specs.Prelude.{◌≡◌};
ghost use Rattle.tree.specs.Doors.{Stood};
ghost use Rattle.schema.specs.Texts.{amount};
ghost use Rattle.validate.specs.Entries as entries;
ghost use Rattle.tree.specs.Both.{on};

use crate::uses::Pair;
use crate::{Entry, kept};
use meaning::{FEATURES, Refused};
use schema::spot::Spot;
use schema::{Application, LONGEST_NAME, Partition, Text};
use tree::Rooms;
use turns::Mark;

// Whether a text has no bytes.
fn is_empty(store: &[u8], t: Text) -> bool
    ensures { result ≡ entries.is_empty store.now t }
{
    match t {
        Text::Absent => true,
        Text::Stored { from, len } => schema::stored(store, from, len).is_empty(),
        _ => false,
    }
}

// 64, 67: unknown partition; a locked one.
fn check_place(found: Option<Partition>) -> Result<(), Refused>
    ensures { result ≡ entries.place_checked found }
{
    match found {
        None => Err(Refused::ApplicationNowhere),
        Some(p) if p.locked => Err(Refused::LockedPartition),
        Some(_) => Ok(()),
    }
}

// 61 to 64, 67: empty name; over 32 bytes; empty filename; then what its partition says.
fn check_early(store: &[u8], a: Application, found: Option<Partition>) -> Result<(), Refused>
    ensures { result ≡ entries.early_checked store.now found a }
{
    let name = kept(store, a.name);
    if name.is_empty() {
        return Err(Refused::EmptyApplicationName);
    }
    if LONGEST_NAME < name.len() {
        return Err(Refused::ApplicationNameTooLong);
    }
    if is_empty(store, a.filename) {
        return Err(Refused::EmptyFilename);
    }
    check_place(found)
}

// 66: load address not a multiple of 4.
fn check_address(n: Option<u32>) -> Result<(), Refused>
    ensures { result ≡ entries.address_checked (amount n) }
{
    match n {
        Some(a) if a % 4 != 0 => Err(Refused::AddressOffWord),
        _ => Ok(()),
    }
}

fn entry_of(store: &[u8], fault: u32, pair: Pair, a: Application, items: &[Partition]) -> Entry
    ensures { result ≡ entries.application_entry store.now items.now fault pair a }
{
    // "validation compares an application's exactly"
    let found = layout::partition_named(store, items, a.partition, false);
    Entry {
        fault,
        mark: Mark {
            from: a.name.start(),
            len: a.name.length(),
            early: check_early(store, a, found),
            late: check_address(a.load_address),
        },
        pair,
        first: false,
    }
}

// The entry of the application that value number n is.
pub fn entry(rooms: Rooms<'_>, n: usize, items: &[Partition]) -> Entry
    requires { Stood rooms.tree.now n }
    ensures { result ≡ on entries.application_at rooms.entry items.now n }
{
    let r = parse::entry::application_at(rooms, n, FEATURES);
    let a = r.application;
    let k = tree::key_at(rooms.tree, n);
    let pair = crate::uses::pair_of_application(Spot::of_bytes(k.from, k.len), a.features);
    entry_of(rooms.store, r.fault, pair, a, items)
}
