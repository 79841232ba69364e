// The lines of the listing, one function for each.

ghost use Rattle.std.specs.Prelude.{◌∷◌};
ghost use Rattle.meaning.specs.Print.{spelling, ended};
ghost use Rattle.meaning.specs.Listing as meant;
ghost use Rattle.schema.specs.Texts.{spelled};
ghost use Rattle.page.specs.Page.{Adds};
ghost use Rattle.report.specs.Shown as shown;
ghost use Rattle.report.specs.Shown.{Stands};
ghost use Rattle.tree.specs.Both.{on};

use crate::brief::{ApplicationBrief, ComponentBrief};
use page::Page;
use parse::view::Lists;
use schema::{Chip, Media, Partition, Text};
use tree::Rooms;

// How many entries the lists have, and how many values were made.
fn counts(page: &mut Page, rooms: Rooms<'_>, lists: Lists)
    requires { on Stands rooms lists }
    ensures { Adds (on shown.counts rooms.entry) page.old page.new }
{
    let n = parse::view::counts_in(rooms, lists);
    page.number(n.partitions as u64);
    page.number(n.components as u64);
    page.number(n.applications as u64);
    page.number(rooms.made as u64);
    page.byte(b'\n');
}

// `ok`, chip and media.
fn device(page: &mut Page, chip: Chip, media: Media)
    ensures { Adds (shown.device chip media) page.old page.new }
{
    page.put(b"ok");
    page.word(chip.name());
    page.word(media.name());
}

// `ok`: chip, media, partitions, components, applications, values made.
pub fn ok(page: &mut Page, rooms: Rooms<'_>, lists: Lists)
    requires { on Stands rooms lists }
    ensures { Adds (on shown.ok rooms.entry) page.old page.new }
{
    let d = parse::view::device_of(rooms);
    device(page, d.chip, d.media);
    counts(page, rooms, lists);
}

// Whether applications may lie there.
fn lock(page: &mut Page, locked: bool)
    ensures { Adds (32 ∷ spelling (meant.lock_named locked)) page.old page.new }
{
    if locked {
        page.field(b"locked");
    } else {
        page.field(b"open");
    }
}

// `part`: name, start, end, `locked` or `open`.
pub fn part(page: &mut Page, store: &[u8], p: Partition)
    ensures { Adds (shown.part store.now p) page.old page.new }
{
    page.put(b"part");
    page.quoted(schema::stored(store, p.from, p.len));
    page.number(p.offset as u64);
    page.number(layout::end_of(p));
    lock(page, p.locked);
    page.byte(b'\n');
}

// `comp`: name, kind, reference.
pub fn comp(page: &mut Page, store: &[u8], name: &[u8], x: ComponentBrief)
    ensures { Adds (shown.comp store.now name.now x) page.old page.new }
{
    page.put(b"comp");
    page.text(store, name, x.name);
    page.word(x.kind.name());
    page.reference(store, name, x.partition);
    page.byte(b'\n');
}

// `app`: package, name, partition.
pub fn app(page: &mut Page, store: &[u8], name: &[u8], x: ApplicationBrief)
    ensures { Adds (shown.app store.now name.now x) page.old page.new }
{
    page.put(b"app");
    page.text(store, name, x.package);
    page.text(store, name, x.name);
    page.reference(store, name, x.partition);
    page.byte(b'\n');
}

// `build`: package, feature count.
pub fn build(page: &mut Page, store: &[u8], name: &[u8], package: Text, features: usize)
    ensures { Adds (shown.build store.now name.now «package» features) page.old page.new }
{
    page.put(b"build");
    page.text(store, name, package);
    page.number(features as u64);
    page.byte(b'\n');
}

// `stem`.
pub fn stem(page: &mut Page, store: &[u8], name: &[u8], t: Text)
    ensures { Adds (ended (meant.stem_line (spelled store.now name.now t))) page.old page.new }
{
    page.put(b"stem");
    page.text(store, name, t);
    page.byte(b'\n');
}

// `refused`, number, section, place.
pub fn refused(page: &mut Page, number: u32, section: u32, place: usize)
    ensures { Adds (ended (meant.refused_line number section place)) page.old page.new }
{
    page.put(b"refused");
    page.number(number as u64);
    page.number(section as u64);
    page.number(place as u64);
    page.byte(b'\n');
}
