// From a text to its listing, for every text, name and rooms.

ghost use Rattle.std.specs.Prelude.{◌≡◌, length};
ghost use Rattle.meaning.specs.Listing as meant;
ghost use Rattle.tree.specs.Doors as doors;
ghost use Rattle.preset.specs.Listings as listings;
ghost use Rattle.preset.specs.Listings.{Emptied, Lined, Planned, Lists};

use crate::Outcome;
use page::Page;
use tree::Rooms;

// An output of so many bytes, and two for each of the lent name, takes every listing.
pub const LISTING_BYTES: usize = 142848;
// A name from here on: what is written with it could not be counted in 32 bits.
const NAME_TOO_LONG: usize = (4294967296 - LISTING_BYTES) / 2;

// What a listing comes to: number 0 and how many bytes were written; or 01's number, section and place.
#[derive(Clone, Copy)]
pub struct Listed {
    pub number: u32,
    pub section: u32,
    pub place: usize,
    pub written: usize,
}

// Whether an output is shorter than a listing may be, or longer than its count of bytes can say.
fn lacks_room(out: &[u8], name: &[u8]) -> bool
    ensures { result ≡ meant.short (length out.now) name.now }
{
    if out.len() < LISTING_BYTES {
        return true;
    }
    if (out.len() - LISTING_BYTES) / 2 < name.len() {
        return true;
    }
    NAME_TOO_LONG <= name.len()
}

// A refusal, which leaves the output all zero.
fn unlisted(o: Outcome, out: &mut [u8]) -> Listed
    ensures { Emptied out.old out.new o result }
{
    slices::zero(out);
    Listed {
        number: o.number,
        section: o.section,
        place: o.place,
        written: 0,
    }
}

// The lines of an accepted plan; the output after them stays as it is.
fn list(o: Outcome, store: &[u8], tree: &[u8], out: &mut [u8], name: &[u8]) -> Listed
    requires { listings.Listing tree.now o }
    ensures { Lined name.now store.now tree.now out.old
        out.new o result }
{
    if o.number != 0 {
        return unlisted(o, out);
    }
    let mut page = Page { out, at: 0 };
    let rooms = Rooms {
        tree,
        store,
        made: o.made,
    };
    report::lines(&mut page, rooms, name);
    Listed {
        number: 0,
        section: 0,
        place: 0,
        written: page.at,
    }
}

// A listing for which there is no room.
fn no_room(store: &mut [u8], tree: &mut [u8], out: &mut [u8]) -> Listed
    ensures { listings.Short store.old tree.old out.old store.new
        tree.new out.new result }
{
    slices::zero(store);
    slices::zero(tree);
    slices::zero(out);
    Listed {
        number: 17,
        section: 0,
        place: 0,
        written: 0,
    }
}

// The listing of a tree that was read.
fn list_tree(name: &[u8], store: &mut [u8], tree: &mut [u8], out: &mut [u8], made: usize) -> Listed
    requires { doors.Rooms tree.old made }
    ensures { listings.TreeListed name.now store.old tree.old made
        out.old store.new tree.new out.new result }
{
    let rooms = Rooms { tree, store, made };
    let v = plan::judge_selection(rooms, name, 0, b"");
    let o = crate::clear_if_refused(v, store, tree, made);
    list(o, store, tree, out, name)
}

// The listing on an output that is long enough.
fn list_text(text: &[u8], name: &[u8], store: &mut [u8], tree: &mut [u8], out: &mut [u8]) -> Listed
    ensures { Planned text.now name.now store.old tree.old
        out.old store.new tree.new out.new result }
{
    match toml_lite::read_tree(text, store, tree) {
        Ok(st) => list_tree(name, store, tree, out, st.made),
        Err(e) => unlisted(crate::refused_at_line(e.refused.number(), e.line), out),
    }
}

// The listing of a preset's boot chain, the output after it as it was, and the rooms as `plan` leaves them. A
// refusal leaves all three rooms all zero.
pub fn listing(
    text: &[u8],
    name: &[u8],
    store: &mut [u8],
    tree: &mut [u8],
    out: &mut [u8],
) -> Listed
    ensures { Lists text.now name.now store.old tree.old
        out.old store.new tree.new out.new result }
{
    if lacks_room(out, name) {
        return no_room(store, tree, out);
    }
    list_text(text, name, store, tree, out)
}
