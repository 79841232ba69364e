// The listing of a preset's boot chain.

ghost use Rattle.host.specs.Listings.{Reported};

// number 0: accepted, and then written counts the bytes of the listing; else 01's number, section and place.
#[repr(C)]
#[derive(Clone, Copy)]
pub struct Listed {
    pub number: u32,
    pub section: u32,
    pub place: u32,
    pub written: u32,
}

// Reads a preset into the two rooms, holds it to the rules and writes the listing of its boot chain to out, which
// stays as it is after the lines. A refusal leaves all three all zero.
pub fn preset_listing(
    text: &[u8],
    name: &[u8],
    store: &mut [u8],
    tree: &mut [u8],
    out: &mut [u8],
) -> Listed
    ensures { Reported text.now name.now store.old tree.old
        out.old store.new tree.new out.new result }
{
    let r = preset::listing::listing(text, name, store, tree, out);
    Listed {
        number: r.number,
        section: r.section,
        place: r.place as u32,
        written: (r.written % 4294967296) as u32,
    }
}
