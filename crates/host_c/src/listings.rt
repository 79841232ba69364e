// The listing of a preset's boot chain.

ghost use Rattle.host.specs.Listings.{Reported};

use host::Listed;

// Reads a preset into the two rooms, holds it to the rules and writes the listing of its boot chain to out, which
// stays as it is after the lines. A refusal leaves all three all zero.
#[unsafe(no_mangle)]
pub extern "C" fn preset_listing(
    text: &[u8],
    name: &[u8],
    store: &mut [u8],
    tree: &mut [u8],
    out: &mut [u8],
) -> Listed
    ensures { Reported text.now name.now store.old tree.old
        out.old store.new tree.new out.new result }
{
    host::preset_listing(text, name, store, tree, out)
}
