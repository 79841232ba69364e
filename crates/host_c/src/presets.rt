// Whole presets: a text's tree and its records, and the rules over them.

ghost use Rattle.host.specs.Presets.{Answered, recorded, validated};

use host::Outcome;

// Reads a preset into the two rooms; the lent name is the board's where the text has none. A refusal leaves both
// rooms all zero.
#[unsafe(no_mangle)]
pub extern "C" fn preset_read(
    text: &[u8],
    name: &[u8],
    store: &mut [u8],
    tree: &mut [u8],
) -> Outcome
    ensures { Answered
        (recorded text.now name.now store.old tree.old) text.now
        name.now store.old tree.old store.new tree.new result }
{
    host::preset_read(text, name, store, tree)
}

// The same, held to the rules: an accepted preset obeys 30 to 70.
#[unsafe(no_mangle)]
pub extern "C" fn preset_validate(
    text: &[u8],
    name: &[u8],
    store: &mut [u8],
    tree: &mut [u8],
) -> Outcome
    ensures { Answered
        (validated text.now name.now store.old tree.old) text.now
        name.now store.old tree.old store.new tree.new result }
{
    host::preset_validate(text, name, store, tree)
}
