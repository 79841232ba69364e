// Whole presets: a text's tree and its records, and the rules over them.

ghost use Rattle.std.specs.Prelude.{◌≡◌};
ghost use Rattle.preset.specs.Settled.{Small};
ghost use Rattle.host.specs.Presets as presets;
ghost use Rattle.host.specs.Presets.{Answered, recorded, validated};

use crate::documents::Outcome;

// An outcome in the numbers of the boundary.
pub fn exported(r: preset::Outcome) -> Outcome
    requires { Small r }
    ensures { result ≡ presets.exported r }
{
    Outcome {
        number: r.number,
        section: r.section,
        place: r.place as u32,
        made: r.made as u32,
    }
}

// Reads a preset into the two rooms; the lent name is the board's where the text has none. A refusal leaves both
// rooms all zero.
pub fn preset_read(text: &[u8], name: &[u8], store: &mut [u8], tree: &mut [u8]) -> Outcome
    ensures { Answered
        (recorded text.now name.now store.old tree.old) text.now
        name.now store.old tree.old store.new tree.new result }
{
    exported(preset::reading::read(text, name, store, tree))
}

// The same, held to the rules: an accepted preset obeys 30 to 70.
pub fn preset_validate(text: &[u8], name: &[u8], store: &mut [u8], tree: &mut [u8]) -> Outcome
    ensures { Answered
        (validated text.now name.now store.old tree.old) text.now
        name.now store.old tree.old store.new tree.new result }
{
    exported(preset::validating::validate(text, name, store, tree))
}
