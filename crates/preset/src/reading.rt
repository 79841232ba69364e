// From a text to its records.

ghost use Rattle.parse.specs.Verdict.{reading};
ghost use Rattle.preset.specs.Settled.{Parsed};

use crate::{Outcome, Way};

// Reads a preset into the two rooms: the text's tree, then its records. A refusal leaves both rooms all zero.
pub fn read(text: &[u8], name: &[u8], store: &mut [u8], tree: &mut [u8]) -> Outcome
    ensures { Parsed (reading name.now) text.now store.old tree.old
        store.new tree.new result }
{
    crate::judge_text(Way::Read, text, name, b"", store, tree)
}
