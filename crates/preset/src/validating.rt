// From a text to a preset that obeys the rules.

ghost use Rattle.validate.specs.Validated.{validating};
ghost use Rattle.preset.specs.Settled.{Parsed};

use crate::{Outcome, Way};

// Reads a preset into the two rooms and holds it to the rules. A refusal leaves both rooms all zero.
pub fn validate(text: &[u8], name: &[u8], store: &mut [u8], tree: &mut [u8]) -> Outcome
    ensures { Parsed (validating name.now) text.now store.old
        tree.old store.new tree.new result }
{
    crate::judge_text(Way::Validate, text, name, b"", store, tree)
}
