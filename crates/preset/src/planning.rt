// From a text to a preset that a plan can be made of.

ghost use Rattle.plan.specs.Planning.{planning};
ghost use Rattle.preset.specs.Settled.{Parsed};

use crate::{Outcome, Way};

// Reads a preset into the two rooms, holds it to the rules and to the selection: 0 is the boot chain, any other the
// application of the key. A refusal leaves both rooms all zero.
pub fn plan(
    text: &[u8],
    name: &[u8],
    app: u32,
    key: &[u8],
    store: &mut [u8],
    tree: &mut [u8],
) -> Outcome
    ensures { Parsed (planning name.now app key.now) text.now
        store.old tree.old store.new tree.new result }
{
    crate::judge_text(Way::Plan(app), text, name, key, store, tree)
}
