// What is made of an accepted preset for a selection: components in their order, builds, the stem.

#![tactic(auto)]

pub mod builds;
pub mod choice;
pub mod component;
pub mod stem;
pub mod target;

ghost use Rattle.parse.specs.Verdict.{Told};
ghost use Rattle.plan.specs.Planning.{planning};
ghost use Rattle.tree.specs.Both.{on};

use parse::Refusal;
use tree::Rooms;

// The first refusal of the records, of the rules, and of the selection.
pub fn judge_selection(rooms: Rooms<'_>, name: &[u8], app: u32, key: &[u8]) -> Refusal
    ensures { Told
        (on (planning name.now app key.now) rooms.entry) result }
{
    let v = validate::judge_rules(rooms, name);
    if v.number != 0 {
        return v;
    }
    choice::check_selection(rooms, app, key)
}
