// The product: `read`, `validate`, `plan` and `listing` of a preset, each from its text, for every text, name and
// rooms.

#![tactic(auto)]

pub mod listing;
pub mod planning;
pub mod reading;
pub mod validating;

ghost use Rattle.std.specs.Prelude.{◌≡◌};
ghost use Rattle.tree.specs.Both.{on};
ghost use Rattle.parse.specs.Verdict.{Told};
ghost use Rattle.preset.specs.Settled.{Settling, Kept, Parsed, judge_of};

use parse::Refusal;
use tree::Rooms;

// What a text comes to: number 0 and the count of values made; or 01's number, section and place.
#[derive(Clone, Copy)]
pub struct Outcome {
    pub number: u32,
    pub section: u32,
    pub place: usize,
    pub made: usize,
}

// How far a preset is judged: its records; the rules too; and the selection, where 0 is the boot chain, any other
// the application of the key.
#[derive(Clone, Copy)]
pub enum Way {
    Read,
    Validate,
    Plan(u32),
}

// A text that has no tree.
pub fn refused_at_line(number: u32, line: usize) -> Outcome
    ensures { result ≡ record { number = number; section = 0; place = line; made = 0 } }
{
    Outcome {
        number,
        section: 0,
        place: line,
        made: 0,
    }
}

// What a judgement leaves: the rooms as they are; a refusal, all zero.
pub fn clear_if_refused(v: Refusal, store: &mut [u8], tree: &mut [u8], made: usize) -> Outcome
    requires { Settling v made }
    ensures { Kept v store.old tree.old made store.new tree.new result }
{
    if v.number == 0 {
        return Outcome {
            number: 0,
            section: 0,
            place: 0,
            made,
        };
    }
    slices::zero(store);
    slices::zero(tree);
    Outcome {
        number: v.number,
        section: v.section,
        place: v.place,
        made: 0,
    }
}

// What a way's judge says of rooms that hold a tree.
fn judge_rooms(way: Way, rooms: Rooms<'_>, name: &[u8], key: &[u8]) -> Refusal
    ensures { Told (on (judge_of way name.now key.now) rooms.entry) result }
{
    match way {
        Way::Read => parse::judge_records(rooms, name),
        Way::Validate => validate::judge_rules(rooms, name),
        Way::Plan(app) => plan::judge_selection(rooms, name, app, key),
    }
}

// Reads a preset into the two rooms and judges it. A refusal leaves both rooms all zero.
pub fn judge_text(
    way: Way,
    text: &[u8],
    name: &[u8],
    key: &[u8],
    store: &mut [u8],
    tree: &mut [u8],
) -> Outcome
    ensures { Parsed (judge_of way name.now key.now) text.now
        store.old tree.old store.new tree.new result }
{
    match toml_lite::read_tree(text, store, tree) {
        Ok(st) => {
            let rooms = Rooms {
                tree,
                store,
                made: st.made,
            };
            let v = judge_rooms(way, rooms, name, key);
            clear_if_refused(v, store, tree, st.made)
        }
        Err(e) => refused_at_line(e.refused.number(), e.line),
    }
}
