// All entries of a preset in their order: their marks, and the packages they use.

ghost use Rattle.std.specs.Prelude.{◌≡◌, map, take, replicate};
ghost use Rattle.parse.specs.Refusals.{earlier};
ghost use Rattle.layout.specs.Parts.{part_name};
ghost use Rattle.validate.specs.Gathered as gathered;
ghost use Rattle.validate.specs.Gathered.{Counted, Components, Applications, Followed};
ghost use Rattle.tree.specs.Both.{on};

use crate::uses::{MOST_PAIRS, Pair};
use meaning::{APPLICATIONS, Refused};
use parse::Refusal;
use parse::entry::List;
use schema::Partition;
use tree::Rooms;
use turns::EntryRefused;

// The components: the first fault of their records; how many there are, and whether one lies in the first partition;
// what their own rules say, and the packages they use.
#[derive(Clone, Copy)]
pub struct Gathered {
    pub fault: Refusal,
    pub count: usize,
    pub first: bool,
    pub own: Result<(), EntryRefused<Refused>>,
    pub pairs: [Pair; MOST_PAIRS],
}

// The applications: the first fault of their records; how many there are;
// what their own rules say, and the first of all entries whose packages clash.
#[derive(Clone, Copy)]
pub struct Applied {
    pub fault: Refusal,
    pub count: usize,
    pub own: Result<(), EntryRefused<Refused>>,
    pub clash: Option<usize>,
}

fn no_pairs() -> [Pair; MOST_PAIRS]
    ensures { result ≡ replicate 128 gathered.blank }
{
    let none = schema::spot::Spot::Nothing;
    let blank = Pair {
        package: none,
        features: none,
        pbp_package: none,
        pbp_features: none,
    };
    [blank; MOST_PAIRS]
}

// The first fault, told at an entry.
fn earlier_in(fault: Refusal, section: u32, number: u32, place: usize) -> Refusal
    ensures { result ≡ earlier fault (gathered.fault_at section number place) }
{
    if fault.number != 0 {
        return fault;
    }
    if number == 0 {
        return parse::refusal_at(0, 0, 0);
    }
    parse::refusal_at(section, number, place)
}

// All components of a list that has no more than 64, up to the first with a fault.
pub fn each_component(rooms: Rooms<'_>, l: List, items: &[Partition]) -> Gathered
    requires { Counted rooms.tree.now rooms.made l.place l.end }
    ensures { on Components rooms.entry l.place l.end
        (map (part_name rooms.entry.store.now) items.now) result }
{
    let mut marks = turns::no_marks();
    let mut pairs = no_pairs();
    let mut fault = parse::refusal_at(0, 0, 0);
    let mut first = false;
    let mut i = 0;
    let mut w = tree::items_of(l.place, l.end);
    while let Some(step) = tree::next_item(rooms.tree, w) {
        let e = crate::component::entry(rooms, step.value, items);
        if e.fault != 0 {
            fault = parse::refusal_at(parse::IN_COMPONENT, e.fault, i);
            break;
        }
        marks[i] = e.mark;
        pairs[i] = e.pair;
        first |= e.first;
        i += 1;
        w = step.rest;
    }
    let own = turns::judge_marks(rooms.store, &marks[..i], Refused::ComponentTwice);
    Gathered {
        fault,
        count: i,
        first,
        own,
        pairs,
    }
}

// The applications in byte order of key; their packages come after those of the components.
// The list's length is told before its entries, so the first fault waits for the last key.
pub fn each_application(rooms: Rooms<'_>, l: List, items: &[Partition], c: Gathered) -> Applied
    requires { Followed rooms.tree.now rooms.made l.end c.count }
    ensures { on Applications rooms.entry l.place l.end items.now c.count
        (take c.count c.pairs) result }
{
    let mut pairs = c.pairs;
    let mut marks = turns::no_marks();
    let mut fault = parse::refusal_at(0, 0, 0);
    let mut i = 0;
    let mut w = tree::keys_of(rooms.tree, l.place, l.end);
    while let Some(step) = tree::next_key(rooms.tree, rooms.store, w) {
        if APPLICATIONS <= i {
            fault = crate::refusal_in(parse::IN_APPLICATION, Refused::TooManyEntries, APPLICATIONS);
            break;
        }
        let e = crate::application::entry(rooms, step.value, items);
        fault = earlier_in(fault, parse::IN_APPLICATION, e.fault, i);
        marks[i] = e.mark;
        pairs[c.count + i] = e.pair;
        i += 1;
        w = step.rest;
    }
    let own = turns::judge_marks(rooms.store, &marks[..i], Refused::ApplicationTwice);
    Applied {
        fault,
        count: i,
        own,
        clash: crate::uses::first_clash(rooms, &pairs[..c.count + i]),
    }
}
