// The rules 30 to 70 over a preset's records.

#![tactic(auto)]

pub mod application;
pub mod component;
pub mod front;
pub mod gather;
pub mod uses;

ghost use Rattle.std.specs.Prelude.{◌≡◌, ◌+◌, ◌≤◌};
ghost use Rattle.meaning.specs.Numbered.{number};
ghost use Rattle.turns.specs.Marks.{at_entry};
ghost use Rattle.validate.specs.Entries as entries;
ghost use Rattle.validate.specs.Gathered as gathered;
ghost use Rattle.validate.specs.Faults as faults;
ghost use Rattle.parse.specs.Entries.{refusal_at};
ghost use Rattle.parse.specs.Verdict.{Told};
ghost use Rattle.validate.specs.Validated.{validating};
ghost use Rattle.tree.specs.Both.{on};

use crate::gather::{Applied, Gathered};
use crate::uses::Pair;
use meaning::{COMPONENTS, PARTITIONS, Refused};
use parse::Refusal;
use parse::entry::Partitions;
use schema::{Chip, Text};
use tree::Rooms;
use turns::{EntryRefused, Mark};

// An entry read once: its record's fault, 0 for none, and what the rules ask of it:
// its mark, the packages it uses, and whether it lies in the first partition.
#[derive(Clone, Copy)]
pub struct Entry {
    pub fault: u32,
    pub mark: Mark<Refused>,
    pub pair: Pair,
    pub first: bool,
}

// A text that lies in the store.
fn kept<'a>(store: &'a [u8], t: Text) -> &'a [u8]
    ensures { result.now ≡ entries.kept store.now t }
{
    schema::stored(store, t.start(), t.length())
}

fn refusal_in(section: u32, refused: Refused, place: usize) -> Refusal
    ensures { result ≡ refusal_at section (number refused) place }
{
    parse::refusal_at(section, refused.number(), place)
}

// What is told of the entries of a section.
fn in_entry(section: u32, judged: Result<(), EntryRefused<Refused>>) -> Refusal
    ensures { result ≡ faults.in_entry section (at_entry judged) }
{
    match judged {
        Ok(()) => parse::refusal_at(0, 0, 0),
        Err(e) => refusal_in(section, e.refused, e.place),
    }
}

// 50 to 59.
fn check_components(own: Result<(), EntryRefused<Refused>>, count: usize) -> Refusal
    ensures { result ≡ faults.counted_fault (at_entry own) count }
{
    if count == 0 {
        return refusal_in(parse::IN_COMPONENT, Refused::NoComponents, 0);
    }
    in_entry(parse::IN_COMPONENT, own)
}

// 60: in the components, then in the applications after them.
fn check_uses(clash: Option<usize>, components: usize) -> Refusal
    ensures { result ≡ faults.clash_told components clash }
{
    match clash {
        None => parse::refusal_at(0, 0, 0),
        Some(at) if at < components => {
            refusal_in(parse::IN_COMPONENT, Refused::FeaturesDiffer, at)
        }
        Some(at) => refusal_in(
            parse::IN_APPLICATION,
            Refused::FeaturesDiffer,
            at - components,
        ),
    }
}

// 70: no component lies in the first partition.
fn check_first(first: bool) -> Refusal
    ensures { result ≡ faults.boot_fault first }
{
    if first {
        return parse::refusal_at(0, 0, 0);
    }
    refusal_in(parse::IN_COMPONENT, Refused::NothingBoots, 0)
}

// 60 to 70: the packages of all entries, the applications' own rules, the first partition.
fn check_rest(components: usize, first: bool, a: Applied) -> Refusal
    ensures { result ≡ faults.gathered_fault components first a }
{
    let own = parse::earlier(in_entry(parse::IN_APPLICATION, a.own), check_first(first));
    parse::earlier(check_uses(a.clash, components), own)
}

// The applications, then what rules refuse: those judged so far, and 60 to 70.
fn judge_applications(rooms: Rooms<'_>, p: Partitions, c: Gathered, rules: Refusal) -> Refusal
    requires { (p.count ≤ 32) × gathered.Few c }
    ensures { result ≡ on faults.applications_after rooms.entry p rules c }
{
    let l = parse::view::application_list(rooms);
    let a = gather::each_application(rooms, l, &p.items[..p.count], c);
    let b = parse::earlier(parse::in_section(parse::IN_APPLICATION, l.fault), a.fault);
    if b.number != 0 {
        return b;
    }
    if rules.number != 0 {
        return rules;
    }
    check_rest(c.count, c.first, a)
}

// 25, where a list has more entries than the components may have.
fn check_length(section: u32, n: usize) -> Refusal
    ensures { result ≡ faults.length_fault section n }
{
    if COMPONENTS < n {
        return refusal_in(section, Refused::TooManyEntries, COMPONENTS);
    }
    parse::refusal_at(0, 0, 0)
}

// The components, 50 to 59 beside the rules judged so far, and the applications.
fn judge_components(rooms: Rooms<'_>, p: Partitions, rules: Refusal) -> Refusal
    requires { p.count ≤ 32 }
    ensures { result ≡ on faults.components_after rooms.entry p rules }
{
    let l = parse::view::component_list(rooms);
    let n = tree::count_items(rooms.tree, l.end, l.place);
    let a = parse::earlier(
        parse::in_section(parse::IN_COMPONENT, l.fault),
        check_length(parse::IN_COMPONENT, n),
    );
    if a.number != 0 {
        return a;
    }
    let c = gather::each_component(rooms, l, &p.items[..p.count]);
    if c.fault.number != 0 {
        return c.fault;
    }
    let own = parse::earlier(rules, check_components(c.own, c.count));
    judge_applications(rooms, p, c, own)
}

// The partitions, 40 to 48 beside the rules judged so far, and the lists after them.
fn judge_partitions(rooms: Rooms<'_>, chip: Chip, rules: Refusal) -> Refusal
    ensures { result ≡ on faults.partitions_judged rooms.entry chip rules }
{
    let l = parse::view::partition_list(rooms);
    let p = parse::entry::read_partitions(rooms, l, PARTITIONS);
    let b = parse::earlier(parse::in_section(parse::IN_PARTITION, l.fault), p.fault);
    if b.number != 0 {
        return b;
    }
    let laid = layout::check_layout(rooms.store, &p.items[..p.count], chip);
    let own = parse::earlier(rules, in_entry(parse::IN_PARTITION, laid));
    judge_components(rooms, p, own)
}

// The first refusal of the records, then of the rules: each entry is read once, and what rules say of it waits for
// the last record.
pub fn judge_rules(rooms: Rooms<'_>, name: &[u8]) -> Refusal
    ensures { Told (on (validating name.now) rooms.entry) result }
{
    let root = rooms.fields_at(tree::ROOT);
    let f = parse::front::read_front(rooms, root, parse::lent_name(name));
    if f.fault.number != 0 {
        return f.fault;
    }
    let rules = front::check_front(rooms.store, name, f.board, f.image);
    judge_partitions(rooms, f.board.chip, rules)
}
