// Partitions on the flash: 40 to 48 over partitions and a chip, and lookup by name.

#![tactic(auto)]

ghost use Rattle.std.specs.Prelude.{◌≡◌, map, ◌≤◌, length, take};
ghost use Rattle.std.specs.List.{position, slice_get};
ghost use Rattle.meaning.specs.Base.{same};
ghost use Rattle.meaning.specs.Layout as meant;
ghost use Rattle.meaning.specs.Rules as rules;
ghost use Rattle.schema.specs.Words.{chip_meant};
ghost use Rattle.turns.specs.Marks.{at_entry, fault_of};
ghost use Rattle.layout.specs.Parts as parts;
ghost use Rattle.layout.specs.Parts.{part_meant, part_name, name_in, aim, bears, placed, OnBlocks};

use meaning::Refused;
use schema::{Chip, Partition, Text};
use turns::{EntryRefused, MOST_ENTRIES, Mark};

// No partition ends at or above this.
const ADDRESSES: u64 = 4294967296;

// 44 to 48: size 0; offset off the erase block; size off it; starts before the previous end; end at or above 2^32.
fn check_span(p: Partition, end: u64, block: u32) -> Result<(), Refused>
    requires { 1 ≤ block }
    ensures { result ≡ parts.span_checked block end p }
{
    if p.size == 0 {
        return Err(Refused::NoSize);
    }
    if p.offset % block != 0 {
        return Err(Refused::OffsetOffBlock);
    }
    if p.size % block != 0 {
        return Err(Refused::SizeOffBlock);
    }
    if (p.offset as u64) < end {
        return Err(Refused::Overlap);
    }
    if ADDRESSES <= end_of(p) {
        return Err(Refused::PastAddresses);
    }
    Ok(())
}

// The end is the sum, without wrap-around.
pub fn end_of(p: Partition) -> u64
    ensures { result ≡ parts.end_of p }
{
    p.offset as u64 + p.size as u64
}

// 42: empty name.
fn check_named(bytes: &[u8], p: Partition) -> Result<(), Refused>
    ensures { result ≡ parts.name_checked bytes.now p }
{
    if schema::stored(bytes, p.from, p.len).is_empty() {
        return Err(Refused::EmptyPartitionName);
    }
    Ok(())
}

fn mark_of(bytes: &[u8], p: Partition, end: u64, block: u32) -> Mark<Refused>
    requires { 1 ≤ block }
    ensures { result ≡ parts.mark_of bytes.now block end p }
{
    Mark {
        from: p.from,
        len: p.len,
        early: check_named(bytes, p),
        late: check_span(p, end, block),
    }
}

fn marks_of(bytes: &[u8], items: &[Partition], block: u32) -> [Mark<Refused>; MOST_ENTRIES]
    requires { OnBlocks (length items.now) block }
    ensures { take (length items.now) result ≡ parts.marks_from bytes.now block 0 items.now }
{
    let mut entries = turns::no_marks();
    let mut end = 0;
    for i in 0..items.len() {
        entries[i] = mark_of(bytes, items[i], end, block);
        end = end_of(items[i]);
    }
    entries
}

// 40 to 48: the layout of these partitions on a chip's flash; their names lie in some bytes.
pub fn check_layout(
    bytes: &[u8],
    items: &[Partition],
    chip: Chip,
) -> Result<(), EntryRefused<Refused>>
    requires { length items.now ≤ 32 }
    ensures { at_entry result ≡ fault_of
        (meant.layout (chip_meant chip) (map (part_meant bytes.now) items.now)) }
{
    if items.is_empty() {
        return Err(EntryRefused {
            refused: Refused::NoPartitions,
            place: 0,
        });
    }
    if items[0].offset != 0 {
        return Err(EntryRefused {
            refused: Refused::FirstNotAtZero,
            place: 0,
        });
    }
    let marks = marks_of(bytes, items, chip.erase_size());
    turns::judge_marks(bytes, &marks[..items.len()], Refused::PartitionTwice)
}

fn has_name(bytes: &[u8], p: Partition, name: &[u8]) -> bool
    ensures { result ≡ same name.now (parts.part_name bytes.now p) }
{
    slices::same_last_first(name, schema::stored(bytes, p.from, p.len))
}

// The first partition that bears a name.
pub fn find_partition(bytes: &[u8], items: &[Partition], name: &[u8]) -> Option<usize>
    ensures { result ≡ position (bears name.now bytes.now) items.now }
{
    items.iter().position(|p| has_name(bytes, *p, name))
}

// "A component's reference drops everything from the first `;` and is trimmed."
pub fn partition_name<'a>(s: &'a [u8]) -> &'a [u8]
    ensures { result.now ≡ rules.name_of s.now }
{
    let cut = &s[..slices::find(s, b';')];
    let part = chars::trim(cut);
    &cut[part.from..part.end]
}

// The name in a reference; or what was given, as it is.
fn name_in<'a>(s: &'a [u8], cut: bool) -> &'a [u8]
    ensures { result.now ≡ name_in cut s.now }
{
    if cut { partition_name(s) } else { s }
}

// The place of the partition that a text names, or refers to where it is to be cut.
pub fn find_named(store: &[u8], items: &[Partition], t: Text, cut: bool) -> Option<usize>
    ensures { result ≡ placed (length items.now)
        (aim cut store.now (map (part_name store.now) items.now) t) }
{
    match t {
        Text::Stored { from, len } => {
            let name = name_in(schema::stored(store, from, len), cut);
            find_partition(store, items, name)
        }
        Text::Fixed(w) => find_partition(store, items, name_in(w.bytes(), cut)),
        _ => None,
    }
}

// The same by what it is.
pub fn partition_named(store: &[u8], items: &[Partition], t: Text, cut: bool) -> Option<Partition>
    ensures { result ≡ slice_get items.now
        (aim cut store.now (map (part_name store.now) items.now) t) }
{
    let at = find_named(store, items, t, cut)?;
    Some(items[at])
}
