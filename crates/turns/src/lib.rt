// Entries in turn, each against the names before it: the first fault among entries whose names must differ.

#![tactic(auto)]

ghost use Rattle.std.specs.Prelude.{◌≡◌};
ghost use Rattle.meaning.specs.Base.{same};
ghost use Rattle.turns.specs.Marks as marks;
ghost use Rattle.turns.specs.Marks.{named};

// How many entries the longest of the lists may have.
pub const MOST_ENTRIES: usize = meaning::COMPONENTS;

// What one entry's rules say: before the question whether an earlier entry has its name, which is len bytes from a
// place on, and after it. What they refuse for is a `meaning::Refused`, or a number.
#[derive(Clone, Copy)]
pub struct Mark<R> {
    pub from: usize,
    pub len: usize,
    pub early: Result<(), R>,
    pub late: Result<(), R>,
}

// What an entry is refused for, and which entry it is.
#[derive(Clone, Copy)]
pub struct EntryRefused<R> {
    pub refused: R,
    pub place: usize,
}

fn same_name<R: Copy>(bytes: &[u8], a: Mark<R>, b: Mark<R>) -> bool
    ensures { result ≡ same (named bytes.now a) (named bytes.now b) }
{
    let x = schema::stored(bytes, a.from, a.len);
    let y = schema::stored(bytes, b.from, b.len);
    slices::same_last_first(x, y)
}

// The first entry that has the name of an earlier one; as many as there are where there is none.
pub fn first_twin<R: Copy>(bytes: &[u8], entries: &[Mark<R>]) -> usize
    ensures { result ≡ marks.twin bytes.now entries.now }
{
    for i in 0..entries.len() {
        for j in 0..i {
            if same_name(bytes, entries[i], entries[j]) {
                return i;
            }
        }
    }
    entries.len()
}

// An entry by itself: its early rules, its name, its late rules.
fn check_entry<R: Copy>(m: Mark<R>, twin: bool, twice: R) -> Result<(), R>
    ensures { result ≡ marks.entry_checked twice twin m }
{
    m.early?;
    if twin {
        return Err(twice);
    }
    m.late
}

// The entries in turn, each against the names of those before it: the first with a fault, where one of them has the
// name of an earlier entry.
pub fn judge_marks<R: Copy>(
    bytes: &[u8],
    entries: &[Mark<R>],
    twice: R,
) -> Result<(), EntryRefused<R>>
    ensures { result ≡ marks.judged_by twice bytes.now entries.now }
{
    let twin = first_twin(bytes, entries);
    for place in 0..entries.len() {
        if let Err(refused) = check_entry(entries[place], place == twin, twice) {
            return Err(EntryRefused { refused, place });
        }
    }
    Ok(())
}

pub fn no_marks<R: Copy>() -> [Mark<R>; MOST_ENTRIES]
    ensures { result ≡ marks.no_marks }
{
    let blank = Mark {
        from: 0,
        len: 0,
        early: Ok(()),
        late: Ok(()),
    };
    [blank; MOST_ENTRIES]
}
