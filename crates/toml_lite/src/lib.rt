// Whole documents into the two rooms, line by line.

#![tactic(auto)]

ghost use Rattle.std.specs.Prelude.{◌≡◌, true, ◌+◌, ◌<◌, length, Err};
ghost use Rattle.meaning.specs.Document as meant;
ghost use Rattle.meaning.specs.Space as space;
ghost use Rattle.meaning.specs.Base.{zeros};
ghost use Rattle.meaning.specs.Limits.{of01};
ghost use Rattle.meaning.specs.Numbered.{number};
ghost use Rattle.values.specs.Doc.{line_s, set_s, document_s};
ghost use Rattle.toml_lite.specs.Rooms.{progress_at, doc_of, hang_k, Taking, Hanging, Lined, whole_of};
ghost use Rattle.toml_lite.specs.Rooms.{AfterLine, fault_after, Told, Begun, Reads, Cleared, Ready, Standing};
ghost use Rattle.toml_lite.specs.Rooms.{Roomy, Empty, suffice, judged};

use meaning::{Limits, Refused, TEXT_BYTES};
use text::{AtLine, Place, at_no_line};
use values::State;
use values::form::Form;
use values::grow::{Here, assign, enter_path, push_path};
use values::value::Allowed;

// The longest text, and the LF that its last line may lack.
pub const SCRATCH_BYTES: usize = TEXT_BYTES + 1;
// The scratch of a short text: emptying a long one would take longer than reading the text.
const SHORT_SCRATCH_BYTES: usize = 4096;

// How far a text is read: the state of the rooms, and the place where assignments go.
#[derive(Clone, Copy)]
pub struct Progress {
    pub st: State,
    pub here: u16,
}

// Where a line came to, with so many bytes used and assignments going there.
fn progress_to(there: Here, used: usize, here: u16) -> Progress
    ensures { result ≡ progress_at there.made used here }
{
    Progress {
        st: State {
            used,
            made: there.made,
        },
        here,
    }
}

// A header `[..]`.
fn header(
    s: &[u8],
    store: &mut [u8],
    tree: &mut [u8],
    st: State,
    limits: Limits,
) -> Result<Progress, Refused>
    requires { Taking limits (length s.now) store.old tree.old st }
    ensures { Lined limits (length s.now) store.old tree.old store.new
        tree.new st
        (line_s limits (meant.heads s.now) (doc_of store.old tree.old st 1)) result }
{
    let key = scalar::key::put_key(s, store, st.used, limits.segments)?;
    let root = Here {
        made: st.made,
        limit: limits.values,
        place: tree::ROOT,
    };
    let there = enter_path(tree, store, root, key, st.used, key.n)?;
    Ok(progress_to(there, key.used, there.place))
}

// A header `[[..]]`.
fn header_item(
    s: &[u8],
    store: &mut [u8],
    tree: &mut [u8],
    st: State,
    limits: Limits,
) -> Result<Progress, Refused>
    requires { Taking limits (length s.now) store.old tree.old st }
    ensures { Lined limits (length s.now) store.old tree.old store.new
        tree.new st
        (line_s limits (meant.pushes s.now) (doc_of store.old tree.old st 1)) result }
{
    let key = scalar::key::put_key(s, store, st.used, limits.segments)?;
    let root = Here {
        made: st.made,
        limit: limits.values,
        place: tree::ROOT,
    };
    let there = push_path(tree, store, root, key, st.used)?;
    Ok(progress_to(there, key.used, there.place))
}

// Hangs value number n up under a key, from the place where assignments go.
fn hang_key(
    s: &[u8],
    store: &mut [u8],
    tree: &mut [u8],
    progress: Progress,
    n: usize,
    limits: Limits,
) -> Result<Progress, Refused>
    requires { Hanging limits (length s.now) store.old tree.old progress.st n }
    ensures { Lined limits (length s.now) store.old tree.old store.new
        tree.new progress.st (hang_k limits s.now n
        (doc_of store.old tree.old progress.st progress.here)) result }
{
    let st = progress.st;
    let key = scalar::key::put_key(s, store, st.used, limits.segments)?;
    let here = Here {
        made: st.made,
        limit: limits.values,
        place: progress.here,
    };
    let there = assign(tree, store, here, key, st.used, n)?;
    Ok(progress_to(there, key.used, progress.here))
}

// An assignment: 6, the value, then the key.
fn setting(
    k: &[u8],
    v: &[u8],
    store: &mut [u8],
    tree: &mut [u8],
    progress: Progress,
    limits: Limits,
) -> Result<Progress, Refused>
    requires { Taking limits (length k.now + length v.now) store.old tree.old progress.st }
    ensures { Lined limits (length k.now + length v.now) store.old
        tree.old store.new tree.new progress.st (set_s limits k.now
        v.now (doc_of store.old tree.old progress.st progress.here)) result }
{
    if k.is_empty() {
        return Err(Refused::NoKey);
    }
    let allowed = Allowed {
        values: limits.values,
        arrays: limits.arrays,
    };
    let st = values::value::value(v, store, tree, progress.st, 0, allowed)?;
    let next = Progress { st, ..progress };
    hang_key(k, store, tree, next, progress.st.made, limits)
}

// An assignment whose key may have white space around it.
fn assignment(
    k: &[u8],
    v: &[u8],
    store: &mut [u8],
    tree: &mut [u8],
    progress: Progress,
    limits: Limits,
) -> Result<Progress, Refused>
    requires { Taking limits (length k.now + length v.now) store.old tree.old progress.st }
    ensures { Lined limits (length k.now + length v.now) store.old
        tree.old store.new tree.new progress.st (line_s limits
        (meant.sets k.now v.now)
        (doc_of store.old tree.old progress.st progress.here)) result }
{
    let t = chars::trim(k);
    setting(&k[t.from..t.end], v, store, tree, progress, limits)
}

// A line without white space around it.
fn read_form(
    l: &[u8],
    store: &mut [u8],
    tree: &mut [u8],
    progress: Progress,
    limits: Limits,
) -> Result<Progress, Refused>
    requires { Taking limits (length l.now) store.old tree.old progress.st }
    ensures { Lined limits (length l.now) store.old tree.old store.new
        tree.new progress.st (line_s limits (meant.form l.now)
        (doc_of store.old tree.old progress.st progress.here)) result }
{
    let Some(form) = values::form::classify(l) else {
        return Err(Refused::NoForm);
    };
    match form {
        Form::Pushes => header_item(&l[2..l.len() - 2], store, tree, progress.st, limits),
        Form::Heads => header(&l[1..l.len() - 1], store, tree, progress.st, limits),
        Form::Sets(at) => assignment(&l[..at], &l[at + 1..], store, tree, progress, limits),
    }
}

// One joined line.
pub fn read_line(
    l: &[u8],
    store: &mut [u8],
    tree: &mut [u8],
    progress: Progress,
    limits: Limits,
) -> Result<Progress, Refused>
    requires { Taking limits (length l.now) store.old tree.old progress.st }
    ensures { Lined limits (length l.now) store.old tree.old store.new
        tree.new progress.st (line_s limits (meant.form (space.trim l.now))
        (doc_of store.old tree.old progress.st progress.here)) result }
{
    let t = chars::trim(l);
    read_form(&l[t.from..t.end], store, tree, progress, limits)
}

// A refused line: 3 and 4 come before it, wherever they stand, so the lines after it are checked for them.
fn first_fault(s: &[u8], next: Place, fault: AtLine) -> AtLine
    requires { AfterLine s.now next fault.line }
    ensures { Told (length s.now) (fault_after s.now next (number fault.refused) fault.line) (Err result) }
{
    match text::check_joined(s, next.at, next.line) {
        Ok(_) => fault,
        Err(sooner) => sooner,
    }
}

// All joined lines of a laid text.
pub fn read_lines(
    s: &[u8],
    store: &mut [u8],
    tree: &mut [u8],
    limits: Limits,
) -> Result<State, AtLine>
    requires { Begun limits s.now store.old tree.old }
    ensures { Reads limits (length s.now) store.old tree.old store.new
        tree.new (whole_of limits s.now) result }
{
    let mut place = Place { at: 0, line: 1 };
    let mut progress = Progress {
        st: State { used: 0, made: 0 },
        here: tree::ROOT,
    };
    while let Some(l) = text::next_line(s, place.at, place.line)? {
        match read_line(&s[l.from..l.end], store, tree, progress, limits) {
            Ok(after) => progress = after,
            Err(refused) => {
                let fault = AtLine {
                    refused,
                    line: l.line,
                };
                return Err(first_fault(s, l.next, fault));
            }
        }
        place = l.next;
    }
    Ok(progress.st)
}

// The same, with both rooms zeroed where a line is refused.
pub fn read_laid(
    s: &[u8],
    store: &mut [u8],
    tree: &mut [u8],
    limits: Limits,
) -> Result<State, AtLine>
    requires { Begun limits s.now store.old tree.old }
    ensures { Cleared store.old tree.old store.new tree.new
        (whole_of limits s.now) result }
{
    let read = read_lines(s, store, tree, limits);
    if read.is_err() {
        slices::zero(store);
        slices::zero(tree);
    }
    read
}

// A text for which both rooms, which hold zeros, are large enough: 1, 2, then its lines.
fn read_text(
    text: &[u8],
    scratch: &mut [u8],
    store: &mut [u8],
    tree: &mut [u8],
    limits: Limits,
) -> Result<State, AtLine>
    requires { Ready limits (length text.now) scratch.old store.old tree.old }
    ensures { Cleared store.old tree.old store.new tree.new
        (document_s limits text.now) result }
{
    if limits.text < text.len() {
        return Err(at_no_line(Refused::TextTooLong));
    }
    if !chars::valid(text) {
        return Err(at_no_line(Refused::NotUtf8));
    }
    let used = text::lay(text, scratch);
    read_laid(&scratch[..used], store, tree, limits)
}

// A short text within 01's limits, laid into a short scratch.
fn read_short(text: &[u8], store: &mut [u8], tree: &mut [u8]) -> Result<State, AtLine>
    requires { Roomy store.old tree.old × (length text.now < 4096) }
    ensures { Cleared store.old tree.old store.new tree.new
        (document_s of01 text.now) result }
{
    let mut scratch = [0u8; SHORT_SCRATCH_BYTES];
    read_text(text, &mut scratch, store, tree, meaning::of01())
}

// Any text within 01's limits.
fn read_long(text: &[u8], store: &mut [u8], tree: &mut [u8]) -> Result<State, AtLine>
    requires { Roomy store.old tree.old }
    ensures { Cleared store.old tree.old store.new tree.new
        (document_s of01 text.now) result }
{
    let mut scratch = [0u8; SCRATCH_BYTES];
    read_text(text, &mut scratch, store, tree, meaning::of01())
}

// Whether a text is within 01's limit, and needs no scratch since it is laid as it stands.
fn stands(text: &[u8]) -> bool
    ensures { result ≡ true → Standing text.now }
{
    text.len() <= TEXT_BYTES && text::clean(text) && chars::valid(text)
}

// Such a text: its lines.
fn read_standing(text: &[u8], store: &mut [u8], tree: &mut [u8]) -> Result<State, AtLine>
    requires { Roomy store.old tree.old × Standing text.now }
    ensures { Cleared store.old tree.old store.new tree.new
        (document_s of01 text.now) result }
{
    read_laid(text, store, tree, meaning::of01())
}

fn read_roomy(text: &[u8], store: &mut [u8], tree: &mut [u8]) -> Result<State, AtLine>
    requires { Roomy store.old tree.old }
    ensures { Cleared store.old tree.old store.new tree.new
        (document_s of01 text.now) result }
{
    if stands(text) {
        return read_standing(text, store, tree);
    }
    if text.len() < SHORT_SCRATCH_BYTES {
        return read_short(text, store, tree);
    }
    read_long(text, store, tree)
}

// Whether both rooms take every text within 01's limits, by their lengths alone.
pub fn rooms_suffice(store: &[u8], tree: &[u8]) -> bool
    ensures { result ≡ suffice (length store.now) (length tree.now) }
{
    TEXT_BYTES <= store.len() && meaning::VALUES <= tree::capacity(tree)
}

// A text into empty rooms: 17 first.
fn read_empty(text: &[u8], store: &mut [u8], tree: &mut [u8]) -> Result<State, AtLine>
    requires { Empty store.old tree.old }
    ensures { Cleared store.old tree.old store.new tree.new
        (judged text.now (length store.old) (length tree.old)) result }
{
    if rooms_suffice(store, tree) {
        return read_roomy(text, store, tree);
    }
    Err(at_no_line(Refused::RoomTooSmall))
}

// A text into both rooms, whatever they hold.
pub fn read_tree(text: &[u8], store: &mut [u8], tree: &mut [u8]) -> Result<State, AtLine>
    ensures { Cleared (zeros (length store.old)) (zeros (length tree.old))
        store.new tree.new
        (judged text.now (length store.old) (length tree.old)) result }
{
    slices::zero(store);
    slices::zero(tree);
    read_empty(text, store, tree)
}
