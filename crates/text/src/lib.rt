// From bytes to joined lines: comments cut, lines laid one after the other, brackets and quotes, refusals 1 to 4.

#![tactic(auto)]

ghost use Rattle.std.specs.Prelude.{true, ◌≡◌, ◌+◌, ◌≤◌, ◌<◌, length};
ghost use Rattle.meaning.specs.Quote as quotes;
ghost use Rattle.meaning.specs.Lines as meant;
ghost use Rattle.text.specs.Laid as lines;
ghost use Rattle.text.specs.Laid.{Begins, Fitting, Lays1, Lays, changed, all_bare, ended, over};
ghost use Rattle.text.specs.Walk as walk;
ghost use Rattle.text.specs.Answers.{Between, Checks, Roomy, Reads};
ghost use Rattle.text.specs.Runs as runs;
ghost use Rattle.text.specs.Runs.{Quiet, Run, StringEnd};
ghost use Rattle.text.specs.Parts.{Countable, Counts};

use meaning::{Fate, Limits, Refused, Scan, StringState};

// A place between joined lines of a laid text: an offset, and the number of the line there.
#[derive(Clone, Copy)]
pub struct Place {
    pub at: usize,
    pub line: usize,
}

// A line that is laid: how many bytes it takes of the text, and how many it has in the scratch.
#[derive(Clone, Copy)]
pub struct Piece {
    pub taken: usize,
    pub written: usize,
}

// A line that is counted: where its LF stands, and brackets and string state there.
#[derive(Clone, Copy)]
pub struct Counted {
    pub end: usize,
    pub count: Scan,
}

// How far a joined line reaches: where its last LF stands, and how many lines it joins.
#[derive(Clone, Copy)]
struct Extent {
    end: usize,
    lines: usize,
}

// A joined line of a laid text: where it lies, the number of its first line, and the place after it.
#[derive(Clone, Copy)]
pub struct JoinedLine {
    pub from: usize,
    pub end: usize,
    pub line: usize,
    pub next: Place,
}

// A text that is laid: how many joined lines it has, in how many bytes.
#[derive(Clone, Copy)]
pub struct Laid {
    pub lines: usize,
    pub used: usize,
}

// What a text is refused for, and the line where it is told, or 0.
#[derive(Clone, Copy, Debug, PartialEq, Eq)]
pub struct AtLine {
    pub refused: Refused,
    pub line: usize,
}

// The string state after a byte. It returns early, since one expression of this makes `string_end` a tenth slower.
fn state_after(state: StringState, b: u8) -> StringState
    ensures { result ≡ quotes.state_after state b }
{
    match state {
        StringState::Outside => {
            if b == b'"' {
                return StringState::Inside;
            }
            StringState::Outside
        }
        StringState::Inside => {
            if b == b'\\' {
                return StringState::Escaped;
            }
            if b == b'"' {
                return StringState::Outside;
            }
            StringState::Inside
        }
        StringState::Escaped => StringState::Inside,
    }
}

// Whether b is c, outside a string.
pub fn equals_outside(c: u8, state: StringState, b: u8) -> bool
    ensures { result ≡ quotes.equals_outside c state b }
{
    state == StringState::Outside && b == c
}

// n and, where b is c outside a string, one more.
fn tally(c: u8, state: StringState, b: u8, n: usize) -> usize
    requires { n < 18446744073709551615 }
    ensures { result ≡ quotes.tally c state b n }
{
    if equals_outside(c, state, b) {
        n + 1
    } else {
        n
    }
}

// The scan after one byte.
pub fn step(c: Scan, b: u8) -> Scan
    requires { (c.opens < 18446744073709551615) × (c.closes < 18446744073709551615) }
    ensures { result ≡ quotes.step c b }
{
    Scan {
        state: state_after(c.state, b),
        opens: tally(b'[', c.state, b, c.opens),
        closes: tally(b']', c.state, b, c.closes),
    }
}

// Bytes that a pass outside a string stops at, as bits at their numbers modulo 64: LF, `"`, `[` and `]`.
const OUTSIDE: u64 = 0x428000400;

// The same inside a string: LF, `"` and `\`.
const INSIDE: u64 = 0x410000400;

// Whether the bit of b's number modulo 64 is up.
fn marked(set: u64, b: u8) -> bool
    ensures { result ≡ runs.marked set b }
{
    (set >> (b % 64)) % 2 == 1
}

// Whether b is surely one that a pass may leave out: a few more share the bit of one that it stops at.
fn may_leave_out(state: StringState, b: u8) -> bool
    ensures { result ≡ true → Quiet state b }
{
    match state {
        StringState::Outside => !marked(OUTSIDE, b),
        StringState::Inside => !marked(INSIDE, b),
        StringState::Escaped => false,
    }
}

// How many bytes at the head of s a pass may leave out.
fn left_out(s: &[u8], state: StringState) -> usize
    ensures { Run state s.now result }
{
    for (i, b) in s.iter().enumerate() {
        if !may_leave_out(state, *b) {
            return i;
        }
    }
    s.len()
}

// A line starts outside strings, with no brackets.
const FRESH: Scan = Scan {
    state: StringState::Outside,
    opens: 0,
    closes: 0,
};

// The string state and the brackets outside strings of s.
pub fn scan(s: &[u8]) -> Scan
    ensures { result ≡ quotes.scan quotes.fresh s.now }
{
    let mut x = FRESH;
    for b in s {
        x = step(x, *b);
    }
    x
}

// How many bytes a string has from after its opening quote on, with the closing one; or all of them.
fn string_end(s: &[u8]) -> usize
    ensures { StringEnd s.now result }
{
    let mut state = StringState::Inside;
    for (i, b) in s.iter().enumerate() {
        state = state_after(state, *b);
        if state == StringState::Outside {
            return i + 1;
        }
    }
    s.len()
}

// How many bytes stand before the first c outside a string, or all of them.
pub fn find_outside(s: &[u8], c: u8) -> usize
    ensures { result ≡ quotes.up_to c StringState.Outside s.now }
{
    let mut i = 0;
    while i < s.len() && s[i] != c {
        i += if s[i] == b'"' {
            1 + string_end(&s[i + 1..])
        } else {
            1
        };
    }
    i
}

// What a line is, joined so far.
fn fate(c: Scan) -> Fate
    ensures { result ≡ meant.fate c }
{
    if c.opens < c.closes {
        Fate::Over
    } else if c.closes < c.opens || c.state != StringState::Outside {
        Fate::Unended
    } else {
        Fate::Whole
    }
}

// How many bytes the first line of s has without the CR of a CRLF, where n bytes stand before its LF or its end.
fn line_bytes(s: &[u8], n: usize) -> usize
    requires { n ≤ length s.now }
    ensures { Begins n s.now result }
{
    if n < s.len() && 0 < n && s[n - 1] == b'\r' {
        n - 1
    } else {
        n
    }
}

// How many bytes of a line stand before its comment, or all of them. Most lines have no `#`, and a search for one is
// quick.
fn before_comment(line: &[u8]) -> usize
    ensures { result ≡ quotes.up_to 35 StringState.Outside line.now }
{
    if slices::find(line, b'#') == line.len() {
        line.len()
    } else {
        find_outside(line, b'#')
    }
}

// Lays a line and an LF at the head of out.
fn put_line(line: &[u8], out: &mut [u8])
    requires { length line.now < length out.old }
    ensures { out.new ≡ over (ended line.now) out.old }
{
    slices::copy(line, out);
    out[line.len()] = b'\n';
}

// Lays the kept bytes of the first line of rest and an LF at the head of out.
fn lay_line(rest: &[u8], out: &mut [u8]) -> Piece
    requires { Fitting rest.now out.old }
    ensures { Lays1 rest.now out.old out.new result }
{
    let n = slices::find(rest, b'\n');
    let k = before_comment(&rest[..line_bytes(rest, n)]);
    put_line(&rest[..k], out);
    Piece {
        taken: (n + 1).min(rest.len()),
        written: k + 1,
    }
}

// Lays the kept bytes of every physical line, each followed by one LF, at the head of the scratch; how many bytes
// these are.
pub fn lay(text: &[u8], scratch: &mut [u8]) -> usize
    requires { length text.now < length scratch.old }
    ensures { Lays text.now scratch.old scratch.new result }
{
    let mut rest = text;
    let mut used = 0;
    while !rest.is_empty() {
        let p = lay_line(rest, &mut scratch[used..]);
        rest = &rest[p.taken..];
        used += p.written;
    }
    used
}

// 0 for a byte that stays as it is where lines are laid.
fn changed_when_laid(b: u8) -> u8
    ensures { result ≡ changed b }
{
    u8::from(matches!(b, b'#' | b'\r'))
}

// Whether there is no `#` and no CR: of all bytes together, since that takes many at once.
fn no_hash_no_cr(s: &[u8]) -> bool
    ensures { result ≡ all_bare s.now }
{
    s.iter()
        .fold(0, |changes, b| changes | changed_when_laid(*b))
        == 0
}

// Whether a text is empty, or ends in LF and has no `#` and no CR: then it is laid as it stands.
pub fn clean(s: &[u8]) -> bool
    ensures { result ≡ lines.clean s.now }
{
    s.is_empty() || (s[s.len() - 1] == b'\n' && no_hash_no_cr(s))
}

// What a text comes to that ends after the LFs of m - 1 lines.
fn ending(m: usize) -> Result<Option<Extent>, Refused>
    ensures { result ≡ walk.ending m }
{
    if m == 1 {
        Ok(None)
    } else {
        Err(Refused::NeverClosed)
    }
}

// Counts brackets and quotes of the line at a place onward from c, up to its LF or the end of s.
fn count_line(s: &[u8], at: usize, c: Scan) -> Counted
    requires { Countable s.now at c }
    ensures { Counts s.now at c result }
{
    let mut end = at;
    let mut count = c;
    while end < s.len() {
        end += left_out(&s[end..], count.state);
        if s.len() <= end || s[end] == b'\n' {
            break;
        }
        count = step(count, s[end]);
        end += 1;
    }
    Counted { end, count }
}

// What the joined line at the head of a laid text comes to: the count is carried from line to line, with the LF that
// joins them, so each byte is counted once.
fn join_line(s: &[u8]) -> Result<Option<Extent>, Refused>
    ensures { walk.Joined s.now result }
{
    let mut at = 0;
    let mut lines = 1;
    let mut carried = FRESH;
    while at < s.len() {
        let Counted { end, count } = count_line(s, at, carried);
        if s.len() <= end {
            break;
        }
        match fate(count) {
            Fate::Over => return Err(Refused::ClosedTooOften),
            Fate::Whole => return Ok(Some(Extent { end, lines })),
            Fate::Unended => {
                carried = step(count, b'\n');
                lines += 1;
                at = end + 1;
            }
        }
    }
    ending(lines)
}

// Whether a line that begins with b is surely not blank.
fn surely_not_blank(b: u8) -> bool
    ensures { result ≡ true → walk.Dark b }
{
    b' ' < b && b < 128
}

// Passes blank lines; where no line is left, to the end or to what is after the last LF.
fn skip(s: &[u8], at: usize, line: usize) -> Place
    requires { line < 4294967296 }
    ensures { walk.Skipped s.now at line result }
{
    let mut p = Place { at, line };
    while p.at < s.len() && !surely_not_blank(s[p.at]) {
        let end = p.at + slices::find(&s[p.at..], b'\n');
        if s.len() <= end {
            return Place {
                at: s.len(),
                line: p.line,
            };
        }
        if !chars::blank(&s[p.at..end]) {
            return p;
        }
        p = Place {
            at: end + 1,
            line: p.line + 1,
        };
    }
    p
}

// The next joined line of a laid text, from a place between joined lines on.
pub fn next_line(s: &[u8], at: usize, line: usize) -> Result<Option<JoinedLine>, AtLine>
    requires { line < 4294967296 }
    ensures { walk.Follows s.now at line result }
{
    let Place { at: from, line } = skip(s, at, line);
    if s.len() <= from {
        return Ok(None);
    }
    match join_line(&s[from..]) {
        Ok(None) => Ok(None),
        Ok(Some(joined)) => Ok(Some(JoinedLine {
            from,
            end: from + joined.end,
            line,
            next: Place {
                at: from + joined.end + 1,
                line: line + joined.lines,
            },
        })),
        Err(refused) => Err(AtLine { refused, line }),
    }
}

// 3 and 4 over a laid text from a place between joined lines on: how many joined lines it has, or the first fault.
pub fn check_joined(s: &[u8], at: usize, line: usize) -> Result<usize, AtLine>
    requires { Between s.now at line }
    ensures { Checks s.now at line result }
{
    let mut place = Place { at, line };
    let mut found = 0;
    while let Some(joined) = next_line(s, place.at, place.line)? {
        place = joined.next;
        found += 1;
    }
    Ok(found)
}

// 1, 2 and 17 are told of no line.
pub fn at_no_line(refused: Refused) -> AtLine
    ensures { result ≡ record { refused = refused; line = 0 } }
{
    AtLine { refused, line: 0 }
}

// Lays a text into the scratch and judges its joined lines: refusals 1 to 4 in their order.
pub fn lines(text: &[u8], scratch: &mut [u8], limits: Limits) -> Result<Laid, AtLine>
    requires { Roomy limits scratch.old }
    ensures { Reads limits text.now scratch.old scratch.new result }
{
    if limits.text < text.len() {
        return Err(at_no_line(Refused::TextTooLong));
    }
    if !chars::valid(text) {
        return Err(at_no_line(Refused::NotUtf8));
    }
    let used = lay(text, scratch);
    let lines = check_joined(&scratch[..used], 0, 1)?;
    Ok(Laid { lines, used })
}
