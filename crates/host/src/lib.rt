// The boundary for hosts: what C and Rust call, through the exports of `host_c`. No function of theirs has a `requires`.

#![tactic(auto)]

mod documents;
mod listings;
mod plans;
mod presets;
mod records;
mod single_values;

ghost use Rattle.std.specs.Prelude.{◌≡◌};
ghost use Rattle.meaning.specs.Utf8 as utf8;
ghost use Rattle.meaning.specs.Quote as quotes;
ghost use Rattle.chars.specs.Trimmed.{Trimmed};
ghost use Rattle.text.specs.Walk as walk;
ghost use Rattle.host.specs.Text.{span_of, state_number, scanned, refused_at, no_line, line_of, Exported};

pub use documents::{
    At, Outcome, document_read, preset_tree_child, preset_tree_find, preset_tree_next,
    preset_value_size,
};
pub use listings::{Listed, preset_listing};
use meaning::StringState;
pub use plans::{
    BuildView, PlanCounts, SourceView, preset_plan, preset_plan_boot, preset_plan_build,
    preset_plan_counts, preset_plan_head, preset_plan_load, preset_plan_partition, preset_plan_pbp,
    preset_plan_role, preset_plan_source, preset_plan_stem,
};
pub use presets::{preset_read, preset_validate};
pub use records::{
    Amount, ApplicationView, BoardView, BootView, Bytes, Counts, FeatureList, FeatureView,
    HeadView, ImageView, LoadView, PartitionView, RoleView, preset_application, preset_board,
    preset_component_boot, preset_component_head, preset_component_load, preset_component_role,
    preset_counts, preset_feature, preset_image, preset_partition, preset_word,
};
pub use single_values::{
    Number, Segments, Spelling, Value, ValueRead, preset_tree_slot, preset_value_int,
    preset_value_key, preset_value_key_end, preset_value_read, preset_value_string,
};

// A part of a byte string, by its first byte and the byte after its last.
#[repr(C)]
#[derive(Clone, Copy)]
pub struct Span {
    pub from: usize,
    pub end: usize,
}

// The string state after a text (0 outside a string, 1 inside, 2 after a backslash inside) and the brackets outside
// strings.
#[repr(C)]
#[derive(Clone, Copy)]
pub struct Scanned {
    pub state: u8,
    pub opens: usize,
    pub closes: usize,
}

// number 0: accepted, with this many joined lines in this many bytes of scratch; else 01's number, section and place.
#[repr(C)]
#[derive(Clone, Copy)]
pub struct Lines {
    pub number: u32,
    pub section: u32,
    pub place: u32,
    pub lines: u32,
    pub used: usize,
}

// kind 0: no line is left; 1: the joined line from..end of number line, and the place after it; 3 or 4: that refusal
// at line.
#[repr(C)]
#[derive(Clone, Copy)]
pub struct Line {
    pub kind: u32,
    pub line: usize,
    pub from: usize,
    pub end: usize,
    pub next: usize,
    pub next_line: usize,
}

// Where s lies without White_Space at both ends.
pub fn preset_text_trim(s: &[u8]) -> Span
    ensures { Trimmed s.now (span_of result) }
{
    let t = chars::trim(s);
    Span {
        from: t.from,
        end: t.end,
    }
}

// Whether s is UTF-8.
pub fn preset_text_valid(s: &[u8]) -> bool
    ensures { result ≡ utf8.valid s.now }
{
    chars::valid(s)
}

// How many bytes of one physical line stand before its comment.
pub fn preset_text_kept(line: &[u8]) -> usize
    ensures { result ≡ quotes.up_to 35 StringState.Outside line.now }
{
    text::find_outside(line, b'#')
}

// The number of a string state: 0 outside a string, 1 inside, 2 inside and after a backslash.
fn state_number(state: StringState) -> u8
    ensures { result ≡ state_number state }
{
    match state {
        StringState::Outside => 0,
        StringState::Inside => 1,
        StringState::Escaped => 2,
    }
}

// The string state and the brackets of s.
pub fn preset_text_scan(s: &[u8]) -> Scanned
    ensures { result ≡ scanned (quotes.scan quotes.fresh s.now) }
{
    let c = text::scan(s);
    let state = c.state;
    Scanned {
        state: state_number(state),
        opens: c.opens,
        closes: c.closes,
    }
}

// There is no line, for the reason that the kind tells.
fn no_line(kind: u32, line: usize) -> Line
    ensures { result ≡ no_line kind line }
{
    Line {
        kind,
        line,
        from: 0,
        end: 0,
        next: 0,
        next_line: 0,
    }
}

// The next joined line of a laid text, from a place between joined lines on; the first is 0, line 1.
pub fn preset_text_next(laid: &[u8], at: usize, line: u32) -> Line
    ensures { result ≡ line_of (walk.next laid.now at line) }
{
    match text::next_line(laid, at, line as usize) {
        Ok(None) => no_line(0, 0),
        Ok(Some(l)) => Line {
            kind: 1,
            line: l.line,
            from: l.from,
            end: l.end,
            next: l.next.at,
            next_line: l.next.line,
        },
        Err(u) => no_line(u.refused.number(), u.line),
    }
}

fn refused_lines(number: u32, place: u32) -> Lines
    ensures { result ≡ refused_at number place }
{
    Lines {
        number,
        section: 0,
        place,
        lines: 0,
        used: 0,
    }
}

// Lays a text into the scratch and judges its joined lines. A refusal leaves the scratch all zero.
pub fn preset_text_lines(text: &[u8], scratch: &mut [u8]) -> Lines
    ensures { Exported text.now scratch.old scratch.new result }
{
    slices::zero(scratch);
    if scratch.len() < toml_lite::SCRATCH_BYTES {
        return refused_lines(17, 0);
    }
    match text::lines(text, scratch, meaning::of01()) {
        Ok(laid) => Lines {
            number: 0,
            section: 0,
            place: 0,
            lines: laid.lines as u32,
            used: laid.used,
        },
        Err(u) => {
            slices::zero(scratch);
            refused_lines(u.refused.number(), u.line as u32)
        }
    }
}
