// The static library: what C calls. Each export calls the function of its name in `host` and promises what that does.

#![tactic(auto)]

mod documents;
mod listings;
mod plans;
mod presets;
mod records;
mod single_values;

ghost use Rattle.std.specs.Prelude.{◌≡◌};
ghost use Rattle.meaning.specs.Utf8 as utf8;
ghost use Rattle.meaning.specs.Quote as quotes;
ghost use Rattle.chars.specs.Trimmed.{Trimmed};
ghost use Rattle.text.specs.Walk as walk;
ghost use Rattle.host.specs.Text.{span_of, scanned, line_of, Exported};

use host::{Line, Lines, Scanned, Span};
use meaning::StringState;

// Where s lies without White_Space at both ends.
#[unsafe(no_mangle)]
pub extern "C" fn preset_text_trim(s: &[u8]) -> Span
    ensures { Trimmed s.now (span_of result) }
{
    host::preset_text_trim(s)
}

// Whether s is UTF-8.
#[unsafe(no_mangle)]
pub extern "C" fn preset_text_valid(s: &[u8]) -> bool
    ensures { result ≡ utf8.valid s.now }
{
    host::preset_text_valid(s)
}

// How many bytes of one physical line stand before its comment.
#[unsafe(no_mangle)]
pub extern "C" fn preset_text_kept(line: &[u8]) -> usize
    ensures { result ≡ quotes.up_to 35 StringState.Outside line.now }
{
    host::preset_text_kept(line)
}

// The string state and the brackets of s.
#[unsafe(no_mangle)]
pub extern "C" fn preset_text_scan(s: &[u8]) -> Scanned
    ensures { result ≡ scanned (quotes.scan quotes.fresh s.now) }
{
    host::preset_text_scan(s)
}

// The next joined line of a laid text, from a place between joined lines on; the first is 0, line 1.
#[unsafe(no_mangle)]
pub extern "C" fn preset_text_next(laid: &[u8], at: usize, line: u32) -> Line
    ensures { result ≡ line_of (walk.next laid.now at line) }
{
    host::preset_text_next(laid, at, line)
}

// Lays a text into the scratch and judges its joined lines. A refusal leaves the scratch all zero.
#[unsafe(no_mangle)]
pub extern "C" fn preset_text_lines(text: &[u8], scratch: &mut [u8]) -> Lines
    ensures { Exported text.now scratch.old scratch.new result }
{
    host::preset_text_lines(text, scratch)
}
