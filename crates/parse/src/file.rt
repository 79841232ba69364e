// A file's name: its last piece between slashes that is neither empty nor `.`; `..` gives none.

ghost use Rattle.std.specs.Prelude.{◌≡◌, ◌-◌, ◌≤◌, length, None};
ghost use Rattle.meaning.specs.Files as meant;
ghost use Rattle.parse.specs.File as files;
ghost use Rattle.parse.specs.File.{Ends, Inside, Placed};

use features::Piece;

// Where the piece from a place on ends: at a slash, or at the end.
fn piece_end(s: &[u8], at: usize) -> usize
    requires { at ≤ length s.now }
    ensures { Ends s.now at result }
{
    at + slices::find(&s[at..], b'/')
}

// Whether it is neither empty nor `.`.
fn is_piece(p: &[u8]) -> bool
    ensures { result ≡ meant.piece? p.now }
{
    if p.len() == 0 {
        return false;
    }
    if slices::same(p, b".") {
        return false;
    }
    true
}

// The piece from a place to an end where it is one, else the best so far.
fn closed(s: &[u8], best: Option<Piece>, at: usize, end: usize) -> Option<Piece>
    requires { Inside s.now best × (at ≤ end) × (end ≤ length s.now) }
    ensures { Placed s.now (files.closed s.now best at (end - at)) result }
{
    if is_piece(&s[at..end]) {
        return Some(Piece {
            from: at,
            len: end - at,
        });
    }
    best
}

// The last piece of a path.
fn last_piece(s: &[u8]) -> Option<Piece>
    ensures { Placed s.now (files.last_at s.now None 0 0 s.now) result }
{
    let mut best = None;
    let mut at = 0;
    while at < s.len() {
        let end = piece_end(s, at);
        best = closed(s, best, at, end);
        if s.len() <= end {
            return best;
        }
        at = end + 1;
    }
    best
}

// The file's name in a path.
pub fn file_name(s: &[u8]) -> Option<Piece>
    ensures { Placed s.now (files.file_at s.now) result }
{
    let p = last_piece(s)?;
    let to = p.from + p.len;
    if slices::same(&s[p.from..to], b"..") {
        return None;
    }
    Some(p)
}
