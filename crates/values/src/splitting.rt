// Where the items of an array end.

ghost use Rattle.std.specs.Prelude.{◌≡◌};
ghost use Rattle.meaning.specs.Values as meant;
ghost use Rattle.values.specs.Item.{Item};

use meaning::{Scan, StringState};

// Whether b separates two items.
fn separates(c: Scan, b: u8) -> bool
    ensures { result ≡ meant.separates? c b }
{
    text::equals_outside(b',', c.state, b) && c.opens == c.closes
}

// How many bytes stand before the first comma that separates items, or all of them.
pub fn item(s: &[u8]) -> usize
    ensures { Item s.now result }
{
    let mut scan = Scan {
        state: StringState::Outside,
        opens: 0,
        closes: 0,
    };
    for (i, b) in s.iter().enumerate() {
        if separates(scan, *b) {
            return i;
        }
        scan = text::step(scan, *b);
    }
    s.len()
}
