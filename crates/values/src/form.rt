// What a joined line is, told by its first and last bytes and its first `=` outside a string.

ghost use Rattle.std.specs.Prelude.{◌≡◌};
ghost use Rattle.meaning.specs.Document as meant;
ghost use Rattle.values.specs.Forms.{Formed};

// `[[..]]`, `[..]`, or an assignment whose `=` stands at a place.
#[derive(Clone, Copy)]
pub enum Form {
    Pushes,
    Heads,
    Sets(usize),
}

// `[[..]]`
fn is_array_header(l: &[u8]) -> bool
    ensures { result ≡ meant.array_header l.now }
{
    matches!(l, [b'[', b'[', .., b']', b']'])
}

// `[..]` not starting `[[`
fn is_table_header(l: &[u8]) -> bool
    ensures { result ≡ meant.table_header l.now }
{
    matches!(l, [b'[', .., b']']) && l[1] != b'['
}

// What the trimmed line l is, if it is a header or an assignment.
pub fn classify(l: &[u8]) -> Option<Form>
    ensures { Formed l.now result }
{
    if is_array_header(l) {
        return Some(Form::Pushes);
    }
    if is_table_header(l) {
        return Some(Form::Heads);
    }
    let at = text::find_outside(l, b'=');
    if at < l.len() {
        Some(Form::Sets(at))
    } else {
        None
    }
}
