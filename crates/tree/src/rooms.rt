// The two rooms that reading leaves, which are lent on together.

ghost use Rattle.std.specs.Prelude.{◌≡◌};
ghost use Rattle.tree.specs.Doors as doors;

use crate::{Fields, MOST_VALUES, Value};

// The tree room, the text store, and how many values were made.
#[derive(Clone, Copy)]
pub struct Rooms<'a> {
    pub tree: &'a [u8],
    pub store: &'a [u8],
    pub made: usize,
    ghost fits: { doors.Rooms tree.now made },
}

impl<'a> Rooms<'a> {
    ghost use Rattle.tree.specs.Both.{Opened};

    // Any two rooms: none where they do not hold so many values, or where those are more than reading ever makes.
    pub fn of(tree: &'a [u8], store: &'a [u8], made: usize) -> Option<Rooms<'a>>
        ensures { Opened tree.now store.now made result }
    {
        if crate::capacity(tree) < made || MOST_VALUES < made {
            return None;
        }
        Some(Rooms { tree, store, made })
    }

    // Where the children of a place stand.
    pub fn fields_at(self, place: u16) -> Fields
        ensures { result ≡ doors.fields_of self.entry.tree.now self.entry.made place }
    {
        crate::fields_at(self.tree, self.made, place)
    }

    // A table's field.
    pub fn field(self, table: Fields, key: &[u8]) -> Value
        requires { doors.Spread self.tree.now table }
        ensures { result ≡ doors.field self.entry.tree.now self.entry.store.now table key.now }
    {
        crate::field(self.tree, self.store, table, key)
    }

    // What value number n is.
    pub fn value_at(self, n: usize) -> Value
        requires { doors.Stood self.tree.now n }
        ensures { result ≡ doors.value_at self.entry.tree.now self.entry.store.now n }
    {
        crate::value_at(self.tree, self.store, n)
    }
}
