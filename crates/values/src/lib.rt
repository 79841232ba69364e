// From joined lines to the tree: values, headers and assignments into the two lent rooms.

#![tactic(auto)]

ghost use Rattle.std.specs.Prelude.{◌≡◌};

pub mod form;
pub mod grow;
pub mod splitting;
pub mod value;

use meaning::Refused;

// How many bytes of the store are used, and how many values are made.
#[derive(Clone, Copy)]
pub struct State {
    pub used: usize,
    pub made: usize,
}

// What a reader refuses its text for, and the state there.
#[derive(Clone, Copy)]
pub struct Stopped {
    pub refused: Refused,
    pub at: State,
}

// What goes on past a value tells the refusal alone.
impl From<Stopped> for Refused {
    ghost from_gives = { λ s r. r ≡ s.refused };

    fn from(s: Stopped) -> Refused {
        s.refused
    }
}
