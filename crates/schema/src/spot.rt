// A text or a feature list by where it is, in few bytes, since tables of them are handed on.

ghost use Rattle.std.specs.Prelude.{◌≡◌};
ghost use Rattle.meaning.specs.Rules.{twice};
ghost use Rattle.schema.specs.Spots as spots;
ghost use Rattle.schema.specs.Spots.{spotted};

use crate::{Features, Text};

// Nothing; len bytes of the store from a place on; the items of the array at a place.
#[derive(Clone, Copy)]
pub enum Spot {
    Nothing,
    Bytes { from: u16, len: u16 },
    Items(u16),
}

impl Spot {
    // Some bytes of the store. No text there is longer than 65535 bytes, or begins further on.
    pub fn of_bytes(from: usize, len: usize) -> Spot
        ensures { result ≡ spots.bytes_spot from len }
    {
        Spot::Bytes {
            from: (from % 65536) as u16,
            len: (len % 65536) as u16,
        }
    }
}

impl From<Text> for Spot {
    ghost use Rattle.std.specs.Prelude.{◌≡◌};
    ghost use Rattle.schema.specs.Spots.{text_spot};

    ghost from_gives = { λ t s. s ≡ text_spot t };

    fn from(t: Text) -> Spot {
        match t {
            Text::Stored { from, len } => Spot::of_bytes(from, len),
            _ => Spot::Nothing,
        }
    }
}

impl From<Features> for Spot {
    ghost use Rattle.std.specs.Prelude.{◌≡◌};
    ghost use Rattle.schema.specs.Spots.{list_spot};

    ghost from_gives = { λ f s. s ≡ list_spot f };

    fn from(f: Features) -> Spot {
        match f {
            Features::Absent => Spot::Nothing,
            Features::Words { from, len } => Spot::of_bytes(from, len),
            Features::Items(place) => Spot::Items(place),
        }
    }
}

// The text at a spot.
impl From<Spot> for Text {
    ghost use Rattle.std.specs.Prelude.{◌≡◌};
    ghost use Rattle.schema.specs.Spots.{text_at};

    ghost from_gives = { λ s t. t ≡ text_at s };

    fn from(s: Spot) -> Text {
        match s {
            Spot::Bytes { from, len } => Text::Stored {
                from: from as usize,
                len: len as usize,
            },
            _ => Text::Absent,
        }
    }
}

// The feature list at a spot.
impl From<Spot> for Features {
    ghost use Rattle.std.specs.Prelude.{◌≡◌};
    ghost use Rattle.schema.specs.Spots.{list_at};

    ghost from_gives = { λ s f. f ≡ list_at s };

    fn from(s: Spot) -> Features {
        match s {
            Spot::Nothing => Features::Absent,
            Spot::Bytes { from, len } => Features::Words {
                from: from as usize,
                len: len as usize,
            },
            Spot::Items(place) => Features::Items(place),
        }
    }
}

// Whether texts stand at both, and have the same bytes. A part of its callers: full lists ask some 8,000 times.
#[inline(always)]
pub fn same_text(store: &[u8], p: Spot, q: Spot) -> bool
    ensures { result ≡ twice (spotted store.now p) (spotted store.now q) }
{
    match (p, q) {
        (
            Spot::Bytes { from, len },
            Spot::Bytes {
                from: at,
                len: long,
            },
        ) => {
            slices::same_last_first(
                crate::stored(store, from as usize, len as usize),
                crate::stored(store, at as usize, long as usize),
            )
        }
        _ => false,
    }
}
