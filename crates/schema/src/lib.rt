// Chips, media and kinds with what belongs to them, and the records of a preset: a text field says where its bytes are.

#![tactic(auto)]

pub mod spot;

ghost use Rattle.std.specs.Prelude.{◌≡◌};
ghost use Rattle.meaning.specs.Base.{same};
ghost use Rattle.meaning.specs.Schema as meant;
ghost use Rattle.schema.specs.Words.{word, Stands, Put, chip_read, media_read, kind_read, chip_meant, media_meant};
ghost use Rattle.schema.specs.Words.{chip_word, media_word, kind_word, target_word, media_choice};
ghost use Rattle.schema.specs.Texts.{is_given, or_text, aic_of, start_of, length_of, clip};

use meaning::Refused;

// How many bytes a name may have.
pub const LONGEST_NAME: usize = 32;

// The words that a preset takes where its text has none, and those that it may name.
#[derive(Clone, Copy, PartialEq, Eq)]
pub enum Word {
    Board,
    Release,
    Unknown,
    Version,
    Required,
    Optional,
    App,
    Component,
    D13x,
    D21x,
    Target13,
    Target21,
    SpiNor,
    SpiNand,
    Pbp,
    Raw,
    Aic,
}

// Where a word stands among all words.
#[derive(Clone, Copy)]
pub struct Span {
    pub from: usize,
    pub to: usize,
}

impl Word {
    // All words, one after the other.
    pub const ALL: [u8; 152] =
        *b"boardreleaseunknown0.0.0mtd;requiredmtd;optionalappcomponent.bind13xd21xriscv32imafc-unknown-none-elfriscv64gc-unknown-none-elfspi-norspi-nandpbpraw.aic";

    pub fn span(self) -> Span
        ensures { Stands self result }
    {
        match self {
            Word::Board => Span { from: 0, to: 5 },
            Word::Release => Span { from: 5, to: 12 },
            Word::Unknown => Span { from: 12, to: 19 },
            Word::Version => Span { from: 19, to: 24 },
            Word::Required => Span { from: 24, to: 36 },
            Word::Optional => Span { from: 36, to: 48 },
            Word::App => Span { from: 48, to: 51 },
            Word::Component => Span { from: 51, to: 64 },
            Word::D13x => Span { from: 64, to: 68 },
            Word::D21x => Span { from: 68, to: 72 },
            Word::Target13 => Span { from: 72, to: 101 },
            Word::Target21 => Span { from: 101, to: 127 },
            Word::SpiNor => Span { from: 127, to: 134 },
            Word::SpiNand => Span { from: 134, to: 142 },
            Word::Pbp => Span { from: 142, to: 145 },
            Word::Raw => Span { from: 145, to: 148 },
            Word::Aic => Span { from: 148, to: 152 },
        }
    }

    // Its bytes. A match of strings would be a table of pointers, which a loader has to write.
    pub fn bytes(self) -> &'static [u8]
        ensures { result.now ≡ word self }
    {
        let all: &'static [u8; 152] = &Word::ALL;
        let Span { from, to } = self.span();
        &all[from..to]
    }

    // Whether it is these bytes.
    pub fn is(self, s: &[u8]) -> bool
        ensures { result ≡ same s.now (word self) }
    {
        slices::same(s, self.bytes())
    }

    // Writes it at the head of a room, and says how many bytes it has; 0 where the room is shorter.
    pub fn put(self, out: &mut [u8]) -> usize
        ensures { Put self out.old out.new result }
    {
        let w = self.bytes();
        if out.len() < w.len() {
            return 0;
        }
        slices::copy(w, out);
        w.len()
    }
}

#[derive(Clone, Copy, PartialEq, Eq)]
pub enum Chip {
    D13x,
    D21x,
}

#[derive(Clone, Copy, PartialEq, Eq)]
pub enum Media {
    SpiNor,
    SpiNand,
}

#[derive(Clone, Copy, PartialEq, Eq)]
pub enum Kind {
    App,
    Pbp,
    Raw,
}

impl Chip {
    pub fn parse(w: &[u8]) -> Result<Chip, Refused>
        ensures { result ≡ chip_read w.now }
    {
        if Word::D13x.is(w) {
            Ok(Chip::D13x)
        } else if Word::D21x.is(w) {
            Ok(Chip::D21x)
        } else {
            Err(Refused::UnknownWord)
        }
    }

    pub fn name(self) -> Word
        ensures { result ≡ chip_word self }
    {
        match self {
            Chip::D13x => Word::D13x,
            Chip::D21x => Word::D21x,
        }
    }

    pub fn default_target(self) -> Word
        ensures { result ≡ target_word self }
    {
        match self {
            Chip::D13x => Word::Target13,
            Chip::D21x => Word::Target21,
        }
    }

    pub fn default_media(self) -> Media
        ensures { result ≡ media_choice self }
    {
        match self {
            Chip::D13x => Media::SpiNor,
            Chip::D21x => Media::SpiNand,
        }
    }

    pub fn erase_size(self) -> u32
        ensures { result ≡ meant.erase_for (chip_meant self) }
    {
        self.default_media().erase_size()
    }
}

impl Media {
    pub const NOR_BLOCK: u32 = 4096;

    pub const NAND_BLOCK: u32 = 131072;

    pub fn parse(w: &[u8]) -> Result<Media, Refused>
        ensures { result ≡ media_read w.now }
    {
        if Word::SpiNor.is(w) {
            Ok(Media::SpiNor)
        } else if Word::SpiNand.is(w) {
            Ok(Media::SpiNand)
        } else {
            Err(Refused::UnknownWord)
        }
    }

    pub fn name(self) -> Word
        ensures { result ≡ media_word self }
    {
        match self {
            Media::SpiNor => Word::SpiNor,
            Media::SpiNand => Word::SpiNand,
        }
    }

    pub fn erase_size(self) -> u32
        ensures { result ≡ meant.erase (media_meant self) }
    {
        match self {
            Media::SpiNor => Media::NOR_BLOCK,
            Media::SpiNand => Media::NAND_BLOCK,
        }
    }
}

impl Kind {
    pub fn parse(w: &[u8]) -> Result<Kind, Refused>
        ensures { result ≡ kind_read w.now }
    {
        if Word::App.is(w) {
            Ok(Kind::App)
        } else if Word::Pbp.is(w) {
            Ok(Kind::Pbp)
        } else if Word::Raw.is(w) {
            Ok(Kind::Raw)
        } else {
            Err(Refused::UnknownWord)
        }
    }

    pub fn name(self) -> Word
        ensures { result ≡ kind_word self }
    {
        match self {
            Kind::App => Word::App,
            Kind::Pbp => Word::Pbp,
            Kind::Raw => Word::Raw,
        }
    }
}

// Where a text's bytes are: in the text store, the lent name of the board, a fixed word, or bytes of the store
// followed by `.aic`.
#[derive(Clone, Copy)]
pub enum Text {
    Absent,
    Stored { from: usize, len: usize },
    Lent,
    Fixed(Word),
    WithAic { from: usize, len: usize },
}

impl Text {
    pub fn is_given(self) -> bool
        ensures { result ≡ is_given self }
    {
        !matches!(self, Text::Absent)
    }

    pub fn or(self, d: Text) -> Text
        ensures { result ≡ or_text self d }
    {
        if self.is_given() { self } else { d }
    }

    // Where a stored text begins, and how many bytes it has.
    pub fn start(self) -> usize
        ensures { result ≡ start_of self }
    {
        match self {
            Text::Stored { from, .. } => from,
            _ => 0,
        }
    }

    pub fn length(self) -> usize
        ensures { result ≡ length_of self }
    {
        match self {
            Text::Stored { len, .. } => len,
            _ => 0,
        }
    }

    // A stored text followed by `.aic`.
    pub fn aic(self) -> Text
        ensures { result ≡ aic_of self }
    {
        match self {
            Text::Stored { from, len } => Text::WithAic { from, len },
            _ => Text::Absent,
        }
    }
}

// A part of the store; none where it runs past the end.
pub fn stored<'a>(store: &'a [u8], from: usize, len: usize) -> &'a [u8]
    ensures { result.now ≡ clip from len store.now }
{
    if from <= store.len() && len <= store.len() - from {
        &store[from..from + len]
    } else {
        &[]
    }
}

// A feature list is the value it was read from: the words of a stored text, or the items of an array.
#[derive(Clone, Copy)]
pub enum Features {
    Absent,
    Words { from: usize, len: usize },
    Items(u16),
}

#[derive(Clone, Copy)]
pub struct Board {
    pub name: Text,
    pub chip: Chip,
    pub target: Text,
    pub profile: Text,
}

#[derive(Clone, Copy)]
pub struct Image {
    pub platform: Text,
    pub product: Text,
    pub version: Text,
    pub media: Media,
    pub media_dev_id: u32,
    pub media_id: Text,
    pub app: Text,
}

// Its name is len bytes from a place of some lent bytes on. No application may lie in a locked one.
#[derive(Clone, Copy)]
pub struct Partition {
    pub from: usize,
    pub len: usize,
    pub offset: u32,
    pub size: u32,
    pub locked: bool,
}

#[derive(Clone, Copy)]
pub struct Head {
    pub kind: Kind,
    pub name: Text,
    pub package: Text,
    pub bin: Text,
    pub file: Text,
    pub filename: Text,
}

#[derive(Clone, Copy)]
pub struct Role {
    pub features: Features,
    pub pbp_features: Features,
    pub partition: Text,
    pub attr: Text,
    pub target_attr: Text,
    pub target_filename: Text,
}

#[derive(Clone, Copy)]
pub struct Boot {
    pub updater: bool,
    pub ram: Option<u32>,
    pub pbp: Text,
    pub pbp_package: Text,
    pub private: Text,
}

#[derive(Clone, Copy)]
pub struct Load {
    pub load_address: Option<u32>,
    pub entry_point: Option<u32>,
    pub entry_offset: Option<u32>,
    pub header_version: Option<u32>,
    pub with_ext: bool,
    pub ext_reserve: u32,
}

#[derive(Clone, Copy)]
pub struct Component {
    pub head: Head,
    pub role: Role,
    pub boot: Boot,
    pub load: Load,
}

#[derive(Clone, Copy)]
pub struct Application {
    pub package: Text,
    pub name: Text,
    pub partition: Text,
    pub filename: Text,
    pub attr: Text,
    pub features: Features,
    pub load_address: Option<u32>,
    pub entry_offset: Option<u32>,
}
