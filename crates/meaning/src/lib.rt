// The rules, as definitions that compute, in specs/; here the types, figures and refusals that they share with code.

#![tactic(auto)]

ghost use Rattle.std.specs.Prelude.{◌≡◌};
ghost use Rattle.meaning.specs.Limits as limits;
ghost use Rattle.meaning.specs.Numbered as numbers;

// 01, "Sizes": bytes of a text, values made, arrays inside one another, segments of a key, entries of the lists.
pub const TEXT_BYTES: usize = 32768;

pub const VALUES: usize = 2048;

pub const ARRAYS: usize = 16;

pub const SEGMENTS: usize = 16;

pub const PARTITIONS: usize = 32;

pub const COMPONENTS: usize = 64;

pub const APPLICATIONS: usize = 64;

pub const FEATURES: usize = 32;

// Bytes of the tree room that one value takes: "at a size per value fixed in docs/".
pub const VALUE_BYTES: usize = 32;

// Figures of that kind; 01's are one value of them.
#[derive(Clone, Copy)]
pub struct Limits {
    pub text: usize,
    pub values: usize,
    pub arrays: usize,
    pub segments: usize,
    pub partitions: usize,
    pub components: usize,
    pub applications: usize,
    pub features: usize,
}

// Where a byte stands: outside a string, inside one, or inside one and after a backslash.
#[derive(Clone, Copy, PartialEq, Eq)]
pub enum StringState {
    Outside,
    Inside,
    Escaped,
}

// What is carried along a line: the string state, and the brackets `[` and `]` outside strings.
#[derive(Clone, Copy)]
pub struct Scan {
    pub state: StringState,
    pub opens: usize,
    pub closes: usize,
}

// What a line is, joined so far: more `]` than `[`, still open, or whole.
#[derive(Clone, Copy, PartialEq, Eq)]
pub enum Fate {
    Over,
    Unended,
    Whole,
}

// An integer by sign and magnitude.
#[derive(Clone, Copy)]
pub struct Signed {
    pub neg: bool,
    pub mag: u64,
}

// Where a byte of a string stands: for itself, or after a backslash.
#[derive(Clone, Copy)]
pub enum StringByte {
    Plain,
    AfterBackslash,
}

// What a byte of a string does: ends it, announces an escape, stands for a byte, or is no escape.
#[derive(Clone, Copy)]
pub enum Act {
    End,
    Hold,
    Put(u8),
    Fault,
}

// What a preset is refused for, each by the number that 01 gives it.
#[derive(Clone, Copy, Debug, PartialEq, Eq)]
pub enum Refused {
    TextTooLong = 1,
    NotUtf8 = 2,
    ClosedTooOften = 3,
    NeverClosed = 4,
    NoForm = 5,
    NoKey = 6,
    MalformedKey = 7,
    BadEscape = 8,
    UnendedString = 9,
    AfterString = 10,
    UnendedArray = 11,
    NotAnInteger = 12,
    NotAnArray = 13,
    TooDeep = 14,
    TooManySegments = 15,
    TooManyValues = 16,
    RoomTooSmall = 17,
    WrongKind = 20,
    OutOfRange = 21,
    UnknownWord = 22,
    NotATable = 23,
    Missing = 24,
    TooManyEntries = 25,
    MediaNotTheChips = 30,
    PlatformNotTheChip = 31,
    EmptyProfile = 32,
    BootNameTooLong = 33,
    UnknownTarget = 34,
    TargetOfOtherWidth = 35,
    NoPartitions = 40,
    FirstNotAtZero = 41,
    EmptyPartitionName = 42,
    PartitionTwice = 43,
    NoSize = 44,
    OffsetOffBlock = 45,
    SizeOffBlock = 46,
    Overlap = 47,
    PastAddresses = 48,
    NoComponents = 50,
    ComponentTwice = 51,
    ComponentNameTooLong = 52,
    TwoSources = 53,
    NoSource = 54,
    TwoPbps = 55,
    UpdaterWithoutRam = 56,
    NoPartition = 57,
    UnknownPartition = 58,
    ReserveOffBlock = 59,
    FeaturesDiffer = 60,
    EmptyApplicationName = 61,
    ApplicationNameTooLong = 62,
    EmptyFilename = 63,
    ApplicationNowhere = 64,
    ApplicationTwice = 65,
    AddressOffWord = 66,
    LockedPartition = 67,
    NothingBoots = 70,
    NotDeclared = 80,
    NamedLikeComponent = 81,
}

impl Refused {
    pub fn number(self) -> u32
        ensures { result ≡ numbers.number self }
    {
        self as u32
    }
}

pub fn of01() -> Limits
    ensures { result ≡ limits.of01 }
{
    Limits {
        text: TEXT_BYTES,
        values: VALUES,
        arrays: ARRAYS,
        segments: SEGMENTS,
        partitions: PARTITIONS,
        components: COMPONENTS,
        applications: APPLICATIONS,
        features: FEATURES,
    }
}
