// Views of the records in the rooms that reading leaves. Total on any rooms: where there is no such record, `found`
// is 0 and all else too.

ghost use Rattle.std.specs.Prelude.{◌≡◌};
ghost use Rattle.parse.specs.Views as views;
ghost use Rattle.host.specs.Records as records;
ghost use Rattle.host.specs.Records.{Worded};
ghost use Rattle.tree.specs.Both.{on};

use features::Piece;
use meaning::FEATURES;
use parse::front::Front;
use schema::{Application, Chip, Component, Features, Kind, Media, Partition, Text, Word};
use tree::Rooms;

// A place of the tree room is below it.
const PLACES: usize = 65536;
// How many fixed words there are.
const WORDS: u32 = 17;

// Where a text's bytes are. kind 0: absent; 1: in the store; 2: the lent name; 3: a fixed word; 4: in the store,
// with `.aic` after them.
#[repr(C)]
#[derive(Clone, Copy)]
pub struct Bytes {
    pub kind: u32,
    pub word: u32,
    pub from: usize,
    pub len: usize,
}

// kind 0: absent; 1: a number.
#[repr(C)]
#[derive(Clone, Copy)]
pub struct Amount {
    pub kind: u32,
    pub number: u32,
}

// kind 0: none; 1: the words of len bytes of the store; 2: the items of the array at place `from`.
#[repr(C)]
#[derive(Clone, Copy)]
pub struct FeatureList {
    pub kind: u32,
    pub from: usize,
    pub len: usize,
}

// chip 1: d13x; 2: d21x.
#[repr(C)]
#[derive(Clone, Copy)]
pub struct BoardView {
    pub found: u32,
    pub chip: u32,
    pub name: Bytes,
    pub target: Bytes,
    pub profile: Bytes,
}

// media 1: spi-nor; 2: spi-nand.
#[repr(C)]
#[derive(Clone, Copy)]
pub struct ImageView {
    pub found: u32,
    pub media: u32,
    pub media_dev_id: u32,
    pub platform: Bytes,
    pub product: Bytes,
    pub version: Bytes,
    pub media_id: Bytes,
    pub app: Bytes,
}

// Its name is len bytes of the store. locked 0: open; 1: locked.
#[repr(C)]
#[derive(Clone, Copy)]
pub struct PartitionView {
    pub found: u32,
    pub offset: u32,
    pub size: u32,
    pub from: usize,
    pub len: usize,
    pub locked: u32,
}

// kind 1: app; 2: pbp; 3: raw.
#[repr(C)]
#[derive(Clone, Copy)]
pub struct HeadView {
    pub found: u32,
    pub kind: u32,
    pub name: Bytes,
    pub package: Bytes,
    pub bin: Bytes,
    pub file: Bytes,
    pub filename: Bytes,
}

#[repr(C)]
#[derive(Clone, Copy)]
pub struct RoleView {
    pub found: u32,
    pub features: FeatureList,
    pub pbp_features: FeatureList,
    pub partition: Bytes,
    pub attr: Bytes,
    pub target_attr: Bytes,
    pub target_filename: Bytes,
}

#[repr(C)]
#[derive(Clone, Copy)]
pub struct BootView {
    pub found: u32,
    pub updater: u32,
    pub ram: Amount,
    pub pbp: Bytes,
    pub pbp_package: Bytes,
    pub private: Bytes,
}

#[repr(C)]
#[derive(Clone, Copy)]
pub struct LoadView {
    pub found: u32,
    pub with_ext: u32,
    pub ext_reserve: u32,
    pub load_address: Amount,
    pub entry_point: Amount,
    pub entry_offset: Amount,
    pub header_version: Amount,
}

#[repr(C)]
#[derive(Clone, Copy)]
pub struct ApplicationView {
    pub found: u32,
    pub package: Bytes,
    pub name: Bytes,
    pub partition: Bytes,
    pub filename: Bytes,
    pub attr: Bytes,
    pub features: FeatureList,
    pub load_address: Amount,
    pub entry_offset: Amount,
}

// How many entries the lists have; of applications no more than 65 are counted.
#[repr(C)]
#[derive(Clone, Copy)]
pub struct Counts {
    pub partitions: usize,
    pub components: usize,
    pub applications: usize,
}

// found 1: an item of a feature list, len bytes of the store.
#[repr(C)]
#[derive(Clone, Copy)]
pub struct FeatureView {
    pub found: u32,
    pub from: usize,
    pub len: usize,
}

// The number of a word.
fn word_number(w: Word) -> u32
    ensures { result ≡ records.word_number w }
{
    match w {
        Word::Board => 1,
        Word::Release => 2,
        Word::Unknown => 3,
        Word::Version => 4,
        Word::Required => 5,
        Word::Optional => 6,
        Word::App => 7,
        Word::Component => 8,
        Word::D13x => 9,
        Word::D21x => 10,
        Word::Target13 => 11,
        Word::Target21 => 12,
        Word::SpiNor => 13,
        Word::SpiNand => 14,
        Word::Pbp => 15,
        Word::Raw => 16,
        Word::Aic => 17,
    }
}

pub fn bytes_of(t: Text) -> Bytes
    ensures { result ≡ records.bytes_of t }
{
    match t {
        Text::Absent => Bytes {
            kind: 0,
            word: 0,
            from: 0,
            len: 0,
        },
        Text::Stored { from, len } => Bytes {
            kind: 1,
            word: 0,
            from,
            len,
        },
        Text::Lent => Bytes {
            kind: 2,
            word: 0,
            from: 0,
            len: 0,
        },
        Text::Fixed(w) => Bytes {
            kind: 3,
            word: word_number(w),
            from: 0,
            len: 0,
        },
        Text::WithAic { from, len } => Bytes {
            kind: 4,
            word: 0,
            from,
            len,
        },
    }
}

fn amount_of(n: Option<u32>) -> Amount
    ensures { result ≡ records.amount_of n }
{
    match n {
        None => Amount { kind: 0, number: 0 },
        Some(m) => Amount { kind: 1, number: m },
    }
}

pub fn list_of(f: Features) -> FeatureList
    ensures { result ≡ records.list_of f }
{
    match f {
        Features::Absent => FeatureList {
            kind: 0,
            from: 0,
            len: 0,
        },
        Features::Words { from, len } => FeatureList { kind: 1, from, len },
        Features::Items(place) => FeatureList {
            kind: 2,
            from: place as usize,
            len: 0,
        },
    }
}

fn chip_number(c: Chip) -> u32
    ensures { result ≡ records.chip_number c }
{
    match c {
        Chip::D13x => 1,
        Chip::D21x => 2,
    }
}

fn media_number(m: Media) -> u32
    ensures { result ≡ records.media_number m }
{
    match m {
        Media::SpiNor => 1,
        Media::SpiNand => 2,
    }
}

fn kind_number(k: Kind) -> u32
    ensures { result ≡ records.kind_number k }
{
    match k {
        Kind::App => 1,
        Kind::Pbp => 2,
        Kind::Raw => 3,
    }
}

fn flag_number(b: bool) -> u32
    ensures { result ≡ records.flag_number b }
{
    if b {
        return 1;
    }
    0
}

fn front_at(rooms: Rooms<'_>, name: &[u8]) -> Front
    ensures { result ≡ on records.front rooms.entry name.now }
{
    let root = rooms.fields_at(tree::ROOT);
    parse::front::read_front(rooms, root, parse::lent_name(name))
}

fn no_board() -> BoardView
    ensures { result ≡ records.no_board }
{
    BoardView {
        found: 0,
        chip: 0,
        name: bytes_of(Text::Absent),
        target: bytes_of(Text::Absent),
        profile: bytes_of(Text::Absent),
    }
}

fn board_view(rooms: Rooms<'_>, lent: &[u8]) -> BoardView
    ensures { result ≡ on records.board_view rooms.entry lent.now }
{
    let f = front_at(rooms, lent);
    let fault = f.fault;
    if fault.number != 0 {
        return no_board();
    }
    let b = f.board;
    let chip = b.chip;
    let name = b.name;
    let target = b.target;
    let profile = b.profile;
    BoardView {
        found: 1,
        chip: chip_number(chip),
        name: bytes_of(name),
        target: bytes_of(target),
        profile: bytes_of(profile),
    }
}

// The board, whose name may be the lent one.
pub fn preset_board(tree: &[u8], store: &[u8], made: usize, name: &[u8]) -> BoardView
    ensures { result ≡ records.board_shown tree.now store.now made name.now }
{
    let Some(rooms) = Rooms::of(tree, store, made) else {
        return no_board();
    };
    board_view(rooms, name)
}

fn no_image() -> ImageView
    ensures { result ≡ records.no_image }
{
    ImageView {
        found: 0,
        media: 0,
        media_dev_id: 0,
        platform: bytes_of(Text::Absent),
        product: bytes_of(Text::Absent),
        version: bytes_of(Text::Absent),
        media_id: bytes_of(Text::Absent),
        app: bytes_of(Text::Absent),
    }
}

fn image_view(rooms: Rooms<'_>) -> ImageView
    ensures { result ≡ on records.image_view rooms.entry }
{
    let f = front_at(rooms, b"");
    let fault = f.fault;
    if fault.number != 0 {
        return no_image();
    }
    let i = f.image;
    let media = i.media;
    let platform = i.platform;
    let product = i.product;
    let version = i.version;
    let media_id = i.media_id;
    let app = i.app;
    ImageView {
        found: 1,
        media: media_number(media),
        media_dev_id: i.media_dev_id,
        platform: bytes_of(platform),
        product: bytes_of(product),
        version: bytes_of(version),
        media_id: bytes_of(media_id),
        app: bytes_of(app),
    }
}

pub fn preset_image(tree: &[u8], store: &[u8], made: usize) -> ImageView
    ensures { result ≡ records.image_shown tree.now store.now made }
{
    let Some(rooms) = Rooms::of(tree, store, made) else {
        return no_image();
    };
    image_view(rooms)
}

fn no_partition() -> PartitionView
    ensures { result ≡ records.no_partition }
{
    PartitionView {
        found: 0,
        offset: 0,
        size: 0,
        from: 0,
        len: 0,
        locked: 0,
    }
}

pub fn partition_of(f: Option<Partition>) -> PartitionView
    ensures { result ≡ records.partition_of f }
{
    match f {
        None => no_partition(),
        Some(p) => PartitionView {
            found: 1,
            offset: p.offset,
            size: p.size,
            from: p.from,
            len: p.len,
            locked: flag_number(p.locked),
        },
    }
}

// Partition number i.
pub fn preset_partition(tree: &[u8], store: &[u8], made: usize, i: usize) -> PartitionView
    ensures { result ≡ records.partition_shown tree.now store.now made i }
{
    let Some(rooms) = Rooms::of(tree, store, made) else {
        return no_partition();
    };
    partition_of(parse::view::partition(rooms, i))
}

// Component number i, where the rooms have one.
fn component(tree: &[u8], store: &[u8], made: usize, i: usize) -> Option<Component>
    ensures { result ≡ records.component tree.now store.now made i }
{
    let Some(rooms) = Rooms::of(tree, store, made) else {
        return None;
    };
    parse::view::component(rooms, i, FEATURES)
}

pub fn head_of(f: Option<Component>) -> HeadView
    ensures { result ≡ records.head_of f }
{
    match f {
        None => HeadView {
            found: 0,
            kind: 0,
            name: bytes_of(Text::Absent),
            package: bytes_of(Text::Absent),
            bin: bytes_of(Text::Absent),
            file: bytes_of(Text::Absent),
            filename: bytes_of(Text::Absent),
        },
        Some(c) => HeadView {
            found: 1,
            kind: kind_number(c.head.kind),
            name: bytes_of(c.head.name),
            package: bytes_of(c.head.package),
            bin: bytes_of(c.head.bin),
            file: bytes_of(c.head.file),
            filename: bytes_of(c.head.filename),
        },
    }
}

// What component number i is and what it is made from.
pub fn preset_component_head(tree: &[u8], store: &[u8], made: usize, i: usize) -> HeadView
    ensures { result ≡ records.head_of (records.component tree.now store.now made i) }
{
    head_of(component(tree, store, made, i))
}

pub fn role_of(f: Option<Component>) -> RoleView
    ensures { result ≡ records.role_of f }
{
    match f {
        None => RoleView {
            found: 0,
            features: list_of(Features::Absent),
            pbp_features: list_of(Features::Absent),
            partition: bytes_of(Text::Absent),
            attr: bytes_of(Text::Absent),
            target_attr: bytes_of(Text::Absent),
            target_filename: bytes_of(Text::Absent),
        },
        Some(c) => RoleView {
            found: 1,
            features: list_of(c.role.features),
            pbp_features: list_of(c.role.pbp_features),
            partition: bytes_of(c.role.partition),
            attr: bytes_of(c.role.attr),
            target_attr: bytes_of(c.role.target_attr),
            target_filename: bytes_of(c.role.target_filename),
        },
    }
}

// What it is built with and where it goes.
pub fn preset_component_role(tree: &[u8], store: &[u8], made: usize, i: usize) -> RoleView
    ensures { result ≡ records.role_of (records.component tree.now store.now made i) }
{
    role_of(component(tree, store, made, i))
}

pub fn boot_of(f: Option<Component>) -> BootView
    ensures { result ≡ records.boot_of f }
{
    match f {
        None => BootView {
            found: 0,
            updater: 0,
            ram: amount_of(None),
            pbp: bytes_of(Text::Absent),
            pbp_package: bytes_of(Text::Absent),
            private: bytes_of(Text::Absent),
        },
        Some(c) => BootView {
            found: 1,
            updater: flag_number(c.boot.updater),
            ram: amount_of(c.boot.ram),
            pbp: bytes_of(c.boot.pbp),
            pbp_package: bytes_of(c.boot.pbp_package),
            private: bytes_of(c.boot.private),
        },
    }
}

// What it does at boot.
pub fn preset_component_boot(tree: &[u8], store: &[u8], made: usize, i: usize) -> BootView
    ensures { result ≡ records.boot_of (records.component tree.now store.now made i) }
{
    boot_of(component(tree, store, made, i))
}

pub fn load_of(f: Option<Component>) -> LoadView
    ensures { result ≡ records.load_of f }
{
    match f {
        None => LoadView {
            found: 0,
            with_ext: 0,
            ext_reserve: 0,
            load_address: amount_of(None),
            entry_point: amount_of(None),
            entry_offset: amount_of(None),
            header_version: amount_of(None),
        },
        Some(c) => LoadView {
            found: 1,
            with_ext: flag_number(c.load.with_ext),
            ext_reserve: c.load.ext_reserve,
            load_address: amount_of(c.load.load_address),
            entry_point: amount_of(c.load.entry_point),
            entry_offset: amount_of(c.load.entry_offset),
            header_version: amount_of(c.load.header_version),
        },
    }
}

// How it is loaded.
pub fn preset_component_load(tree: &[u8], store: &[u8], made: usize, i: usize) -> LoadView
    ensures { result ≡ records.load_of (records.component tree.now store.now made i) }
{
    load_of(component(tree, store, made, i))
}

fn no_application() -> ApplicationView
    ensures { result ≡ records.no_application }
{
    ApplicationView {
        found: 0,
        package: bytes_of(Text::Absent),
        name: bytes_of(Text::Absent),
        partition: bytes_of(Text::Absent),
        filename: bytes_of(Text::Absent),
        attr: bytes_of(Text::Absent),
        features: list_of(Features::Absent),
        load_address: amount_of(None),
        entry_offset: amount_of(None),
    }
}

fn application_of(f: Option<Application>) -> ApplicationView
    ensures { result ≡ records.application_of f }
{
    match f {
        None => no_application(),
        Some(a) => ApplicationView {
            found: 1,
            package: bytes_of(a.package),
            name: bytes_of(a.name),
            partition: bytes_of(a.partition),
            filename: bytes_of(a.filename),
            attr: bytes_of(a.attr),
            features: list_of(a.features),
            load_address: amount_of(a.load_address),
            entry_offset: amount_of(a.entry_offset),
        },
    }
}

// Application number i, in byte order of key.
pub fn preset_application(tree: &[u8], store: &[u8], made: usize, i: usize) -> ApplicationView
    ensures { result ≡ records.application_shown tree.now store.now made i }
{
    let Some(rooms) = Rooms::of(tree, store, made) else {
        return no_application();
    };
    application_of(parse::view::application(rooms, i, FEATURES))
}

// How many entries the three lists have.
pub fn preset_counts(tree: &[u8], store: &[u8], made: usize) -> Counts
    ensures { result ≡ records.counts_of (views.counts_at tree.now store.now made) }
{
    let c = parse::view::counts_at(tree, store, made);
    Counts {
        partitions: c.partitions,
        components: c.components,
        applications: c.applications,
    }
}

// A feature list by its numbers.
fn features_by(kind: u32, from: usize, len: usize) -> Features
    ensures { result ≡ records.features_by kind from len }
{
    if kind == 1 {
        return Features::Words { from, len };
    }
    if kind == 2 {
        if from < PLACES {
            return Features::Items(from as u16);
        }
        return Features::Absent;
    }
    Features::Absent
}

fn last_item(begun: u32, last: usize, size: usize) -> Option<Piece>
    ensures { result ≡ records.last_item begun last size }
{
    (begun != 0).then_some(Piece {
        from: last,
        len: size,
    })
}

fn feature_of(f: Option<Piece>) -> FeatureView
    ensures { result ≡ records.feature_of f }
{
    match f {
        None => FeatureView {
            found: 0,
            from: 0,
            len: 0,
        },
        Some(p) => FeatureView {
            found: 1,
            from: p.from,
            len: p.len,
        },
    }
}

// The item of a feature list with the least bytes of all (begun 0), or with the least above size bytes of the store
// from last on.
pub fn preset_feature(
    tree: &[u8],
    store: &[u8],
    made: usize,
    kind: u32,
    from: usize,
    len: usize,
    begun: u32,
    last: usize,
    size: usize,
) -> FeatureView
    ensures { result ≡ records.feature_shown tree.now store.now made kind from len begun last
        size }
{
    let Some(rooms) = Rooms::of(tree, store, made) else {
        return feature_of(None);
    };
    let f = features_by(kind, from, len);
    feature_of(features::next_feature(rooms, f, last_item(begun, last, size)))
}

// The word of a number; the first of all where there is none.
fn word_by(n: u32) -> Word
    ensures { result ≡ records.word_by n }
{
    match n {
        2 => Word::Release,
        3 => Word::Unknown,
        4 => Word::Version,
        5 => Word::Required,
        6 => Word::Optional,
        7 => Word::App,
        8 => Word::Component,
        9 => Word::D13x,
        10 => Word::D21x,
        11 => Word::Target13,
        12 => Word::Target21,
        13 => Word::SpiNor,
        14 => Word::SpiNand,
        15 => Word::Pbp,
        16 => Word::Raw,
        17 => Word::Aic,
        _ => Word::Board,
    }
}

// Writes a word's bytes at the head of a room and zeros after them, and says how many; 0 where there is no such word
// or the room is shorter.
pub fn preset_word(word: u32, out: &mut [u8]) -> usize
    ensures { Worded word out.old out.new result }
{
    slices::zero(out);
    if word == 0 {
        return 0;
    }
    if WORDS < word {
        return 0;
    }
    let w = word_by(word);
    w.put(out)
}
