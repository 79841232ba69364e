// The board and the image, which share the chip.

ghost use Rattle.std.specs.Prelude.{◌≡◌};
ghost use Rattle.tree.specs.Doors.{Spread};
ghost use Rattle.parse.specs.Front as fronts;
ghost use Rattle.tree.specs.Both.{on};

use crate::Refusal;
use features::WRONG_KIND;
use schema::{Board, Chip, Image, Text, Word};
use tree::{Fields, Rooms, Value};

// A table of the root; without fields where it is absent.
#[derive(Clone, Copy)]
pub struct TableRead {
    pub fault: u32,
    pub fields: Fields,
}

#[derive(Clone, Copy)]
pub struct ChipFound {
    pub fault: Refusal,
    pub chip: Chip,
}

#[derive(Clone, Copy)]
pub struct BoardRead {
    pub fault: u32,
    pub board: Board,
}

#[derive(Clone, Copy)]
pub struct ImageNames {
    pub fault: u32,
    pub platform: Text,
    pub product: Text,
    pub version: Text,
}

#[derive(Clone, Copy)]
pub struct ImageRest {
    pub fault: u32,
    pub media_dev_id: u32,
    pub media_id: Text,
    pub app: Text,
}

#[derive(Clone, Copy)]
pub struct ImageRead {
    pub fault: u32,
    pub image: Image,
}

#[derive(Clone, Copy)]
pub struct Front {
    pub fault: Refusal,
    pub board: Board,
    pub image: Image,
}

pub fn no_table(fault: u32) -> TableRead
    ensures { result ≡ fronts.no_table fault }
{
    TableRead {
        fault,
        fields: Fields {
            place: 0,
            from: 0,
            to: 0,
        },
    }
}

pub fn table_at(rooms: Rooms<'_>, root: Fields, key: &[u8]) -> TableRead
    requires { Spread rooms.tree.now root }
    ensures { result ≡ on fronts.table_at rooms.entry root key.now }
{
    let v = rooms.field(root, key);
    match v {
        Value::Absent => no_table(0),
        Value::Table(place) => TableRead {
            fault: 0,
            fields: rooms.fields_at(place),
        },
        _ => no_table(WRONG_KIND),
    }
}

// The board's fault, then the image's.
fn sections(board: u32, image: u32) -> Refusal
    ensures { result ≡ fronts.sections board image }
{
    crate::earlier(
        crate::in_section(crate::IN_BOARD, board),
        crate::in_section(crate::IN_IMAGE, image),
    )
}

// The chip of a word in a section.
fn chip_word(store: &[u8], from: usize, len: usize, section: u32) -> ChipFound
    ensures { result ≡ fronts.chip_word store.now from len section }
{
    match Chip::parse(schema::stored(store, from, len)) {
        Ok(chip) => ChipFound {
            fault: crate::in_section(section, 0),
            chip,
        },
        Err(e) => ChipFound {
            fault: crate::in_section(section, e.number()),
            chip: Chip::D13x,
        },
    }
}

// The chip by the board's word, else by the image's; D13x where neither has one.
fn chosen(store: &[u8], c: Text, p: Text) -> ChipFound
    ensures { result ≡ fronts.chosen store.now c p }
{
    if let Text::Stored { from, len } = c {
        return chip_word(store, from, len, 1);
    }
    if let Text::Stored { from, len } = p {
        return chip_word(store, from, len, 2);
    }
    ChipFound {
        fault: crate::in_section(0, 0),
        chip: Chip::D13x,
    }
}

// Board `chip` and image `platform`, then the chip word.
pub fn chip_of(tree: &[u8], store: &[u8], board: Fields, image: Fields) -> ChipFound
    requires { Spread tree.now board × Spread tree.now image }
    ensures { result ≡ fronts.chip_of tree.now store.now board image }
{
    let c = crate::field::text(tree, store, board, b"chip");
    let p = crate::field::text(tree, store, image, b"platform");
    let ours = c.text;
    let theirs = p.text;
    let w = chosen(store, ours, theirs);
    let late = w.fault;
    let chip = w.chip;
    ChipFound {
        fault: crate::earlier(sections(c.fault, p.fault), late),
        chip,
    }
}

fn read_board(tree: &[u8], store: &[u8], f: Fields, chip: Chip, lent: Text) -> BoardRead
    requires { Spread tree.now f }
    ensures { result ≡ fronts.board_read tree.now store.now f chip lent }
{
    let name = crate::field::text(tree, store, f, b"name");
    let target = crate::field::text(tree, store, f, b"target");
    let profile = crate::field::text(tree, store, f, b"profile");
    BoardRead {
        fault: crate::field::first_fault(
            name.fault,
            crate::field::first_fault(target.fault, profile.fault),
        ),
        board: Board {
            name: name.or(lent),
            chip,
            target: target.or(Text::Fixed(chip.default_target())),
            profile: profile.or(Text::Fixed(Word::Release)),
        },
    }
}

// The texts of an image up to its media.
fn image_names(tree: &[u8], store: &[u8], f: Fields, chip: Chip) -> ImageNames
    requires { Spread tree.now f }
    ensures { result ≡ fronts.image_names tree.now store.now f chip }
{
    let platform = crate::field::text(tree, store, f, b"platform");
    let product = crate::field::text(tree, store, f, b"product");
    let version = crate::field::text(tree, store, f, b"version");
    ImageNames {
        fault: crate::field::first_fault(
            platform.fault,
            crate::field::first_fault(product.fault, version.fault),
        ),
        platform: platform.or(Text::Fixed(chip.name())),
        product: product.or(Text::Fixed(Word::Unknown)),
        version: version.or(Text::Fixed(Word::Version)),
    }
}

// What stands after an image's media.
fn image_rest(tree: &[u8], store: &[u8], f: Fields) -> ImageRest
    requires { Spread tree.now f }
    ensures { result ≡ fronts.image_rest tree.now store.now f }
{
    let dev = crate::field::number(tree, store, f, b"media_dev_id");
    let id = crate::field::text(tree, store, f, b"media_id");
    let app = crate::field::text(tree, store, f, b"app");
    ImageRest {
        fault: crate::field::first_fault(dev.fault, crate::field::first_fault(id.fault, app.fault)),
        media_dev_id: dev.or(0),
        media_id: id.or(Text::Stored { from: 0, len: 0 }),
        app: app.or(Text::Stored { from: 0, len: 0 }),
    }
}

fn read_image(tree: &[u8], store: &[u8], f: Fields, chip: Chip) -> ImageRead
    requires { Spread tree.now f }
    ensures { result ≡ fronts.image_read tree.now store.now f chip }
{
    let names = image_names(tree, store, f, chip);
    let kept = crate::field::media(tree, store, f, chip.default_media());
    let rest = image_rest(tree, store, f);
    let platform = names.platform;
    let product = names.product;
    let version = names.version;
    let media = kept.media;
    let id = rest.media_id;
    let app = rest.app;
    ImageRead {
        fault: crate::field::first_fault(
            names.fault,
            crate::field::first_fault(kept.fault, rest.fault),
        ),
        image: Image {
            platform,
            product,
            version,
            media,
            media_dev_id: rest.media_dev_id,
            media_id: id,
            app,
        },
    }
}

// The board and the image by their tables, which are told before their fields.
fn front_of(tree: &[u8], store: &[u8], b: TableRead, i: TableRead, lent: Text) -> Front
    requires { Spread tree.now b.fields × Spread tree.now i.fields }
    ensures { result ≡ fronts.front_of tree.now store.now b i lent }
{
    let c = chip_of(tree, store, b.fields, i.fields);
    let chip = c.chip;
    let found = c.fault;
    let board_read = read_board(tree, store, b.fields, chip, lent);
    let image_read = read_image(tree, store, i.fields, chip);
    let board = board_read.board;
    let image = image_read.image;
    let fields = crate::earlier(found, sections(board_read.fault, image_read.fault));
    Front {
        fault: crate::earlier(sections(b.fault, i.fault), fields),
        board,
        image,
    }
}

pub fn read_front(rooms: Rooms<'_>, root: Fields, lent: Text) -> Front
    requires { Spread rooms.tree.now root }
    ensures { result ≡ on fronts.front_read rooms.entry root lent }
{
    let b = table_at(rooms, root, b"board");
    let i = table_at(rooms, root, b"image");
    front_of(rooms.tree, rooms.store, b, i, lent)
}
