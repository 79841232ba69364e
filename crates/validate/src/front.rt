// 30 to 35: the board and the image.

ghost use Rattle.std.specs.Prelude.{◌≡◌};
ghost use Rattle.meaning.specs.Numbered.{told};
ghost use Rattle.meaning.specs.Rules as meant;
ghost use Rattle.schema.specs.Words.{chip_meant};
ghost use Rattle.validate.specs.Fronts as fronts;
ghost use Rattle.schema.specs.Texts.{spelled};
ghost use Rattle.validate.specs.Fronts.{Plain, Fronted, sized, chip_if};

use crate::refusal_in;
use meaning::Refused;
use parse::Refusal;
use schema::{Board, Chip, Image, LONGEST_NAME, Text};

// The bytes of a text.
fn bytes_of<'a>(store: &'a [u8], name: &'a [u8], t: Text) -> &'a [u8]
    requires { Plain t }
    ensures { result.now ≡ spelled store.now name.now t }
{
    match t {
        Text::Stored { from, len } => schema::stored(store, from, len),
        Text::Lent => name,
        Text::Fixed(w) => w.bytes(),
        _ => &[],
    }
}

// How many bytes a text has.
pub fn size(store: &[u8], name: &[u8], t: Text) -> usize
    requires { Plain t }
    ensures { result ≡ sized store.now name.now t }
{
    bytes_of(store, name, t).len()
}

// Whether w stands somewhere in s.
fn holds(w: &[u8], s: &[u8]) -> bool
    ensures { result ≡ meant.holds w.now s.now }
{
    for i in 0..s.len() {
        if s[i..].starts_with(w) {
            return true;
        }
    }
    w.is_empty()
}

// The chip of a target's width; "`riscv32` counts first".
fn chip_for(target: &[u8]) -> Option<Chip>
    ensures { chip_if result ≡ meant.chip_for target.now }
{
    if holds(b"riscv32", target) {
        return Some(Chip::D13x);
    }
    if holds(b"riscv64", target) {
        return Some(Chip::D21x);
    }
    None
}

// 34, 35: neither `riscv32` nor `riscv64`; the wrong width for the chip.
fn check_width(chip: Chip, target: &[u8]) -> Result<(), Refused>
    ensures { told result ≡ meant.width_fault (chip_meant chip) (meant.chip_for target.now) }
{
    match chip_for(target) {
        None => Err(Refused::UnknownTarget),
        Some(c) if c == chip => Ok(()),
        Some(_) => Err(Refused::TargetOfOtherWidth),
    }
}

// 30, 31: media not the chip's; platform not the chip's name.
fn check_device(store: &[u8], name: &[u8], chip: Chip, i: Image) -> Result<(), Refused>
    requires { Plain i.platform }
    ensures { told result ≡ fronts.device_fault store.now name.now chip i }
{
    if chip.default_media() != i.media {
        return Err(Refused::MediaNotTheChips);
    }
    if !chip.name().is(bytes_of(store, name, i.platform)) {
        return Err(Refused::PlatformNotTheChip);
    }
    Ok(())
}

// 30 to 35, in their order: 30, 31 and 33 of the image, 32, 34 and 35 of the board.
pub fn check_front(store: &[u8], name: &[u8], b: Board, i: Image) -> Refusal
    requires { Fronted b i }
    ensures { result ≡ fronts.ruled store.now name.now b i }
{
    if let Err(refused) = check_device(store, name, b.chip, i) {
        return refusal_in(parse::IN_IMAGE, refused, 0);
    }
    if bytes_of(store, name, b.profile).is_empty() {
        return refusal_in(parse::IN_BOARD, Refused::EmptyProfile, 0);
    }
    if LONGEST_NAME < size(store, name, i.app) {
        return refusal_in(parse::IN_IMAGE, Refused::BootNameTooLong, 0);
    }
    if let Err(refused) = check_width(b.chip, bytes_of(store, name, b.target)) {
        return refusal_in(parse::IN_BOARD, refused, 0);
    }
    parse::refusal_at(0, 0, 0)
}
