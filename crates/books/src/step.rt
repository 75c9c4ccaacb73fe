// The steps of the house books: their kinds, which the first byte tells apart, and how they are read from bytes.
ghost use Rattle.std.specs.Prelude.{◌≡◌, ◌+◌, length};
ghost use Rattle.books.specs.House.{plain, kind, kind_width, parsed, owned_kind, owned_width, plainly, owned_step};

use crate::faults::Misfit;
use crate::{byte_at, frame, two_bytes};

// A decoded step of the house books. Cases with a set borrow the eight bytes of the step; the others hold plain numbers.
#[derive(Clone, Copy, Debug, PartialEq, Eq)]
pub enum Step<'a> {
    DropDominated(u8, u8),
    DropMultiple(u8, u8, u16),
    DropComposed(u8, u8, u8),
    DropDraining(u8),
    DropStarved(u8, u8),
    KeepSourceless(u8),
    RemovePlentiful(u8),
    RemoveImplied(u8, u8, u16),
    DropSiphon(&'a [u8; 8]),
    LimitTo(&'a [u8; 8]),
    PostAgglomerate(u8),
    PreAgglomerate(u8),
    FreeAgglomerate(u8),
    FireAhead(u8, u16),
    FusePlaces(u8, u8, u8, u8),
}

// The kinds of steps, which are known from the first byte alone, before there are operands.
#[derive(Clone, Copy, Debug, PartialEq, Eq)]
pub enum Kind {
    DropDominated,
    DropMultiple,
    DropComposed,
    DropDraining,
    DropStarved,
    KeepSourceless,
    RemovePlentiful,
    RemoveImplied,
    DropSiphon,
    LimitTo,
    PostAgglomerate,
    PreAgglomerate,
    FreeAgglomerate,
    FireAhead,
    FusePlaces,
}

// The kind of a step by its first byte.
impl TryFrom<u8> for Kind {
    type Error = Misfit;

    ghost try_from_gives = { λ b r. r ≡ kind b };

    fn try_from(byte: u8) -> Result<Kind, Misfit> {
        match byte {
            0x20 => Ok(Kind::DropDominated),
            0x21 => Ok(Kind::DropMultiple),
            0x22 => Ok(Kind::DropComposed),
            0x23 => Ok(Kind::DropDraining),
            0x24 => Ok(Kind::DropStarved),
            0x25 => Ok(Kind::KeepSourceless),
            0x26 => Ok(Kind::RemovePlentiful),
            0x27 => Ok(Kind::RemoveImplied),
            0x28 => Ok(Kind::DropSiphon),
            0x29 => Ok(Kind::LimitTo),
            0x2a => Ok(Kind::PostAgglomerate),
            0x2b => Ok(Kind::PreAgglomerate),
            0x2c => Ok(Kind::FreeAgglomerate),
            0x2d => Ok(Kind::FireAhead),
            0x2e => Ok(Kind::FusePlaces),
            _ => Err(Misfit::Unknown),
        }
    }
}

impl Kind {
    // How many operand bytes follow the first: one for a transition or a place, two for a factor, eight for a set.
    pub fn width(self) -> u8
        ensures { result ≡ kind_width self }
    {
        match self {
            Kind::DropDraining
            | Kind::KeepSourceless
            | Kind::RemovePlentiful
            | Kind::PostAgglomerate
            | Kind::PreAgglomerate
            | Kind::FreeAgglomerate => 1,
            Kind::DropDominated | Kind::DropStarved => 2,
            Kind::DropComposed | Kind::FireAhead => 3,
            Kind::DropMultiple | Kind::RemoveImplied | Kind::FusePlaces => 4,
            Kind::DropSiphon | Kind::LimitTo => 8,
        }
    }

    // The step of this kind in the bytes of a whole one.
    fn parse(self, bytes: &[u8]) -> Step<'_>
        requires { length bytes.now ≡ kind_width self + 1 }
        ensures { plain result ≡ parsed self bytes.now }
    {
        match self {
            Kind::DropDominated => Step::DropDominated(bytes[1], bytes[2]),
            Kind::DropMultiple => Step::DropMultiple(bytes[1], bytes[2], two_bytes(bytes, 3)),
            Kind::DropComposed => Step::DropComposed(bytes[1], bytes[2], bytes[3]),
            Kind::DropDraining => Step::DropDraining(bytes[1]),
            Kind::DropStarved => Step::DropStarved(bytes[1], bytes[2]),
            Kind::KeepSourceless => Step::KeepSourceless(bytes[1]),
            Kind::RemovePlentiful => Step::RemovePlentiful(bytes[1]),
            Kind::RemoveImplied => Step::RemoveImplied(bytes[1], bytes[2], two_bytes(bytes, 3)),
            Kind::DropSiphon => Step::DropSiphon(bytes[1..].first_chunk().unwrap()),
            Kind::LimitTo => Step::LimitTo(bytes[1..].first_chunk().unwrap()),
            Kind::PostAgglomerate => Step::PostAgglomerate(bytes[1]),
            Kind::PreAgglomerate => Step::PreAgglomerate(bytes[1]),
            Kind::FreeAgglomerate => Step::FreeAgglomerate(bytes[1]),
            Kind::FireAhead => Step::FireAhead(bytes[1], two_bytes(bytes, 2)),
            Kind::FusePlaces => Step::FusePlaces(bytes[1], bytes[2], bytes[3], bytes[4]),
        }
    }
}

// The first bytes that a house book owns: all from the first to the last.
#[derive(Clone, Copy, Debug, PartialEq, Eq)]
pub struct Owned {
    pub first: u8,
    pub last: u8,
}

impl Owned {
    // The kind of step that a first byte begins, where the book owns it.
    fn kind(self, byte: u8) -> Result<Kind, Misfit>
        ensures { result ≡ owned_kind self.first self.last byte }
    {
        if !(self.first..=self.last).contains(&byte) {
            return Err(Misfit::Unknown);
        }
        Kind::try_from(byte)
    }

    // The operand width for a first byte, where the book owns it.
    pub fn width(self, byte: u8) -> Option<u8>
        ensures { result ≡ owned_width self.first self.last byte }
    {
        self.kind(byte).ok().map(Kind::width)
    }

    // The step that the bytes are, where they are one whole step of the book.
    pub fn step(self, bytes: &[u8]) -> Result<Step<'_>, Misfit>
        ensures { plainly result ≡ owned_step self.first self.last bytes.now }
    {
        let byte = byte_at(bytes, 0);
        frame(self.width(byte), bytes)?;
        Ok(self.kind(byte)?.parse(bytes))
    }
}
