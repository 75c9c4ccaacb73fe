// Faults have numbers; bytes that are no whole step have a fault of their own, and so has each book.
ghost use Rattle.std.specs.Prelude.{◌≡◌, ℕ};
ghost use Rattle.net.specs.Refusals.{net_number};
ghost use Rattle.theory.specs.Steps.{refusal_number};
ghost use Rattle.books.specs.Frames.{misfit_number};
ghost use Rattle.books.specs.Faults.{book_number, from_net, from_bytes, from_step};

use net::NetFault;
use theory::Refusal;

// What has the number of a refusal. The numbers are the ones that are printed; each stands beside its name in the enum.
pub trait Numbered {
    ghost number_of: { Self → ℕ };

    fn number(&self) -> u8
        ensures { result ≡ number_of self.now };
}

// Why bytes are not one whole step, with the number that is told: they end too early, nobody owns the first, or more bytes follow.
#[derive(Clone, Copy, Debug, PartialEq, Eq)]
pub enum Misfit {
    Short = 2,
    Unknown = 3,
    Long = 4,
}

impl Numbered for Misfit {
    ghost number_of = { misfit_number };

    fn number(&self) -> u8 {
        *self as u8
    }
}

impl Numbered for Refusal {
    ghost number_of = { refusal_number };

    fn number(&self) -> u8 {
        u8::from(*self)
    }
}

impl Numbered for NetFault {
    ghost number_of = { net_number };

    fn number(&self) -> u8 {
        self.told().number
    }
}

// Why a book refuses a step: the sheet has the wrong size, the bytes are not one whole step of the book, or the step itself is
// refused. Each book has a fault type of its own, told apart by the first byte that the book owns from.
#[derive(Clone, Copy, Debug, PartialEq, Eq, Drop)]
pub enum BookFault<R, const FIRST: u8> {
    Net(NetFault),
    Bytes(Misfit),
    Step(R),
}

impl<R: Numbered, const FIRST: u8> Numbered for BookFault<R, FIRST> {
    ghost number_of = { book_number R.Numbered.number_of };

    fn number(&self) -> u8 {
        match self {
            BookFault::Net(fault) => fault.number(),
            BookFault::Bytes(misfit) => misfit.number(),
            BookFault::Step(refusal) => refusal.number(),
        }
    }
}

impl<R, const FIRST: u8> From<NetFault> for BookFault<R, FIRST> {
    ghost from_gives = { λ e r. r ≡ from_net e };

    fn from(e: NetFault) -> BookFault<R, FIRST> {
        BookFault::Net(e)
    }
}

impl<R, const FIRST: u8> From<Misfit> for BookFault<R, FIRST> {
    ghost from_gives = { λ e r. r ≡ from_bytes e };

    fn from(e: Misfit) -> BookFault<R, FIRST> {
        BookFault::Bytes(e)
    }
}

impl<const FIRST: u8> From<Refusal> for BookFault<Refusal, FIRST> {
    ghost from_gives = { λ e r. r ≡ from_step e };

    fn from(e: Refusal) -> BookFault<Refusal, FIRST> {
        BookFault::Step(e)
    }
}
