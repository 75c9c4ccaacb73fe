// Why a session refuses a call, and where.
ghost use Rattle.std.specs.Prelude.{◌≡◌, Result};
ghost use Rattle.session.specs.Faults.{from_net, from_bytes, from_book, with_place, session_told};

use books::faults::{Misfit, Numbered};
use net::{Layer, NetFault, Origin, Placed, Position, Told};

// The net refuses the call, the bytes are not what the call asks for, or the book refuses the step.
#[derive(Clone, Copy, Debug, PartialEq, Eq, Drop)]
pub enum Cause<F> {
    Net(NetFault),
    Bytes(Misfit),
    Book(F),
}

// The fault of no book: a look asks none, and its refusals never hold it. No one outside can make it. It has a value, and that a number,
// since the gate refuses the methods of a type without values, whose contracts no call can meet.
#[derive(Clone, Copy, Debug, PartialEq, Eq)]
pub struct NoBook(());

impl Numbered for NoBook {
    ghost number_of = { λ _. 0 };

    fn number(&self) -> u8 {
        0
    }
}

// A refused call: its cause, and where it arose. It is a type of this crate, as a `ReadFault` is of the reader's, since each has a call
// of its own, `told`.
#[derive(Clone, Copy, Debug, PartialEq, Eq, Drop)]
pub struct SessionFault<F> {
    pub cause: Cause<F>,
    pub origin: Origin,
}

// A book's fault, with the byte where the refused step starts and the count of the steps before it. It is a type of its own beside
// `Placed`, since a `From` of that with any book's fault would overlap those with the net's fault and with a misfit. A caller that asks a
// book by itself tells the session's refusal by it too.
#[derive(Clone, Copy, Debug, PartialEq, Eq, Drop)]
pub struct BookRefusal<F> {
    pub fault: F,
    pub at: Position,
}

impl<F> From<Placed<NetFault>> for SessionFault<F> {
    ghost from_gives = { λ e r. r ≡ from_net e };

    fn from(e: Placed<NetFault>) -> SessionFault<F> {
        SessionFault {
            cause: Cause::Net(e.fault),
            origin: e.origin,
        }
    }
}

impl<F> From<Placed<Misfit>> for SessionFault<F> {
    ghost from_gives = { λ e r. r ≡ from_bytes e };

    fn from(e: Placed<Misfit>) -> SessionFault<F> {
        SessionFault {
            cause: Cause::Bytes(e.fault),
            origin: e.origin,
        }
    }
}

impl<F> From<BookRefusal<F>> for SessionFault<F> {
    ghost from_gives = { λ e r. r ≡ from_book e };

    fn from(e: BookRefusal<F>) -> SessionFault<F> {
        SessionFault {
            cause: Cause::Book(e.fault),
            origin: e.at.origin(Layer::Book),
        }
    }
}

// Adds the place to a book's fault.
pub(crate) fn by_book<T, F>(r: Result<T, F>, at: Position) -> Result<T, BookRefusal<F>>
    ensures { result ≡ with_place r at }
{
    r.map_err(|fault| BookRefusal { fault, at })
}

impl<F: Numbered> SessionFault<F> {
    // The number, layer and place of the refusal.
    pub fn told(&self) -> Told
        ensures { result ≡ session_told F.Numbered.number_of self.now }
    {
        let number = match &self.cause {
            Cause::Net(e) => e.number(),
            Cause::Bytes(e) => e.number(),
            Cause::Book(e) => e.number(),
        };
        Told {
            number,
            origin: self.origin,
        }
    }
}
