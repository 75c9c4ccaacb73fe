// Two books joined are again a book.
ghost use Rattle.std.specs.Prelude.{◌≡◌, ℕ};
ghost use Rattle.books.specs.Joins.{SilentInFront, joined_width, joined_taken, either_number};
ghost use Rattle.theory.specs.Laws.{Kept};
ghost use Rattle.books.specs.Joining.{joined_keeps, joined_narrow, joined_refuses};

use crate::Book;
use crate::faults::Numbered;
use net::Net;

// A fault of one of two joined books, which says from which it came.
#[derive(Clone, Copy, Debug, PartialEq, Eq, Drop)]
pub enum EitherFault<F, G> {
    First(F),
    Second(G),
}

impl<F: Numbered, G: Numbered> Numbered for EitherFault<F, G> {
    ghost number_of = { either_number F.Numbered.number_of G.Numbered.number_of };

    fn number(&self) -> u8 {
        match self {
            EitherFault::First(f) => f.number(),
            EitherFault::Second(g) => g.number(),
        }
    }
}

#[derive(Clone, Copy, Debug, PartialEq, Eq, Drop)]
pub struct Joined<A, B> {
    pub first: A,
    pub second: B,
}

// Joins two books. One that owns no byte, joined in front, changes nothing.
pub fn join<P: Book, Q: Book>(first: P, second: Q) -> Joined<P, Q>
    ensures joined { (result.first ≡ first) × (result.second ≡ second) }
    ensures silent { SilentInFront P.Book.width_of P.Book.taken Q.Book.width_of Q.Book.taken }
{
    Joined { first, second }
}

impl<P: Book, Q: Book> Book for Joined<P, Q> {
    type Fault = EitherFault<P::Fault, Q::Fault>;

    ghost width_of = { joined_width P.Book.width_of Q.Book.width_of };

    ghost taken = { joined_taken P.Book.width_of P.Book.taken Q.Book.taken };

    ghost keeps = { λ s t bytes q h.
        joined_keeps P.Fault.Numbered.number_of Q.Fault.Numbered.number_of P.Book.width_of Q.Book.width_of P.Book.taken Q.Book.taken (Kept s) s t bytes
        (P.Book.keeps s t bytes q) (Q.Book.keeps s t bytes q) h };

    ghost narrow = { joined_narrow P.Fault.Numbered.number_of Q.Fault.Numbered.number_of P.Book.width_of Q.Book.width_of P.Book.taken Q.Book.taken
        P.Book.narrow Q.Book.narrow };

    ghost refuses = { joined_refuses P.Fault.Numbered.number_of Q.Fault.Numbered.number_of P.Book.width_of Q.Book.width_of P.Book.taken Q.Book.taken
        P.Book.refuses Q.Book.refuses };

    fn width(&self, first: u8) -> Option<u8> {
        self.first.width(first).or_else(|| self.second.width(first))
    }

    // `map_err` was tried: to a fault that also names the other book's it is not covered by the borrow checker yet.
    fn take(&self, net: &mut Net<'_>, step: &[u8]) -> Result<(), Self::Fault> {
        if step
            .first()
            .is_some_and(|first| self.first.width(*first).is_some())
        {
            match self.first.take(net, step) {
                Ok(()) => Ok(()),
                Err(fault) => Err(EitherFault::First(fault)),
            }
        } else {
            match self.second.take(net, step) {
                Ok(()) => Ok(()),
                Err(fault) => Err(EitherFault::Second(fault)),
            }
        }
    }
}
