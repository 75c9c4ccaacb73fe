// A rule book: an interface with two calls, what they mean, and the law that the meaning keeps.
#![tactic(auto)]

ghost use Rattle.std.specs.Prelude.{◌≡◌, ℕ, ◌+◌, ◌≤◌, List, length, Ok, Err, Option, Result, slice_index};
ghost use Rattle.net.specs.Views.{SameSheet};
ghost use Rattle.net.specs.Qualities.{Qualities};
ghost use Rattle.net.specs.States.{State, view, Answered};
ghost use Rattle.theory.specs.Laws.{Kept};
ghost use Rattle.books.specs.House.{two};
ghost use Rattle.books.specs.Frames.{front, framed, Within, Narrow, RefusesMisfits};

pub mod faults;
pub mod joined;
pub mod step;

use faults::{Misfit, Numbered};
use net::Net;

pub trait Book {
    // What a refusal of the book holds.
    type Fault: Numbered + Drop;

    // What the calls mean: the operand width for a first byte, or nothing where the book does not own it; and from net, support,
    // question and step, the refusal or the next state.
    ghost width_of: { ℕ → Option ℕ };

    ghost taken: { State → List ℕ → Result State Self.Fault };

    // The first byte is asked as a number, before there is a step.
    fn width(&self, first: u8) -> Option<u8>
        ensures { result ≡ width_of first };

    // Judges the step and takes it, or refuses it and changes nothing.
    fn take(&self, net: &mut Net<'_>, step: &[u8]) -> Result<(), Self::Fault>
        ensures exact { Answered result (view net.new) (view net.old) (taken (view net.old) step.now) }
        ensures lent { SameSheet net.new net.old };

    // The law: a taken step keeps the qualities of a net, every support place standing, and the answers to the open questions.
    ghost keeps: { (s t : State) (bytes : List ℕ) → Qualities s → taken s bytes ≡ Ok t → Kept s t };

    // Widths are at most 16, and bytes that are not one whole step of the book's own are refused with 2, 3 or 4.
    ghost narrow: { Narrow width_of };

    ghost refuses: { RefusesMisfits Self.Fault.Numbered.number_of width_of taken };
}

// The byte at i, 0 where there is none.
pub fn byte_at(bytes: &[u8], i: usize) -> u8
    ensures { result ≡ slice_index bytes.now i }
{
    bytes.get(i).copied().unwrap_or(0)
}

// The number of two bytes at i, the higher first; 0 stands for a byte that is not there.
pub fn two_bytes(bytes: &[u8], i: u8) -> u16
    ensures { result ≡ two bytes.now i }
{
    u16::from_be_bytes([
        byte_at(bytes, usize::from(i)),
        byte_at(bytes, usize::from(i) + 1),
    ])
}

// The length of the step at the front of the bytes, if the book says this width of their first byte, or of 0 where there is none. The
// width is a value and no closure, since a call of a closure would ask something of the caller, which no public call does.
pub fn front(width: Option<u8>, bytes: &[u8]) -> Result<usize, Misfit>
    ensures value { result ≡ front (λ _. width) bytes.now }
    ensures within { Within result (length bytes.now) }
{
    if bytes.is_empty() {
        return Err(Misfit::Short);
    }
    let length = usize::from(width.ok_or(Misfit::Unknown)?) + 1;
    if bytes.len() < length {
        return Err(Misfit::Short);
    }
    Ok(length)
}

// Are the bytes one whole step, if the book says this width of their first byte?
pub fn frame(width: Option<u8>, bytes: &[u8]) -> Result<(), Misfit>
    ensures { result ≡ framed (λ _. width) bytes.now }
{
    if front(width, bytes)? < bytes.len() {
        return Err(Misfit::Long);
    }
    Ok(())
}
