// A customer's book, written against the interface and the public reads alone. Its step, 80 p k, asks that place p has at least k
// tokens at the start, and changes nothing.
ghost use Rattle.std.specs.Prelude.{◌≡◌, ℕ};
ghost use Rattle.net.specs.Refusals.{judged};
ghost use Rattle.net.specs.States.{view};
ghost use Rattle.book_tests.specs.Checkpoints.{checkpoint_number, checkpoint_width, checkpoint_table, checkpoint_taken};
ghost use Rattle.book_tests.specs.CheckpointsLemmas.{checkpoint_keeps, checkpoint_refuses};
ghost use Rattle.std.proofs.Common.{rules};

use books::faults::{BookFault, Numbered};
use books::{Book, byte_at, frame, two_bytes};
use checks::{mark_of, stands_at};
use net::Net;

// Why a checkpoint is refused, with the number that is told: its place does not stand, or has too few tokens.
#[derive(Clone, Copy, Debug, PartialEq, Eq)]
pub enum CheckpointRefusal {
    Gone = 100,
    Low = 101,
}

impl Numbered for CheckpointRefusal {
    ghost number_of = { checkpoint_number };

    fn number(&self) -> u8 {
        *self as u8
    }
}

// The operand width for a first byte of this book. It owns one byte, so that an enum of its kinds of steps would have one case.
fn checkpoint_width(first: u8) -> Option<u8>
    ensures { result ≡ checkpoint_width first }
{
    (first == 0x80).then_some(3)
}

// The questions of the step.
fn check(net: &Net<'_>, p: u8, k: u16) -> Result<(), CheckpointRefusal>
    ensures { result ≡ judged (checkpoint_table (view net.now) p k) tt }
{
    if !stands_at(net, p) {
        return Err(CheckpointRefusal::Gone);
    }
    if mark_of(net, p) < u32::from(k) {
        return Err(CheckpointRefusal::Low);
    }
    Ok(())
}

#[derive(Clone, Copy, Debug, PartialEq, Eq)]
pub struct Checkpoint;

// Why this book, which owns the byte 80, refuses a step.
pub type CheckpointFault = BookFault<CheckpointRefusal, 0x80>;

impl Book for Checkpoint {
    type Fault = CheckpointFault;

    ghost width_of = { checkpoint_width };

    ghost taken = { checkpoint_taken };

    ghost keeps = { checkpoint_keeps };

    ghost narrow = { Prim.search rules };

    ghost refuses = { checkpoint_refuses };

    fn width(&self, first: u8) -> Option<u8> {
        checkpoint_width(first)
    }

    fn take(&self, net: &mut Net<'_>, step: &[u8]) -> Result<(), CheckpointFault> {
        net.check_size()?;
        frame(checkpoint_width(byte_at(step, 0)), step)?;
        check(net, byte_at(step, 1), two_bytes(step, 2)).map_err(BookFault::Step)
    }
}
