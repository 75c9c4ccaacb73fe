// The first house book: steps that drop one transition, keep one, or remove one place.
#![tactic(auto)]

ghost use Rattle.std.specs.Prelude.{◌≡◌, true, length, refl};
ghost use Rattle.net.specs.Views.{SameSheet};
ghost use Rattle.net.specs.Refusals.{judged, Passes};
ghost use Rattle.net.specs.Looks.{Leaves};
ghost use Rattle.net.specs.States.{view, stands};
ghost use Rattle.basics.specs.Basics.{basic_width, basic_taken};
ghost use Rattle.books.specs.Faults.{book_number, from_net, from_bytes, from_step};
ghost use Rattle.books.specs.House.{plain, owns, step_of};
ghost use Rattle.theory.specs.Rewrites.{leaving};
ghost use Rattle.theory.specs.Steps.{refusal_number, table, next, drop_dominated, drop_multiple, drop_composed, drop_draining, drop_starved, keep_sourceless, remove_plentiful, remove_implied};
ghost use Rattle.books.proofs.Housing.{house_keeps, house_refuses};
ghost use Rattle.books.proofs.Owning.{narrow};

mod conditions;

use books::Book;
use books::faults::BookFault;
use books::step::{Owned, Step};
use checks::{asks_reach, is_reach_only, is_there, stands_at, supports_at};
use conditions::{
    covers, has_always_enough, is_composed, is_dominated, is_draining, is_implied, is_multiple,
    is_sourceless, is_starved, is_unfed, never_loses,
};
use net::{Net, NetFault};
use rewrites::{drop_transition, keep_only, remove_place};
use theory::Refusal;

// The questions of the step that drops a dominated transition.
fn check_dominated(net: &Net<'_>, t: u8, u: u8) -> Result<(), Refusal>
    requires { length net.now.sheet.now ≡ 12352 }
    ensures { result ≡ judged (table (view net.now) (drop_dominated t u)) tt }
{
    if !is_there(net, t) || !is_there(net, u) {
        return Err(Refusal::NoTransition);
    }
    if t == u {
        return Err(Refusal::NotDistinct);
    }
    if !is_dominated(net, t, u) {
        return Err(Refusal::Arcs);
    }
    Ok(())
}

// The questions of the step that drops a multiple.
fn check_multiple(net: &Net<'_>, t: u8, u: u8, k: u16) -> Result<(), Refusal>
    requires { length net.now.sheet.now ≡ 12352 }
    ensures { result ≡ judged (table (view net.now) (drop_multiple t u k)) tt }
{
    if !is_there(net, t) || !is_there(net, u) {
        return Err(Refusal::NoTransition);
    }
    if t == u {
        return Err(Refusal::NotDistinct);
    }
    if k == 0 {
        return Err(Refusal::Nothing);
    }
    if !is_multiple(net, t, u, k) {
        return Err(Refusal::Arcs);
    }
    Ok(())
}

// The questions of the step that drops a composed transition.
fn check_composed(net: &Net<'_>, t: u8, u: u8, v: u8) -> Result<(), Refusal>
    requires { length net.now.sheet.now ≡ 12352 }
    ensures { result ≡ judged (table (view net.now) (drop_composed t u v)) tt }
{
    if !is_there(net, t) || !is_there(net, u) || !is_there(net, v) {
        return Err(Refusal::NoTransition);
    }
    if t == u || t == v {
        return Err(Refusal::NotDistinct);
    }
    if !is_composed(net, t, u, v) {
        return Err(Refusal::Arcs);
    }
    Ok(())
}

// The questions of the step that drops a draining transition.
fn check_draining(net: &Net<'_>, t: u8) -> Result<(), Refusal>
    requires { length net.now.sheet.now ≡ 12352 }
    ensures { result ≡ judged (table (view net.now) (drop_draining t)) tt }
{
    if !is_reach_only(net) {
        return Err(Refusal::NotServed);
    }
    if !is_there(net, t) {
        return Err(Refusal::NoTransition);
    }
    if !is_draining(net, t) {
        return Err(Refusal::Arcs);
    }
    Ok(())
}

// The questions of the step that drops a starved transition.
fn check_starved(net: &Net<'_>, t: u8, p: u8) -> Result<(), Refusal>
    ensures { result ≡ judged (table (view net.now) (drop_starved t p)) tt }
{
    if !is_there(net, t) {
        return Err(Refusal::NoTransition);
    }
    if !stands_at(net, p) {
        return Err(Refusal::NoPlace);
    }
    if !is_unfed(net, p) {
        return Err(Refusal::Arcs);
    }
    if !is_starved(net, t, p) {
        return Err(Refusal::Marks);
    }
    Ok(())
}

// The questions of the step that keeps only a transition without a source.
fn check_sourceless(net: &Net<'_>, t: u8) -> Result<(), Refusal>
    ensures { result ≡ judged (table (view net.now) (keep_sourceless t)) tt }
{
    if asks_reach(net) {
        return Err(Refusal::NotServed);
    }
    if !is_there(net, t) {
        return Err(Refusal::NoTransition);
    }
    if !is_sourceless(net, t) {
        return Err(Refusal::Arcs);
    }
    Ok(())
}

// The questions of the step that removes a place that never lacks tokens.
fn check_plentiful(net: &Net<'_>, p: u8) -> Result<(), Refusal>
    ensures { result ≡ judged (table (view net.now) (remove_plentiful p)) tt }
{
    if !stands_at(net, p) {
        return Err(Refusal::NoPlace);
    }
    if supports_at(net, p) {
        return Err(Refusal::Support);
    }
    if !never_loses(net, p) {
        return Err(Refusal::Arcs);
    }
    if !has_always_enough(net, p) {
        return Err(Refusal::Marks);
    }
    Ok(())
}

// The questions of the step that removes a place that another implies.
fn check_implied(net: &Net<'_>, p: u8, q: u8, k: u16) -> Result<(), Refusal>
    ensures { result ≡ judged (table (view net.now) (remove_implied p q k)) tt }
{
    if !stands_at(net, p) || !stands_at(net, q) {
        return Err(Refusal::NoPlace);
    }
    if p == q {
        return Err(Refusal::NotDistinct);
    }
    if k == 0 {
        return Err(Refusal::Nothing);
    }
    if supports_at(net, p) {
        return Err(Refusal::Support);
    }
    if !is_implied(net, p, q, k) {
        return Err(Refusal::Arcs);
    }
    if !covers(net, p, q, k) {
        return Err(Refusal::Marks);
    }
    Ok(())
}

// Removes a place that stands.
fn leave_place(net: &mut Net<'_>, p: u8) -> Result<(), NetFault>
    requires { stands (view net.old) p ≡ true }
    ensures exact { Leaves result (view net.new) (view net.old) (leaving p (view net.old)) }
    ensures lent { SameSheet net.new net.old }
{
    remove_place(net, usize::from(p))
}

// The first bytes that this book owns.
const FIRST: u8 = 0x20;

const OWNED: Owned = Owned {
    first: FIRST,
    last: 0x27,
};

// The questions of a step of this book. A match here and in the rewrite: each step has operands of its own, and a closure for each would
// be made in a match. Both ask that the step is the book's own, since one type of steps serves all books.
fn check(net: &Net<'_>, step: Step<'_>) -> Result<(), Refusal>
    requires size { length net.now.sheet.now ≡ 12352 }
    requires own { owns basic_width (plain step) ≡ true }
    ensures { result ≡ judged (table (view net.now) (plain step.entry)) tt }
{
    match step {
        Step::DropDominated(t, u) => check_dominated(net, t, u),
        Step::DropMultiple(t, u, k) => check_multiple(net, t, u, k),
        Step::DropComposed(t, u, v) => check_composed(net, t, u, v),
        Step::DropDraining(t) => check_draining(net, t),
        Step::DropStarved(t, p) => check_starved(net, t, p),
        Step::KeepSourceless(t) => check_sourceless(net, t),
        Step::RemovePlentiful(p) => check_plentiful(net, p),
        Step::RemoveImplied(p, q, k) => check_implied(net, p, q, k),
        _ => unreachable!(),
    }
}

// Takes a step of this book whose questions have passed.
fn rewrite(net: &mut Net<'_>, step: Step<'_>) -> Result<(), NetFault>
    requires own { owns basic_width (plain step) ≡ true }
    requires passes { Passes (table (view net.old) (plain step)) }
    ensures exact { Leaves result (view net.new) (view net.old) (next (view net.old) (plain step.entry)) }
    ensures lent { SameSheet net.new net.old }
{
    match step {
        Step::DropDominated(t, _)
        | Step::DropMultiple(t, _, _)
        | Step::DropComposed(t, _, _)
        | Step::DropDraining(t)
        | Step::DropStarved(t, _) => drop_transition(net, usize::from(t)),
        Step::KeepSourceless(t) => keep_only(net, usize::from(t)),
        Step::RemovePlentiful(p) | Step::RemoveImplied(p, _, _) => leave_place(net, p),
        _ => unreachable!(),
    }
}

// The first house book.
// It implements `Book` itself: one impl for all four would need a public trait whose calls ask something of their caller, which no public
// call here does.
#[derive(Clone, Copy, Debug, PartialEq, Eq)]
pub struct Basics;

// Why this book, which owns the bytes from 20, refuses a step.
pub type BasicFault = BookFault<Refusal, FIRST>;

impl Book for Basics {
    type Fault = BasicFault;

    ghost width_of = { basic_width };

    ghost taken = { basic_taken };

    ghost keeps = { house_keeps from_net from_bytes from_step basic_width step_of };

    ghost narrow = { narrow 0x20 0x27 };

    ghost refuses = { house_refuses from_net from_bytes from_step basic_width step_of (book_number refusal_number) (λ e. refl) };

    fn width(&self, first: u8) -> Option<u8> {
        OWNED.width(first)
    }

    fn take(&self, net: &mut Net<'_>, step: &[u8]) -> Result<(), BasicFault> {
        net.check_size()?;
        let step = OWNED.step(step)?;
        check(net, step)?;
        rewrite(net, step)?;
        Ok(())
    }
}
