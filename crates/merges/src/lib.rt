// The third house book: agglomerations, which merge the feeders and the consumers of a place.
#![tactic(auto)]

ghost use Rattle.std.specs.Prelude.{◌≡◌, ℕ, true, length, nat_le, refl};
ghost use Rattle.net.specs.Views.{SameSheet};
ghost use Rattle.net.specs.Refusals.{judged, Passes};
ghost use Rattle.net.specs.Sheets.{Row, mark_at, most_mark};
ghost use Rattle.net.specs.States.{view, Answered};
ghost use Rattle.books.specs.Faults.{book_number, from_net, from_bytes, from_step};
ghost use Rattle.books.specs.House.{plain, owns, step_of};
ghost use Rattle.merges.specs.Merges.{merge_width, merge_taken, first_lines, count_lines, last_lines, post_lines, pre_lines, free_lines, limited};
ghost use Rattle.products.specs.Products.{product_row};
ghost use Rattle.theory.specs.Rewrites.{merging};
ghost use Rattle.theory.specs.Tests.{every_place, rest_fits?};
ghost use Rattle.theory.specs.Steps.{refusal_number, step as judged_step, post_agglomerate, pre_agglomerate, free_agglomerate};
ghost use Rattle.books.proofs.Housing.{house_keeps, house_refuses};
ghost use Rattle.books.proofs.Owning.{narrow};

mod conditions;

use books::Book;
use books::faults::BookFault;
use books::step::{Owned, Step};
use checks::{is_reach_only, mark_of, stands_at, supports_at};
use conditions::{
    are_free_consumers, are_free_feeders, are_post_consumers, are_post_weights, are_pre_feeders,
    is_two_sided,
};
use net::{MOST_TRANSITIONS, Net};
use products::{Kind, MOST_PRODUCTS, count_by_place, merge};
use theory::Refusal;

// The first questions of an agglomeration: p stands, is outside the support, and has feeders and consumers that are apart.
fn check_place(net: &Net<'_>, p: u8) -> Result<(), Refusal>
    ensures { result ≡ judged (first_lines (view net.now) p) tt }
{
    if !stands_at(net, p) {
        return Err(Refusal::NoPlace);
    }
    if supports_at(net, p) {
        return Err(Refusal::Support);
    }
    if !is_two_sided(net, p) {
        return Err(Refusal::Arcs);
    }
    Ok(())
}

// The last questions of an agglomeration before its products: the mark of p, their number, and the transitions afterwards.
fn check_counts(net: &Net<'_>, p: u8) -> Result<(), Refusal>
    ensures { (product : ℕ → ℕ → Row) → result ≡ judged (last_lines (view net.now) p (merging product p (view net.now))) tt }
{
    if mark_of(net, p) > 0 {
        return Err(Refusal::Marks);
    }
    let counts = count_by_place(net, p);
    if counts.products > MOST_PRODUCTS {
        return Err(Refusal::TooManyPairs);
    }
    if counts.rest + counts.products > MOST_TRANSITIONS {
        return Err(Refusal::TooManyRows);
    }
    Ok(())
}

// The questions of post-agglomeration before its products. Here and below each line of the table has an `if` of its own, though one
// number refuses several.
fn check_post(net: &Net<'_>, p: u8) -> Result<(), Refusal>
    ensures { result ≡ judged (post_lines (view net.now) p) tt }
{
    check_place(net, p)?;
    if !are_post_consumers(net, p) {
        return Err(Refusal::Arcs);
    }
    if !are_post_weights(net, p) {
        return Err(Refusal::Arcs);
    }
    check_counts(net, p)
}

// The questions of pre-agglomeration before its products.
fn check_pre(net: &Net<'_>, p: u8) -> Result<(), Refusal>
    ensures { result ≡ judged (pre_lines (view net.now) p) tt }
{
    check_place(net, p)?;
    if !are_free_feeders(net, p) || !are_pre_feeders(net, p) {
        return Err(Refusal::Arcs);
    }
    if !are_free_consumers(net, p) {
        return Err(Refusal::Arcs);
    }
    check_counts(net, p)
}

// The questions of free agglomeration before its products.
fn check_free(net: &Net<'_>, p: u8) -> Result<(), Refusal>
    ensures { result ≡ judged (free_lines (view net.now) p) tt }
{
    if !is_reach_only(net) {
        return Err(Refusal::NotServed);
    }
    check_place(net, p)?;
    if !are_free_feeders(net, p) {
        return Err(Refusal::Arcs);
    }
    if !are_free_consumers(net, p) {
        return Err(Refusal::Arcs);
    }
    check_counts(net, p)
}

// The marks of a sheet are within their limit, as numbers of 32 bits: nothing is asked of them. It is a call, since that a number has
// 32 bits is known of a slice that is passed, and not of the sheet inside a net.
fn marks_fit(sheet: &[u32])
    ensures { every_place (λ p. nat_le (mark_at sheet.now p) most_mark) ≡ true }
{}

// The numbers that an agglomeration leaves as they are keep within their limits, since the sheet is tidy: nothing is asked of them.
fn rest_fits(net: &Net<'_>, p: u8)
    requires { length net.now.sheet.now ≡ 12352 }
    ensures { rest_fits? (view net.now) p ≡ true }
{
    marks_fit(net.sheet);
}

// Replaces the feeders and consumers of p by their products, where the questions before have passed. The last question of the tables,
// whether all numbers are within their limits afterwards, is answered by the merge: on a tidy sheet only a product may be past them.
fn merge_products(net: &mut Net<'_>, kind: Kind, p: u8) -> Result<(), Refusal>
    requires size { length net.old.sheet.now ≡ 12352 }
    requires counts { Passes (count_lines (view net.old) p (merging (product_row kind (view net.old) p) p (view net.old))) }
    ensures exact { Answered result (view net.new) (view net.old) (limited (merging (product_row kind (view net.old) p) p (view net.old))) }
    ensures lent { SameSheet net.new net.old }
{
    rest_fits(net, p);
    merge(net, kind, p).map_err(|_| Refusal::PastLimit)
}

// Post-agglomeration.
fn merge_post(net: &mut Net<'_>, p: u8) -> Result<(), Refusal>
    requires { length net.old.sheet.now ≡ 12352 }
    ensures exact { Answered result (view net.new) (view net.old) (judged_step (view net.old) (post_agglomerate p)) }
    ensures lent { SameSheet net.new net.old }
{
    check_post(net, p)?;
    merge_products(net, Kind::Post, p)
}

// Pre-agglomeration.
fn merge_pre(net: &mut Net<'_>, p: u8) -> Result<(), Refusal>
    requires { length net.old.sheet.now ≡ 12352 }
    ensures exact { Answered result (view net.new) (view net.old) (judged_step (view net.old) (pre_agglomerate p)) }
    ensures lent { SameSheet net.new net.old }
{
    check_pre(net, p)?;
    merge_products(net, Kind::Pre, p)
}

// Free agglomeration.
fn merge_free(net: &mut Net<'_>, p: u8) -> Result<(), Refusal>
    requires { length net.old.sheet.now ≡ 12352 }
    ensures exact { Answered result (view net.new) (view net.old) (judged_step (view net.old) (free_agglomerate p)) }
    ensures lent { SameSheet net.new net.old }
{
    check_free(net, p)?;
    merge_products(net, Kind::Pre, p)
}

// The first bytes that this book owns.
const FIRST: u8 = 0x2a;

const OWNED: Owned = Owned {
    first: FIRST,
    last: 0x2c,
};

// Takes a step of this book, or refuses it. It asks that the step is the book's own, since one type of steps serves all books.
fn merge_by(net: &mut Net<'_>, step: Step<'_>) -> Result<(), Refusal>
    requires size { length net.old.sheet.now ≡ 12352 }
    requires own { owns merge_width (plain step) ≡ true }
    ensures exact { Answered result (view net.new) (view net.old) (judged_step (view net.old) (plain step.entry)) }
    ensures lent { SameSheet net.new net.old }
{
    match step {
        Step::PostAgglomerate(p) => merge_post(net, p),
        Step::PreAgglomerate(p) => merge_pre(net, p),
        Step::FreeAgglomerate(p) => merge_free(net, p),
        _ => unreachable!(),
    }
}

// The third house book.
// It implements `Book` itself: one impl for all four would need a public trait whose calls ask something of their caller, which no public
// call here does.
#[derive(Clone, Copy, Debug, PartialEq, Eq)]
pub struct Merges;

// Why this book, which owns the bytes from 2A, refuses a step.
pub type MergeFault = BookFault<Refusal, FIRST>;

impl Book for Merges {
    type Fault = MergeFault;

    ghost width_of = { merge_width };

    ghost taken = { merge_taken };

    ghost keeps = { house_keeps from_net from_bytes from_step merge_width step_of };

    ghost narrow = { narrow 0x2a 0x2c };

    ghost refuses = { house_refuses from_net from_bytes from_step merge_width step_of (book_number refusal_number) (λ e. refl) };

    fn width(&self, first: u8) -> Option<u8> {
        OWNED.width(first)
    }

    fn take(&self, net: &mut Net<'_>, step: &[u8]) -> Result<(), MergeFault> {
        net.check_size()?;
        let step = OWNED.step(step)?;
        merge_by(net, step)?;
        Ok(())
    }
}
