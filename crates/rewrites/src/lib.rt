// Rewrites of a net in place: transitions are dropped and the list closes up, places go, and marks change.
#![tactic(auto)]

ghost use Rattle.std.specs.Prelude.{◌≡◌, ℕ, ◌+◌, ◌*◌, ◌<◌, ◌≤◌, false, not, ◌&&◌, ◌==◌, length, nat_eq, if◌then◌else◌, slice_index, slice_index_or};
ghost use Rattle.net.specs.Views.{SameSheet};
ghost use Rattle.net.specs.Looks.{Leaves, place_checks};
ghost use Rattle.net.specs.Refusals.{judged};
ghost use Rattle.net.specs.States.{view, Answered};
ghost use Rattle.theory.specs.Rewrites.{keeping, keeping_only, dropping, leaving};
ghost use Rattle.theory.specs.Tests.{those, member};
ghost use Rattle.rewrites.specs.Rows.{limited_to, Closed, Kept, Limited};

mod marks;
mod rows;

use checks::{Test, Transition, flags, flags_of};
pub use marks::write_marks;
use net::{MOST_PLACES, MOST_TRANSITIONS, Net, NetFault, ROW_SIZE, Side};
pub use rows::append_rows;
use std::array;
use std::ops::Range;

// As many places are taken out one by one; where more go, whole parts are gone over, several numbers at once.
const FEW: usize = 3;

// A net's sheet has nothing past its rows: so a rewrite writes only where rows stand. The functions on a sheet ask that it has the right
// size, which the public calls look at first, and take the number of rows and not the shape, since no field of a net can be lent beside
// another that is changed. Flags are arrays of fixed size, since nothing is allocated.

// Where row t lies in a sheet: its takes, then its puts. Any row may be meant, or the one behind the last.
fn row_at(t: usize) -> Range<usize>
    requires { t ≤ 96 }
    ensures { (result.start ≡ 64 + 128 * t) × (result.end ≡ 192 + 128 * t) }
{
    // No `try_from`, since the cast loses nothing: t is at most 96.
    let from = Side::Takes.base(t as u8);
    from..from + 2 * MOST_PLACES
}

// Copies a row over an earlier one; a row that is to stay where it is needs no copy. It is this copy between two parts and not
// `copy_within`, since the compiler makes one move of it.
fn copy_row(sheet: &mut [u32], from: usize, to: usize)
    requires { (length sheet.old ≡ 12352) × ((from < 96) × (to ≤ from)) }
    ensures row { (j : ℕ) → j < 128 → slice_index sheet.new (64 + 128 * to + j) ≡ slice_index sheet.old (64 + 128 * from + j) }
    ensures before { (i : ℕ) → i < 64 + 128 * to → slice_index sheet.new i ≡ slice_index sheet.old i }
    ensures after { (i : ℕ) → 192 + 128 * to ≤ i → slice_index sheet.new i ≡ slice_index sheet.old i }
    ensures size { length sheet.new ≡ 12352 }
{
    if to < from {
        let (front, back) = sheet.split_at_mut(row_at(from).start);
        front[row_at(to)].copy_from_slice(&back[..ROW_SIZE]);
    }
}

// Writes 0 over the rows from one to before another.
fn wipe_rows(sheet: &mut [u32], from: usize, to: usize)
    requires { (length sheet.old ≡ 12352) × ((from ≤ to) × (to ≤ 96)) }
    ensures before { (i : ℕ) → i < 64 + 128 * from → slice_index sheet.new i ≡ slice_index sheet.old i }
    ensures wiped { (i : ℕ) → 64 + 128 * from ≤ i → i < 64 + 128 * to → slice_index sheet.new i ≡ 0 }
    ensures after { (i : ℕ) → 64 + 128 * to ≤ i → slice_index sheet.new i ≡ slice_index sheet.old i }
    ensures size { length sheet.new ≡ 12352 }
{
    sheet[row_at(from).start..row_at(to).start].fill(0);
}

// Closes up the rows of the transitions that stay, and tells how many they are.
fn close_up(sheet: &mut [u32], n: usize, keep: &[bool; MOST_TRANSITIONS]) -> usize
    requires { (length sheet.old ≡ 12352) × (n ≤ 96) }
    ensures closed { Closed sheet.old sheet.new (those (λ t. slice_index_or keep.now t false) n) }
    ensures count { result ≡ length (those (λ t. slice_index_or keep.now t false) n) }
    ensures few { result ≤ n }
    ensures size { length sheet.new ≡ 12352 }
{
    let mut kept = 0;
    for t in 0..n {
        if keep[t] {
            copy_row(sheet, t, kept);
            kept += 1;
        }
    }
    kept
}

// Keeps the rows of the transitions that stay, closed up, and tells how many they are; the rows behind them become 0.
fn keep_rows(sheet: &mut [u32], n: usize, keep: &[bool; MOST_TRANSITIONS]) -> usize
    requires { (length sheet.old ≡ 12352) × (n ≤ 96) }
    ensures kept { Kept sheet.old sheet.new (those (λ t. slice_index_or keep.now t false) n) n }
    ensures count { result ≡ length (those (λ t. slice_index_or keep.now t false) n) }
    ensures few { result ≤ n }
    ensures size { length sheet.new ≡ 12352 }
{
    let kept = close_up(sheet, n, keep);
    wipe_rows(sheet, kept, n);
    kept
}

// Keeps one row as the first, if it stands, and tells how many are kept; the other rows become 0.
fn keep_row(sheet: &mut [u32], n: usize, t: usize) -> usize
    requires { (length sheet.old ≡ 12352) × (n ≤ 96) }
    ensures kept { Kept sheet.old sheet.new (those (λ v. nat_eq v t) n) n }
    ensures count { result ≡ length (those (λ v. nat_eq v t) n) }
    ensures few { result ≤ n }
    ensures size { length sheet.new ≡ 12352 }
{
    if t >= n {
        wipe_rows(sheet, 0, n);
        return 0;
    }
    copy_row(sheet, t, 0);
    wipe_rows(sheet, 1, n);
    1
}

// Moves each number of a part of a sheet down by one row. It is this loop and not `copy_within`, since the compiler makes one move of it.
fn move_down(part: &mut [u32])
    requires { 128 ≤ length part.old }
    ensures moved { (i : ℕ) → i + 128 < length part.old → slice_index part.new i ≡ slice_index part.old (i + 128) }
    ensures size { length part.new ≡ length part.old }
{
    for i in 0..part.len() - ROW_SIZE {
        part[i] = part[i + ROW_SIZE];
    }
}

// Moves the rows behind row t down by one row; the last row becomes 0.
fn drop_row(sheet: &mut [u32], n: usize, t: usize)
    requires { (length sheet.old ≡ 12352) × ((n ≤ 96) × (t < n)) }
    ensures kept { Kept sheet.old sheet.new (those (λ v. not (v == t)) n) n }
    ensures size { length sheet.new ≡ 12352 }
{
    move_down(&mut sheet[row_at(t).start..row_at(n).start]);
    wipe_rows(sheet, n - 1, n);
}

// Writes 0 at a place in the marks and the rows.
fn clear_place(sheet: &mut [u32], n: usize, p: usize)
    requires { (length sheet.old ≡ 12352) × ((n ≤ 96) × (p < 64)) }
    ensures cleared { Limited sheet.old sheet.new (λ q. not (q == p)) (1 + 2 * n) }
    ensures size { length sheet.new ≡ 12352 }
{
    for part in 0..1 + 2 * n {
        sheet[MOST_PLACES * part + p] = 0;
    }
}

// Writes 0 at the places that do not stay, in one part. Each number is written, so that the loop has no branch.
fn limit_part(part: &mut [u32], stays: &[bool; MOST_PLACES])
    requires { length part.old ≡ 64 }
    ensures { (p : ℕ) → p < 64 → slice_index part.new p ≡ (if slice_index_or stays.now p false then slice_index part.old p else 0) }
{
    for (p, number) in part.iter_mut().enumerate() {
        *number = if stays[p] { *number } else { 0 };
    }
}

// Writes 0 at the places that do not stay, part after part.
fn limit_by_part(sheet: &mut [u32], n: usize, stays: &[bool; MOST_PLACES])
    requires { (length sheet.old ≡ 12352) × (n ≤ 96) }
    ensures limited { Limited sheet.old sheet.new (λ p. slice_index_or stays.now p false) (1 + 2 * n) }
    ensures size { length sheet.new ≡ 12352 }
{
    for part in 0..1 + 2 * n {
        let from = MOST_PLACES * part;
        limit_part(&mut sheet[from..from + MOST_PLACES], stays);
    }
}

// Writes 0 at the places that do not stay, place after place.
fn limit_by_place(sheet: &mut [u32], n: usize, stays: &[bool; MOST_PLACES])
    requires { (length sheet.old ≡ 12352) × (n ≤ 96) }
    ensures limited { Limited sheet.old sheet.new (λ p. slice_index_or stays.now p false) (1 + 2 * n) }
    ensures size { length sheet.new ≡ 12352 }
{
    for p in 0..MOST_PLACES {
        if !stays[p] {
            clear_place(sheet, n, p);
        }
    }
}

// Do few places go?
fn few_go(stays: &[bool; MOST_PLACES]) -> bool {
    stays.iter().filter(|stay| !**stay).count() <= FEW
}

// Writes 0 at the places that do not stay, in the marks and the rows: by the way that writes less.
fn limit_parts(sheet: &mut [u32], n: usize, stays: &[bool; MOST_PLACES])
    requires { (length sheet.old ≡ 12352) × (n ≤ 96) }
    ensures limited { Limited sheet.old sheet.new (λ p. slice_index_or stays.now p false) (1 + 2 * n) }
    ensures size { length sheet.new ≡ 12352 }
{
    if few_go(stays) {
        limit_by_place(sheet, n, stays);
    } else {
        limit_by_part(sheet, n, stays);
    }
}

// The flags of the places that stand and stay.
fn both(standing: &[bool; MOST_PLACES], stays: &[bool; MOST_PLACES]) -> [bool; MOST_PLACES]
    ensures flags { (p : ℕ) → p < 64 → slice_index_or result p false ≡ (slice_index_or standing.now p false && slice_index_or stays.now p false) }
    ensures long { length result ≡ 64 }
{
    array::from_fn(|p| standing[p] && stays[p])
}

// Keeps the transitions whose flag is true, and the list closes up; the rows behind them become 0.
pub fn keep_transitions(net: &mut Net<'_>, keep: &[bool; MOST_TRANSITIONS]) -> Result<(), NetFault>
    ensures exact { Leaves result (view net.new) (view net.old) (keeping (λ t. slice_index_or keep.now t false) (view net.old)) }
    ensures lent { SameSheet net.new net.old }
{
    net.check_size()?;
    net.shape.transitions = keep_rows(net.sheet, net.shape.transitions, keep);
    Ok(())
}

// Keeps the transitions of which the test holds, and the list closes up.
pub fn keep_where<T: Test<Of = Transition>>(net: &mut Net<'_>, test: &T) -> Result<(), NetFault>
    ensures exact { Leaves result (view net.new) (view net.old) (keeping (T.Test.holds test.now (view net.old)) (view net.old)) }
    ensures lent { SameSheet net.new net.old }
{
    let keep = flags(net, test);
    keep_transitions(net, &keep)
}

// Keeps one transition; where it does not stand, none is kept.
pub fn keep_only(net: &mut Net<'_>, t: usize) -> Result<(), NetFault>
    ensures exact { Leaves result (view net.new) (view net.old) (keeping_only t (view net.old)) }
    ensures lent { SameSheet net.new net.old }
{
    net.check_size()?;
    net.shape.transitions = keep_row(net.sheet, net.shape.transitions, t);
    Ok(())
}

// Drops one transition, and those behind it move up in the list; where it does not stand, none is dropped.
pub fn drop_transition(net: &mut Net<'_>, t: usize) -> Result<(), NetFault>
    ensures exact { Leaves result (view net.new) (view net.old) (dropping t (view net.old)) }
    ensures lent { SameSheet net.new net.old }
{
    net.check_size()?;
    let n = net.shape.transitions;
    if t < n {
        drop_row(net.sheet, n, t);
        net.shape.transitions = n - 1;
    }
    Ok(())
}

// Removes the places outside a set: their marks, takes and puts become 0, and they no longer stand.
pub fn limit_places(net: &mut Net<'_>, set: &[u8; 8]) -> Result<(), NetFault>
    ensures exact { Leaves result (view net.new) (view net.old) (limited_to (member set.now) (view net.old)) }
    ensures lent { SameSheet net.new net.old }
{
    net.check_size()?;
    let stays = flags_of(set);
    limit_parts(net.sheet, net.shape.transitions, &stays);
    let standing = net.shape.standing;
    net.shape.standing = both(&standing, &stays);
    Ok(())
}

// Removes a place: its mark, takes and puts become 0, and it no longer stands.
pub fn remove_place(net: &mut Net<'_>, p: usize) -> Result<(), NetFault>
    ensures exact { Answered result (view net.new) (view net.old) (judged (place_checks (view net.old) p) (leaving p (view net.old))) }
    ensures lent { SameSheet net.new net.old }
{
    net.check_place(p)?;
    clear_place(net.sheet, net.shape.transitions, p);
    net.shape.standing[p] = false;
    Ok(())
}
