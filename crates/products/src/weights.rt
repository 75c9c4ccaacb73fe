// The row of a product, of the rows of its feeder and its consumer.
ghost use Rattle.std.specs.Prelude.{◌≡◌, ℕ, ◌+◌, ◌-◌, ◌*◌, ◌/◌, ◌<◌, ◌≤◌, Some, None, length, if◌then◌else◌, ◌&&◌, nat_eq, nat_lt, nat_le, slice_index};
ghost use Rattle.net.specs.Sheets.{number, row_at};
ghost use Rattle.net.specs.States.{view, take, put};
ghost use Rattle.std.specs.List.{list_all};
ghost use Rattle.products.specs.Products.{Weights, pair_row, numbers, row_in_limits?, post_number, pre_number};

use crate::pairs::{Kind, Pair};
use checks::{put_of, take_of};
use net::{MOST_PLACES, MOST_WEIGHT, Net, ROW_SIZE, Side};
use std::array;

// The row of a transition on a sheet of the right size: its takes, then its puts.
fn row_of<'a>(net: &'a Net<'_>, t: u8) -> &'a [u32; ROW_SIZE]
    requires { (length net.now.sheet.now ≡ 12352) × (t < 96) }
    ensures numbers { (j : ℕ) → j < 128 → slice_index result.now j ≡ number (row_at (view net.now).sheet t) j }
    ensures few { Weights result.now }
{
    net.sheet[Side::Takes.base(t)..].first_chunk().unwrap()
}

// A row with 0 at p, in its half that begins at `from`.
fn outside(row: &[u32; ROW_SIZE], from: usize, p: usize) -> [u32; ROW_SIZE]
    requires { from ≤ 64 }
    ensures { (j : ℕ) → slice_index result j ≡ (if nat_lt p 64 && nat_eq j (from + p) then 0 else slice_index row.now j) }
{
    let mut rest = *row;
    if p < MOST_PLACES {
        rest[from + p] = 0;
    }
    rest
}

// The row of a product of post-agglomeration, with weights of any size: what the feeder takes, then what it puts outside p and the
// consumer's puts as often as the factor says. The sums have 32 bits, since weights have 16. Here and below the loop has no branch, so
// that the compiler takes several numbers at once.
fn post_row(
    feeder: &[u32; ROW_SIZE],
    consumer: &[u32; ROW_SIZE],
    p: usize,
    factor: u32,
) -> [u32; ROW_SIZE]
    requires { Weights feeder.now × Weights consumer.now × (factor ≤ 65535) }
    ensures { (j : ℕ) → j < 128 → slice_index result j ≡ post_number (slice_index feeder.now j) (slice_index consumer.now j) p factor j }
{
    let mut row = outside(feeder, MOST_PLACES, p);
    for j in MOST_PLACES..ROW_SIZE {
        row[j] += factor * consumer[j];
    }
    row
}

// The row of a product of pre-agglomeration, with weights of any size: what the feeder takes and the consumer takes outside p, then what
// the consumer puts.
fn pre_row(feeder: &[u32; ROW_SIZE], consumer: &[u32; ROW_SIZE], p: usize) -> [u32; ROW_SIZE]
    requires { Weights feeder.now × Weights consumer.now }
    ensures { (j : ℕ) → j < 128 → slice_index result j ≡ pre_number (slice_index feeder.now j) (slice_index consumer.now j) p j }
{
    let mut row = outside(consumer, 0, p);
    for j in 0..MOST_PLACES {
        row[j] += feeder[j];
    }
    row
}

// A weight of a row in 16 bits, where none is past the limit.
fn weight_at(row: &[u32; ROW_SIZE], j: usize) -> u16
    requires { (j < 128) × Weights row.now }
    ensures { result ≡ slice_index row.now j }
{
    // No `try_from`, since the cast loses nothing.
    row[j] as u16
}

// The same row in 16 bits, where no weight is past the limit.
fn narrow(row: &[u32; ROW_SIZE]) -> [u16; ROW_SIZE]
    requires { Weights row.now }
    ensures { result ≡ row.now }
{
    array::from_fn(|j| weight_at(row, j))
}

// Is no weight of a row past the limit? All are tested, so that the compiler takes several at once.
fn are_limited(row: &[u32; ROW_SIZE]) -> bool
    ensures { result ≡ list_all (λ w. nat_le w 65535) row.now }
{
    let mut limited = true;
    for weight in row {
        limited &= *weight <= MOST_WEIGHT;
    }
    limited
}

// The same row in 16 bits, if no weight is past the limit.
fn limited(row: &[u32; ROW_SIZE]) -> Option<[u16; ROW_SIZE]>
    ensures { result ≡ (if list_all (λ w. nat_le w 65535) row.now then Some row.now else None) }
{
    if are_limited(row) {
        Some(narrow(row))
    } else {
        None
    }
}

impl Pair {
    // How often the feeder's put into p serves the consumer's take.
    pub(crate) fn factor(self, net: &Net<'_>) -> u32
        ensures value { result ≡ put (view net.now) self.h self.p / take (view net.now) self.f self.p }
        ensures few { length net.now.sheet.now ≡ 12352 → result ≤ 65535 }
    {
        put_of(net, self.h, self.p)
            .checked_div(take_of(net, self.f, self.p))
            .unwrap_or(0)
    }

    // The row of the product, with weights of any size.
    fn wide_row(self, net: &Net<'_>) -> [u32; ROW_SIZE]
        requires { (length net.now.sheet.now ≡ 12352) × (self.h < 96) × (self.f < 96) }
        ensures { result ≡ numbers (pair_row self (view net.now)) }
    {
        let feeder = row_of(net, self.h);
        let consumer = row_of(net, self.f);
        let p = usize::from(self.p);
        match self.kind {
            Kind::Post => post_row(feeder, consumer, p, self.factor(net)),
            Kind::Pre => pre_row(feeder, consumer, p),
        }
    }

    // The row of the product, if its weights are within the limit.
    pub(crate) fn row(self, net: &Net<'_>) -> Option<[u16; ROW_SIZE]>
        requires { (length net.now.sheet.now ≡ 12352) × (self.h < 96) × (self.f < 96) }
        ensures { result ≡ (if row_in_limits? (pair_row self (view net.now)) then Some (numbers (pair_row self (view net.now))) else None) }
    {
        limited(&self.wide_row(net))
    }
}
