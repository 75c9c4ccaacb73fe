// The numbers of a net by 64, one for each place: its marks, and the weights of a transition on one side.
ghost use Rattle.std.specs.Prelude.{◌≡◌, ℕ, ◌≤◌, length, slice_index};
ghost use Rattle.net.specs.Sheets.{base};
ghost use Rattle.net.specs.States.{view, mark};
ghost use Rattle.checks.specs.Alone.{weight};
ghost use Rattle.checks.specs.Rows.{whole};

use net::{MOST_PLACES, Net, Side};

// The 64 numbers of a sheet from `from` on, if all of them are there; else zeros. The bound only keeps the sum small.
fn chunk(sheet: &[u32], from: usize) -> &[u32; MOST_PLACES]
    requires { from ≤ 65536 }
    ensures { (p : ℕ) → slice_index result.now p ≡ whole sheet.now from p }
{
    if sheet.len() < from + MOST_PLACES {
        return &[0; MOST_PLACES];
    }
    sheet[from..].first_chunk().unwrap()
}

// The start marks of all places: on a sheet of the right size each is that of its place.
pub fn marks_of<'a>(net: &'a Net<'_>) -> &'a [u32; MOST_PLACES]
    ensures exact { (p : ℕ) → slice_index result.now p ≡ whole (view net.now).sheet 0 p }
    ensures sized { length net.now.sheet.now ≡ 12352 → (p : ℕ) → slice_index result.now p ≡ mark (view net.now) p }
{
    chunk(net.sheet, 0)
}

// The weights of a transition at all places, on one side: on a sheet of the right size each is that at its place.
pub fn weights_of<'a>(net: &'a Net<'_>, side: Side, t: u8) -> &'a [u32; MOST_PLACES]
    ensures exact { (p : ℕ) → slice_index result.now p ≡ whole (view net.now).sheet (base side t) p }
    ensures sized { length net.now.sheet.now ≡ 12352 → (p : ℕ) → slice_index result.now p ≡ weight side (view net.now) t p }
{
    chunk(net.sheet, side.base(t))
}

// The number of a place; 0 past the last place.
pub fn number_in(row: &[u32; MOST_PLACES], p: u8) -> u32
    ensures { result ≡ slice_index row.now p }
{
    row.get(usize::from(p)).copied().unwrap_or(0)
}
