// New start marks for a net.
ghost use Rattle.std.specs.Prelude.{◌≡◌, ℕ, ◌<◌, ◌≤◌, length, slice_index};
ghost use Rattle.net.specs.Views.{SameSheet};
ghost use Rattle.net.specs.Looks.{Leaves};
ghost use Rattle.net.specs.States.{view, rows};
ghost use Rattle.theory.specs.Rewrites.{rewritten};

use net::{MOST_PLACES, Net, NetFault};

// Writes the 64 marks in front of the rows.
fn mark_rows(sheet: &mut [u32], marks: &[u32; MOST_PLACES])
    requires { length sheet.old ≡ 12352 }
    ensures front { (p : ℕ) → p < 64 → slice_index sheet.new p ≡ slice_index marks.now p }
    ensures rows { (i : ℕ) → 64 ≤ i → slice_index sheet.new i ≡ slice_index sheet.old i }
    ensures size { length sheet.new ≡ 12352 }
{
    sheet[..MOST_PLACES].copy_from_slice(marks);
}

// Gives the net these start marks; its transitions and its places stay.
pub fn write_marks(net: &mut Net<'_>, marks: &[u32; MOST_PLACES]) -> Result<(), NetFault>
    ensures exact { Leaves result (view net.new) (view net.old) (rewritten (view net.old) (λ p. slice_index marks.now p) (rows (view net.old)) (view net.old).standing) }
    ensures lent { SameSheet net.new net.old }
{
    net.check_size()?;
    mark_rows(net.sheet, marks);
    Ok(())
}
