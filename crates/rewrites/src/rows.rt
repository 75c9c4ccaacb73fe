// New rows for a net, behind its own.
ghost use Rattle.std.specs.Prelude.{◌≡◌, ℕ, ◌+◌, ◌*◌, ◌<◌, ◌≤◌, length, IfOk, IfErr, slice_index};
ghost use Rattle.net.specs.Views.{SameSheet};
ghost use Rattle.net.specs.Refusals.{judged};
ghost use Rattle.net.specs.States.{view};
ghost use Rattle.rewrites.specs.Rows.{Appended, append_checks, Extended};

use crate::row_at;
use net::{MOST_TRANSITIONS, Net, NetFault, ROW_SIZE};

// Writes weights over as many numbers.
fn write_weights(numbers: &mut [u32], weights: &[u16])
    requires { length numbers.old ≡ length weights.now }
    ensures copied { numbers.new ≡ weights.now }
    ensures few { (i : ℕ) → slice_index numbers.new i ≤ 65535 }
{
    for (i, number) in numbers.iter_mut().enumerate() {
        *number = u32::from(weights[i]);
    }
}

// Writes rows behind the first n rows of a sheet of the right size. It stays a slice: with an array of it the goals of `append_rows`
// stayed open.
fn write_rows(sheet: &mut [u32], n: usize, rows: &[[u16; ROW_SIZE]])
    requires { (length sheet.old ≡ 12352) × (n + length rows.now ≤ 96) }
    ensures appended { Appended sheet.old sheet.new rows.now n (length rows.now) }
    ensures few { (i : ℕ) → 64 + 128 * n ≤ i → i < 64 + 128 * (n + length rows.now) → slice_index sheet.new i ≤ 65535 }
{
    let weights = rows.as_flattened();
    let from = row_at(n).start;
    write_weights(&mut sheet[from..from + weights.len()], weights);
}

// Appends rows to those of the net, each with its takes and then its puts; all else stays as it is. The weights are numbers of 16 bits,
// so that they are within their limit. They are counted first, so that at no time a number stands past the last row.
pub fn append_rows(net: &mut Net<'_>, rows: &[[u16; ROW_SIZE]]) -> Result<(), NetFault>
    ensures answer { result ≡ judged (append_checks (view net.old) (length rows.now)) tt }
    ensures appended { IfOk result (λ _. Extended (view net.new) (view net.old) rows.now) }
    ensures refused { IfErr result (λ _. view net.new ≡ view net.old) }
    ensures lent { SameSheet net.new net.old }
{
    net.check_size()?;
    let n = net.shape.transitions;
    if rows.len() > MOST_TRANSITIONS - n {
        return Err(NetFault::TooManyTransitions);
    }
    net.shape.transitions = n + rows.len();
    write_rows(net.sheet, n, rows);
    Ok(())
}
