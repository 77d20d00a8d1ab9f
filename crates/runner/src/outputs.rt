// What a run leaves at its end: the outputs that still count something.
ghost use Rattle.std.specs.Prelude.{◌≡◌, ℕ, ◌≤◌, ◌<◌, length, get_or};
ghost use Rattle.rules.specs.Calls.{over};
ghost use Rattle.rules.specs.Layout.{InTable};
ghost use Rattle.runner.specs.Code.Outputs.{Kept, counted};

use super::builder::Builder;
use super::slot;
use image::layout;

// Entry k is kept as number `kept` of the outputs if its sum counts something; answers how many are kept now.
fn keep_entry(table: &[u32], outputs: &mut [u32], k: u32, kept: u32) -> u32
    requires { (InTable k table.now) × (kept < length outputs.old) × (kept < 4294967295) }
    ensures { Kept table.now k kept outputs.old outputs.new result }
{
    if 0 < slot::numbers(table, k)[layout::SUM_COUNT] {
        outputs[kept as usize] = k;
        return kept + 1;
    }
    kept
}

// Copies those of the staged entries whose sum counts something to the outputs, and answers how many they are.
pub(crate) fn drop_empty(b: &Builder, staged: &[u32], outputs: &mut [u32]) -> u32
    requires few { (length staged.now ≤ length outputs.old) × (length staged.now < 4294967296) }
    requires slots { (i : ℕ) → i < length staged.now → InTable (get_or staged.now i 0) b.now.table.now }
    ensures { (outputs.new ≡ over (counted b.now.table.now staged.now) outputs.old)
        × (result ≡ length (counted b.now.table.now staged.now)) }
{
    let mut kept = 0;
    for &k in staged {
        kept = keep_entry(b.table, outputs, k, kept);
    }
    kept
}
