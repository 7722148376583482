ghost use Rattle.std.specs.Prelude.{◌≡◌, ◌≢◌, ◌≤◌, ◌<◌, ℕ, Some, length, slice_get};
ghost use Rattle.alpha_table.specs.declared.form.Form.{Form};
ghost use Rattle.alpha_table.specs.declared.columns.InsnKind.TheVariants as kinds;
ghost use Rattle.alpha_table.specs.Columns.{kind_of};

use crate::columns::is_trigger;
use alpha_table::Insn;

/// Where the first instruction with `/V` stands from a place on, or how many instructions there are: the
/// loop over words where no shadow is open.
#[inline(never)]
pub(crate) fn first_trigger(insns: &[Insn], from: usize) -> usize
    requires { from ≤ length insns.now }
    ensures above { from ≤ result }
    ensures within { result ≤ length insns.now }
    ensures quiet { (k : ℕ) (i : Form) → from ≤ k → k < result → slice_get insns.now k ≡ Some i
        → kind_of i ≢ kinds.Trigger }
    ensures trigger { (i : Form) → slice_get insns.now result ≡ Some i
        → kind_of i ≡ kinds.Trigger }
{
    for place in from..insns.len() {
        if is_trigger(&insns[place]) {
            return place;
        }
    }
    insns.len()
}
