ghost use Rattle.std.specs.Prelude.{◌≡◌};
ghost use Rattle.alpha_values.specs.Cond.{is_taken};

use crate::number::quadword;
use alpha_table::Cond;

/// Whether Ra meets the condition: its low bit is clear or set, or it is so against 0 as a signed
/// number (Architecture Handbook, sections 4.3 and 4.5).
#[tactic(auto, unfolding(crate::specs::Cond::is_taken))]
pub fn taken(c: Cond, a: u64) -> bool
    ensures { result ≡ is_taken c a }
{
    match c {
        Cond::Lbc => a & 1 == 0,
        Cond::Lbs => a & 1 == 1,
        Cond::Eq => a == 0,
        Cond::Ne => a != 0,
        Cond::Lt => quadword(a) < 0,
        Cond::Le => quadword(a) <= 0,
        Cond::Ge => quadword(a) >= 0,
        Cond::Gt => quadword(a) > 0,
    }
}
