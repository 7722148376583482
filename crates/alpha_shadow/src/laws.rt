ghost use Rattle.std.specs.Prelude.{◌⊎◌, ℕ, List};
ghost use Rattle.alpha_shadow.specs.declared.broken.Broken.{Broken};
ghost use Rattle.alpha_shadow.specs.Broken.{IsBroken, IsAccepted};
ghost use Rattle.alpha_shadow.specs.Least.{IsLeastBroken};

/// The laws of verdicts, for every list of words: each place is broken under a condition or isn't,
/// and the list is accepted or has a least broken place. Call it in a body whose proof needs one of them.
pub fn laws_of_verdicts()
    ensures decided { (code : List ℕ) (trigger at : ℕ) (condition : _)
        → IsBroken code trigger at condition ⊎ ¬ IsBroken code trigger at condition }
    ensures verdict { (code : List ℕ) → IsAccepted code ⊎ ((b : Broken) × IsLeastBroken code b) }
{}
