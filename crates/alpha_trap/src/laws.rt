//! What holds of scans and reports. The functions do nothing.

ghost use Rattle.std.specs.Prelude.{◌≡◌, ◌≢◌, ◌<◌, ◌^◌, ◌↔◌, ℕ, List, Some, IsTrue, length};
ghost use Rattle.alpha_words.specs.declared.Completion.{Completion};
ghost use Rattle.alpha_words.specs.Regs.{Has};
ghost use Rattle.alpha_table.specs.Code.{Straight, class_at, trap_rc};
ghost use Rattle.alpha_pal.specs.Kernel.{arith_frame, arith_regs, entered};
ghost use Rattle.alpha_image.specs.Parts.{Parts};
ghost use Rattle.alpha_trap.specs.Scan.{fits, place_or_end, scan};
ghost use Rattle.alpha_trap.specs.Finds.{Covers, Finds, Fits};
ghost use Rattle.alpha_trap.specs.Handler.{handled, reported};

/// The scan as a function is the scan as a relation, so it finds one place at most. It finds a trigger
/// that a program ran straight on from, if the trigger's destination is in the mask and is that of no
/// trigger behind it. Call it in a body whose proof needs one of them.
pub fn laws_of_scans()
    ensures fits { (code : List ℕ) (mask at to : ℕ) → at < to
        → IsTrue (fits code mask at to) ↔ Fits code mask at to }
    ensures finds { (image : Parts) (pc mask at : ℕ)
        → (scan image pc mask ≡ Some at) ↔ Finds image pc mask at }
    ensures last { (image : Parts) (pc mask at to rc : ℕ) → place_or_end image pc ≡ Some to
        → at < to
        → trap_rc (class_at image.words at) ≡ Some rc → rc < 31 → Has mask rc
        → Covers image.words mask at to → Straight image.words at to
        → ((k : ℕ) → at < k → k < to → trap_rc (class_at image.words k) ≢ Some rc)
        → scan image pc mask ≡ Some at }
{}

/// Directly after an arithmetic entry the handler leaves what a report at the given address with the
/// given mask leaves of the registers before the entry. Call it in a body whose proof needs one of them.
pub fn laws_of_reports()
    ensures { (image : Parts) (completion : Completion) (pc mask : ℕ) (regs : List ℕ)
        → length regs ≡ 32 → mask < 2 ^ 31
        → handled image completion (entered (arith_frame pc regs) regs) (arith_regs regs mask)
        ≡ reported image completion pc mask regs }
{}
