//! What holds of cuts and of fixed sources, whatever they are of. The functions do nothing.

ghost use Rattle.std.specs.Prelude.{◌≡◌, ◌<◌, ◌+◌, ◌⊎◌, ℕ, List, length, slice_get, Some};
ghost use Rattle.alpha_shadow.specs.declared.broken.Broken.{Broken};
ghost use Rattle.alpha_shadow.specs.Broken.{IsAccepted};
ghost use Rattle.alpha_fix.specs.Cuts.{AreCuts, NoneAlone, barred, without, HasBroken};
ghost use Rattle.alpha_fix.specs.Fix.{IsLeastAlone, IsFixedSource};

/// The laws of cuts. Where no trigger is broken at its own place, code with a barrier at each cut is
/// accepted; without any one of them a place is broken. The cuts of code are one list, and all code
/// has such cuts or a first trigger that is broken at its own place, which is one too.
pub fn laws_of_cuts()
    ensures accepted { (code cuts : List ℕ) →
        NoneAlone code → AreCuts code cuts → IsAccepted (barred code cuts) }
    ensures needed { (code cuts : List ℕ) (j : ℕ) →
        AreCuts code cuts → j < length cuts → HasBroken (barred code (without j cuts)) }
    ensures one { (code a b : List ℕ) → AreCuts code a → AreCuts code b → a ≡ b }
    ensures some { (code : List ℕ) →
        (NoneAlone code × ((cuts : List ℕ) × AreCuts code cuts))
        ⊎ ((b : Broken) × IsLeastAlone code b) }
    ensures alone { (code : List ℕ) (b c : Broken) → IsLeastAlone code b → IsLeastAlone code c
        → b ≡ c }
{}

/// The laws of fixed sources. The image of a fixed source is accepted; without the word of any one of
/// the added barriers, which stands behind the words before its cut and the barriers before it, a
/// place is broken. A source whose image is accepted is its own fixed source. A source has one fixed
/// source at most.
pub fn laws_of_fixed_sources()
    ensures accepted { (source text : List ℕ) (f : IsFixedSource source text)
        → IsAccepted f.fixed.words }
    ensures needed { (source text : List ℕ) (f : IsFixedSource source text) (j cut : ℕ) →
        slice_get f.cuts j ≡ Some cut → HasBroken (without (cut + j) f.fixed.words) }
    ensures unchanged { (source text : List ℕ) (f : IsFixedSource source text) →
        IsAccepted f.image.words → text ≡ source }
    ensures one { (source a b : List ℕ) → IsFixedSource source a → IsFixedSource source b → a ≡ b }
{}
