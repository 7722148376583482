//! What holds of images and bytes, whatever is read or written. The functions do nothing.

ghost use Rattle.std.specs.Prelude.{◌≡◌, ◌<◌, ◌^◌, ◌↔◌, ◌+◌, ◌*◌, ℕ, List, length, None, Some, IsSome, All};
ghost use Rattle.std.specs.List.{flat_map};
ghost use Rattle.alpha_image.specs.Numbers.{Numbers};
ghost use Rattle.alpha_image.specs.Layout.{filled_size};
ghost use Rattle.alpha_image.specs.Rules.{FieldsFit};
ghost use Rattle.alpha_image.specs.TestsDecide.{TestsDecide};
ghost use Rattle.alpha_image.specs.FieldTests.{least_bad_field};
ghost use Rattle.alpha_image.specs.Parts.{Parts, IsImage, IsByte, SuitsVersion, numbers, pieces, place_of};
ghost use Rattle.alpha_image.specs.Parts.{image_spelling};
ghost use Rattle.alpha_image.specs.PartsOf.{parts_of};
ghost use Rattle.alpha_image.specs.ImageFault.{first_fault};
ghost use Rattle.alpha_image.specs.Tells.{parts_fault};

/// Bytes have no first fault exactly where they are the spelling of a good image, and then they are the
/// spelling of one image alone. Call it in a body whose proof needs one of them.
pub fn laws_of_spelling()
    ensures spelled { (bytes : List ℕ) → All IsByte bytes →
        (first_fault bytes ≡ None) ↔ ((p : Parts) × IsImage p × (bytes ≡ image_spelling p)) }
    ensures one_image { (p q : Parts) → IsImage p → IsImage q → image_spelling p ≡ image_spelling q → p ≡ q }
    ensures read_back { (p : Parts) → IsImage p → parts_of (image_spelling p) ≡ p }
{}

/// The code words stand one after the other from the code base on, and the entry is one of them.
/// Call it in a body whose proof needs one of them.
pub fn laws_of_places()
    ensures places { (p : Parts) → IsImage p → (address n : ℕ) →
        (place_of p address ≡ Some n) ↔ ((n < length p.words) × (address ≡ p.code_base + 4 * n)) }
    ensures entry { (p : Parts) → IsImage p → IsSome (place_of p p.entry) }
{}

/// The shares of the segments, one behind the other, are all data bytes.
/// Call it in a body whose proof needs one of them.
pub fn laws_of_pieces()
    ensures bytes { (p : Parts) → IsImage p → flat_map (λ piece. piece.bytes) (pieces p) ≡ p.bytes }
    ensures count { (p : Parts) → length (pieces p) ≡ length p.segments }
{}

/// The test of each field passes exactly where its rule holds, and no field is bad exactly where all
/// rules hold. So parts have no first fault exactly where they are a good image.
/// Call it in a body whose proof needs one of them.
pub fn laws_of_fields()
    ensures tests { (n : Numbers) → TestsDecide n }
    ensures fields { (n : Numbers) → (least_bad_field n ≡ None) ↔ FieldsFit n }
    ensures parts { (p : Parts) →
        SuitsVersion p.version (numbers p) → length p.bytes ≡ filled_size p.segments →
        All (λ word. word < 2 ^ 32) p.words → All IsByte p.bytes →
        (parts_fault (numbers p) p.words ≡ None) ↔ IsImage p }
{}
