//! What holds of modules and bytes, whatever is read or written. The functions do nothing.

ghost use Rattle.std.specs.Prelude.{◌≡◌, List, ℕ, All, Ok, IsSome};
ghost use Rattle.std.specs.List.{concat};
ghost use Rattle.alpha_table.specs.Decoded.{decoded};
ghost use Rattle.alpha_image.specs.Parts.{Parts, IsByte, IsImage};
ghost use Rattle.alpha_asm.specs.Program.{Program, program_of};
ghost use Rattle.alpha_shadow.specs.Broken.{IsAccepted};
ghost use Rattle.alpha_link.specs.Alike.{AreAlike};
ghost use Rattle.alpha_link.specs.Linked.{linked};
ghost use Rattle.alpha_link.specs.Parts.{ModuleParts, IsModule};
ghost use Rattle.alpha_link.specs.Spelled.{module_at, spelling};

/// Bytes that are read as a module are its spelling, and the module is good. Each good module is read
/// back from its spelling, so no two of them have one spelling.
pub fn laws_of_modules()
    ensures spelled { (bytes : List ℕ) (m : ModuleParts) → All IsByte bytes →
        module_at bytes ≡ Ok m → IsModule m × (bytes ≡ spelling m) }
    ensures read_back { (m : ModuleParts) → IsModule m → module_at (spelling m) ≡ Ok m }
    ensures one_module { (m n : ModuleParts) → IsModule m → IsModule n →
        spelling m ≡ spelling n → m ≡ n }
{}

/// Code that consists of accepted parts, one behind the other, is accepted: no shadow leaves an accepted
/// part. Code whose words have the columns of accepted code is accepted too, so a displacement that is
/// put in later changes no verdict.
pub fn laws_of_joined_code()
    ensures joined { (parts : List (List ℕ)) → All IsAccepted parts → IsAccepted (concat parts) }
    ensures alike { (a b : List ℕ) → AreAlike a b → IsAccepted a → IsAccepted b }
{}

/// Modules that were judged apart need not be judged again: where the code of each one is accepted, the
/// image that they link to is accepted, whatever addresses are put in. What good modules link to is the
/// program of an image.
pub fn laws_of_linked_code()
    ensures accepted { (modules : List ModuleParts) (entry : List ℕ) (image : Parts)
        → IsImage image →
        linked modules entry ≡ Ok (program_of image) →
        All (λ m. All (λ word. IsSome (decoded word)) m.words × IsAccepted m.words) modules →
        IsAccepted image.words }
    ensures image { (modules : List ModuleParts) (entry : List ℕ) (program : Program) →
        All IsModule modules → linked modules entry ≡ Ok program →
        (image : Parts) × IsImage image × (program_of image ≡ program) }
{}
