//! What holds of sources, of listings and of the images that they assemble to. The functions do nothing.

ghost use Rattle.std.specs.Prelude.{◌≡◌, ◌<◌, ◌^◌, List, ℕ, length, Ok};
ghost use Rattle.alpha_image.specs.Parts.{Parts, IsImage};
ghost use Rattle.alpha_asm.specs.Assembled.{assembled};
ghost use Rattle.alpha_dis.specs.Listing.{listing};
ghost use Rattle.alpha_round.specs.Source.{IsSourceOf};

/// The laws of sources: each source that is not refused is a source of an image, and of one alone. So
/// what a source assembles to is an image or a refusal, whatever the source.
pub fn laws_of_sources()
    ensures some_image { (source : List ℕ) (program : _) →
        assembled source ≡ Ok program → (image : Parts) × IsSourceOf source image }
    ensures one_image { (source : List ℕ) (p q : Parts) →
        IsSourceOf source p → IsSourceOf source q → p ≡ q }
{}

/// The law of listings. The listing of a good image, of either version, is a source of that image: no
/// line of it is refused, and it assembles to the image, and to no other. So different images have
/// different listings. A listing is short enough for [`assemble`](alpha_asm::assemble), which takes
/// fewer than 2^32 bytes.
pub fn laws_of_listings()
    ensures listing { (image : Parts) → IsImage image → IsSourceOf (listing image) image }
    ensures different { (p q : Parts) → IsImage p → IsImage q → listing p ≡ listing q → p ≡ q }
    ensures bound { (image : Parts) → IsImage image → length (listing image) < 2 ^ 32 }
{}
