ghost use Rattle.std.specs.Prelude.{◌≡◌, ◌⊎◌, ◌^◌, ◌<◌, ◌≤◌, ◌++◌, ◌+◌, ◌∷◌, ℕ, List, [], Some, None, take};
ghost use Rattle.std.specs.Prelude.{length, vec_len, IfOk, IfErr};
ghost use Rattle.std.specs.Io.{ReadsAtMost};
ghost use Rattle.alpha_io.specs.History.{Piece, IsReadWhole, IsReadInPart};
ghost use Rattle.alpha_io.specs.Files.{Lacks, KeepsFiles, IfTold, IsPiece};
ghost use Rattle.alpha_io.specs.ReadWhole.{ReadCause, PieceCause};
ghost use Rattle.alpha_io.specs.declared.read.ReadFault.TheVariants.{Shelf, NoMemory};

use crate::{Failed, Shelf};
use std::alloc::{AllocError, Global};
use thiserror::Error;

// The bytes that one call of a shelf is asked for.
const PIECE: usize = 65_536;

/// Why a file wasn't read whole.
#[derive(Clone, Copy, Debug, PartialEq, Eq, Error)]
pub enum ReadFault {
    /// The shelf failed, or it tells its files and has none of this name.
    #[error("the file could not be read")]
    Shelf,
    /// The file has more bytes than the limit.
    #[error("the file is too large")]
    TooLarge,
    /// Memory ran out.
    #[error("out of memory")]
    NoMemory,
}

impl From<Failed> for ReadFault {
    ghost from_gives = { λ _ fault. fault ≡ Shelf };

    fn from(_: Failed) -> Self {
        ReadFault::Shelf
    }
}

impl From<AllocError> for ReadFault {
    ghost from_gives = { λ _ fault. fault ≡ NoMemory };

    fn from(_: AllocError) -> Self {
        ReadFault::NoMemory
    }
}

/// The bytes of a file that has at most `limit` of them.
///
/// # Errors
///
/// `Shelf` where the shelf failed, or tells its files and has none of this name. `TooLarge` where the
/// file has more bytes than the limit. `NoMemory` where memory runs out.
pub fn read_whole<H: Shelf>(
    alloc: Global,
    shelf: &mut H,
    name: &str,
    limit: u64,
) -> Result<Vec<u8>, ReadFault>
    requires { limit < 2 ^ 32 }
    ensures read { IfOk result (λ v.
        IsReadWhole (H.replies shelf.old) (H.replies shelf.new) name.now v.items) }
    ensures whole { (file : List ℕ) → IsReadWhole (H.replies shelf.old) (H.replies shelf.new) name.now file
        → IfErr result (λ fault. fault ≡ NoMemory) }
    ensures part { IfErr result (λ fault. (fault ≡ NoMemory)
        ⊎ IsReadInPart (H.replies shelf.old) (H.replies shelf.new) name.now) }
    ensures cause { ReadCause (H.files shelf.old) name.now limit
        (H.faults shelf.old) (H.faults shelf.new) result }
    ensures later { H.faults shelf.old ≤ H.faults shelf.new }
    ensures faults_unchanged { Lacks (H.files shelf.old) name.now → H.faults shelf.new ≡ H.faults shelf.old }
    ensures files { KeepsFiles (H.files shelf.old) (H.files shelf.new) }
    ensures takes { H.takes shelf.new ≡ H.takes shelf.old }
{
    // One byte past the limit shows that the file is too large, so no more are asked for.
    let most = (limit + 1) as usize;
    let mut space = vec![in alloc; 0u8; most.min(PIECE)]?;
    let buffer = space.as_mut_slice();
    let mut bytes = Vec::new(alloc);
    while bytes.len() < most {
        let room = (most - bytes.len()).min(PIECE);
        let count = append_piece(shelf, name, &mut bytes, &mut buffer[..room])?;
        if count == 0 {
            return Ok(bytes);
        }
    }
    Err(ReadFault::TooLarge)
}

// Appends the file's bytes that follow those read so far, as many as one call gives, and answers
// how many they were.
fn append_piece<H: Shelf>(
    shelf: &mut H,
    name: &str,
    bytes: &mut Vec<u8>,
    buffer: &mut [u8],
) -> Result<usize, ReadFault>
    requires { 0 < length buffer.old }
    ensures bound { ReadsAtMost result buffer.new }
    ensures len { IfOk result (λ n.
        (vec_len bytes.new ≡ vec_len bytes.old + n) × (n ≤ length buffer.old)) }
    ensures items { IfOk result (λ n. bytes.new.items ≡ bytes.old.items ++ take n buffer.new) }
    ensures replies { IfOk result (λ n. H.replies shelf.new ≡ H.replies shelf.old
        ++ Piece name.now (length bytes.old.items) (Some (take n buffer.new)) ∷ []) }
    ensures failed { IfErr result (λ fault. (fault ≡ NoMemory) ⊎ (H.replies shelf.new ≡ H.replies shelf.old
        ++ Piece name.now (length bytes.old.items) None ∷ [])) }
    ensures piece { IfOk result (λ n. IfTold (H.files shelf.old) name.now
        (λ file. IsPiece file (length bytes.old.items) n buffer.new)) }
    ensures files { KeepsFiles (H.files shelf.old) (H.files shelf.new) }
    ensures takes { H.takes shelf.new ≡ H.takes shelf.old }
    ensures cause { PieceCause (H.files shelf.old) name.now
        (H.faults shelf.old) (H.faults shelf.new) result }
    ensures later { H.faults shelf.old ≤ H.faults shelf.new }
    ensures faults_unchanged { Lacks (H.files shelf.old) name.now → H.faults shelf.new ≡ H.faults shelf.old }
{
    let at = bytes.len() as u64;
    let count = shelf.piece(name, at, buffer)?;
    bytes.extend_from_slice(&buffer[..count])?;
    Ok(count)
}
