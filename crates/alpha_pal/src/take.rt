ghost use Rattle.std.specs.Prelude.{◌≡◌, ◌<◌, ◌≤◌, IsTrue, length, IfOk, OnErr};
ghost use Rattle.std.specs.Io.KnownBytes.{IsAtEnd};
ghost use Rattle.alpha_io.specs.Faults.{HasCause};
ghost use Rattle.alpha_io.specs.Supply.{supply};
ghost use Rattle.alpha_mem.specs.Intent.{Store};
ghost use Rattle.alpha_mem.specs.Block.{shapes, within};
ghost use Rattle.alpha_mem.specs.Memory.{IsMemory};
ghost use Rattle.alpha_pal.specs.Taken.{ReadsInto, TakesPiece, TakesLess, FailsOnce, NothingLeft};

use alpha_io::{Failed, Source};
use alpha_mem::Memory;

// The bytes that one call of a source is asked for at most.
const PIECE: usize = 4_096;

// Takes input into the range, until it is full or the input has ended, and answers how many bytes
// were taken.
pub(crate) fn take_into<S: Source>(
    mem: &mut Memory,
    addr: u64,
    size: u64,
    input: &mut S,
) -> Result<u64, Failed>
    requires range { IsTrue (within (shapes mem.old) Store addr size) }
    requires good { IsMemory mem.old }
    ensures ok { IfOk result (λ n. ReadsInto mem.old mem.new addr n size
        (supply S.Source input.old) (supply S.Source input.new)) }
    ensures bound { IfOk result (λ n. n ≤ size) }
    ensures ends { IfOk result (λ n. n < size → NothingLeft (S.left input.old) (S.left input.new)) }
    ensures refused { OnErr result (TakesLess mem.old mem.new addr size
        (supply S.Source input.old) (supply S.Source input.new)) }
    ensures shapes { shapes mem.new ≡ shapes mem.old }
    ensures cause { HasCause (S.faults input.old) (S.faults input.new) result }
{
    let mut buffer = [0u8; PIECE];
    let mut done = 0;
    while done < size {
        let most = (size - done).min(PIECE as u64) as usize;
        let count = take_piece(mem, addr + done, &mut buffer[..most], input)?;
        if count == 0 {
            return Ok(done);
        }
        done += count as u64;
    }
    Ok(done)
}

// Takes input into the piece and writes it to memory, as many bytes as one call gives.
fn take_piece<S: Source>(
    mem: &mut Memory,
    addr: u64,
    piece: &mut [u8],
    input: &mut S,
) -> Result<usize, Failed>
    requires some { 0 < length piece.old }
    requires range { IsTrue (within (shapes mem.old) Store addr (length piece.old)) }
    requires good { IsMemory mem.old }
    ensures ok { IfOk result (λ n. TakesPiece mem.old mem.new addr n
        (supply S.Source input.old) (supply S.Source input.new)) }
    ensures bound { IfOk result (λ n. n ≤ length piece.old) }
    ensures ends { IfOk result (λ n. n ≡ 0 → IsAtEnd (S.left input.old)) }
    ensures same { OnErr result (mem.new ≡ mem.old) }
    ensures input { OnErr result (FailsOnce (supply S.Source input.old) (supply S.Source input.new)) }
    ensures shapes { shapes mem.new ≡ shapes mem.old }
    ensures good { IsMemory mem.new }
    ensures cause { HasCause (S.faults input.old) (S.faults input.new) result }
{
    let count = input.take(piece)?;
    mem.write(addr, &piece[..count]);
    Ok(count)
}
