ghost use Rattle.std.specs.Prelude.{◌≡◌, ◌≤◌, ◌<◌, ◌+◌, ◌*◌, ◌^◌, ◌++◌, length, OnOk, OnErr, Some, slice_index};
ghost use Rattle.hex.specs.Hex.{encode_lower};
ghost use Rattle.alpha_io.specs.declared.line.TheConstants.{LINE_ROOM};
ghost use Rattle.alpha_debug.specs.OutputChange.{output_change, AppendsOutput, SinkFailsWith};
ghost use Rattle.alpha_image.specs.Parts.{place_of};
ghost use Rattle.alpha_seq.specs.Notes.{register_lines};
ghost use Rattle.alpha_debug.specs.Lines.{where_line, memory_line, bytes_lines, memory_lines, code_line, code_lines};
ghost use Rattle.alpha_debug.specs.Lines.{verdict_line, log_line};

use crate::block::Block;
use alpha_image::Image;
use alpha_io::{Failed, Line, Sink};
use alpha_mem::Memory;
use alpha_seq::{End, line_of_end, write_registers};
use alpha_shadow::Broken;
use alpha_text::{LineBuf, write_line};
use alpha_verdict::line_of_broken;
use alpha_words::RegFile;

// How many bytes a line of `mem` has at most.
const ROW: usize = 16;

/// Takes all of the bytes: they wait in the block until it is full.
pub(crate) fn emit<K: Sink>(bytes: &[u8], block: &mut Block, out: &mut K) -> Result<(), Failed>
    ensures ok { OnOk result (AppendsOutput (output_change K.Sink out.old block.old out.new block.new) bytes.now) }
    ensures refused { OnErr result
        (SinkFailsWith (output_change K.Sink out.old block.old out.new block.new) bytes.now) }
{
    block.gather(bytes, out)
}

/// Takes the lines of the registers.
pub(crate) fn print_registers<K: Sink>(
    regs: &RegFile,
    block: &mut Block,
    out: &mut K,
) -> Result<(), Failed>
    ensures ok { OnOk result (AppendsOutput (output_change K.Sink out.old block.old out.new block.new)
        (register_lines regs.now)) }
    ensures refused { OnErr result (SinkFailsWith (output_change K.Sink out.old block.old out.new block.new)
        (register_lines regs.now)) }
{
    let waiting = block.len();
    match write_registers(regs, block) {
        Ok(()) => Ok(()),
        Err(Failed) => {
            block.truncate(waiting);
            block.flush(out)?;
            write_registers(regs, out)
        }
    }
}

/// `pc A`, or the line of the end.
#[tactic(auto, unfolding(crate::specs::Lines::where_line))]
pub(crate) fn where_line(end: Option<End>, pc: u64) -> Line
    ensures { result ≡ where_line end pc }
{
    match end {
        Some(end) => line_of_end(&end),
        None => {
            let mut line = Line::new();
            line.push(b"pc ");
            line.push_hex(pc);
            line.end();
            line
        }
    }
}

/// `overflows N last A`
#[tactic(auto, unfolding(crate::specs::Lines::log_line))]
pub(crate) fn log_line(count: u64, last: u64) -> Line
    ensures { result ≡ log_line count last }
{
    let mut line = Line::new();
    line.push(b"overflows ");
    line.push_decimal(count);
    line.push(b" last ");
    line.push_hex(last);
    line.end();
    line
}

/// `accepted`, or the line of the least broken place.
pub(crate) fn verdict_line(verdict: Option<Broken>, code_base: u64) -> Line
    ensures { result ≡ verdict_line verdict code_base }
{
    match verdict {
        Some(broken) => line_of_broken(&broken, code_base),
        None => {
            let mut line = Line::new();
            line.push(b"accepted\n");
            line
        }
    }
}

/// Takes the bytes of a range in lines of sixteen, or `bad range`.
pub(crate) fn print_memory<K: Sink>(
    memory: &Memory,
    at: u64,
    count: u64,
    block: &mut Block,
    out: &mut K,
) -> Result<(), Failed>
    ensures ok { OnOk result (AppendsOutput (output_change K.Sink out.old block.old out.new block.new)
        (memory_lines memory.now at count)) }
    ensures refused { OnErr result (SinkFailsWith (output_change K.Sink out.old block.old out.new block.new)
        (memory_lines memory.now at count)) }
{
    match memory.bytes(at, count) {
        Some(bytes) => print_bytes(at, bytes, block, out),
        None => emit(b"bad range\n", block, out),
    }
}

// Takes bytes in lines of sixteen, the first of which stand at an address.
fn print_bytes<K: Sink>(at: u64, bytes: &[u8], block: &mut Block, out: &mut K) -> Result<(), Failed>
    requires { at + length bytes.now < 2 ^ 64 }
    ensures ok { OnOk result (AppendsOutput (output_change K.Sink out.old block.old out.new block.new)
        (bytes_lines at bytes.now)) }
    ensures refused { OnErr result (SinkFailsWith (output_change K.Sink out.old block.old out.new block.new)
        (bytes_lines at bytes.now)) }
{
    for k in 0..bytes.len().div_ceil(ROW) {
        let front = ROW * k;
        let end = bytes.len().min(front + ROW);
        let line = memory_line(at + front as u64, &bytes[front..end]);
        emit(line.as_bytes(), block, out)?;
    }
    Ok(())
}

// An address, and the bytes there.
#[tactic(auto, unfolding(crate::specs::Lines::memory_line))]
fn memory_line(at: u64, bytes: &[u8]) -> Line
    requires { length bytes.now ≤ 16 }
    ensures { result ≡ memory_line at bytes.now }
{
    let mut line = Line::new();
    line.push_hex(at);
    line.push(b" ");
    push_bytes(&mut line, bytes);
    line.end();
    line
}

/// Takes the canonical lines of code words with their addresses, from an address on to the end of the code at most, or
/// `bad range`.
pub(crate) fn print_code<K: Sink>(
    image: &Image,
    at: u64,
    count: u64,
    block: &mut Block,
    out: &mut K,
) -> Result<(), Failed>
    ensures ok { OnOk result (AppendsOutput (output_change K.Sink out.old block.old out.new block.new)
        (code_lines image.now (place_of image.now at) count)) }
    ensures refused { OnErr result (SinkFailsWith (output_change K.Sink out.old block.old out.new block.new)
        (code_lines image.now (place_of image.now at) count)) }
{
    match image.place_of(at) {
        Some(place) => print_code_lines(image, place, count, block, out),
        None => emit(b"bad range\n", block, out),
    }
}

// Takes the lines of code words from a place on.
fn print_code_lines<K: Sink>(
    image: &Image,
    place: u32,
    count: u64,
    block: &mut Block,
    out: &mut K,
) -> Result<(), Failed>
    requires { place < length image.now.words }
    ensures ok { OnOk result (AppendsOutput (output_change K.Sink out.old block.old out.new block.new)
        (code_lines image.now (Some place) count)) }
    ensures refused { OnErr result (SinkFailsWith (output_change K.Sink out.old block.old out.new block.new)
        (code_lines image.now (Some place) count)) }
{
    let count = count.min(u64::from(image.words() - place));
    for k in 0..count {
        let line = code_line(image, place + k as u32);
        emit(line.as_bytes(), block, out)?;
    }
    Ok(())
}

// The address of a code word, and the canonical line of its instruction.
#[tactic(auto, using(crate::proofs::RowTexts::canon_of_decoded), unfolding(crate::specs::Lines::code_line))]
fn code_line(image: &Image, place: u32) -> Line
    requires { place < length image.now.words }
    ensures { result
        ≡ code_line (image.now.code_base + 4 * place) (slice_index image.now.words place) }
{
    let mut text = LineBuf::new();
    write_line(&image.insn_at(place), &mut text);
    let mut line = Line::new();
    line.push_hex(image.code_base() + 4 * u64::from(place));
    line.push(b" ");
    line.push(text.bytes());
    line.end();
    line
}

// Appends the hexadecimal digits of at most sixteen bytes.
fn push_bytes(line: &mut Line, bytes: &[u8])
    requires few { length bytes.now ≤ 16 }
    requires room { length line.old + 32 ≤ LINE_ROOM }
    ensures state { line.new ≡ line.old ++ encode_lower bytes.now }
    ensures size { length (encode_lower bytes.now) ≡ 2 * length bytes.now }
{
    let mut space = [0; 2 * ROW];
    let digits = &mut space[..2 * bytes.len()];
    let _ = hex::encode_to_slice(bytes, digits);
    line.push(digits);
}
