ghost use Rattle.std.specs.Prelude.{◌≡◌, ◌<◌, ◌++◌, length, map, slice_get, Some, OnOk, OnErr};
ghost use Rattle.std.specs.List.{flat_map};
ghost use Rattle.alpha_io.specs.SinkChange.{sink_change, Puts, WritesPartly, HasFailed};
ghost use Rattle.alpha_image.specs.Parts.{pieces};
ghost use Rattle.alpha_dis.specs.SinkEffect.{Takes, SinkFails};
ghost use Rattle.alpha_dis.specs.Listing.{text, heading, code_line, byte_line, rows, piece_of, piece_lines, listing};

use crate::block::Block;
use crate::lines::{push_bytes, push_count, push_heading, push_segment_start};
use alpha_image::{Image, Segment};
use alpha_io::{Failed, Sink};
use thiserror::Error;

// How many data bytes a line has at most.
const ROW: usize = 16;

/// Why a listing wasn't written whole.
#[derive(Clone, Copy, Debug, PartialEq, Eq, Error)]
pub enum ListFault {
    /// The sink failed.
    #[error("the listing could not be written")]
    Sink,
}

impl From<Failed> for ListFault {
    fn from(_: Failed) -> Self {
        ListFault::Sink
    }
}

/// Writes the listing of an image, in blocks of many lines. It takes no memory.
///
/// # Errors
///
/// `Sink` where the sink failed. Then a prefix of the listing was written.
pub fn list<K: Sink>(image: &Image, out: &mut K) -> Result<(), ListFault>
    ensures ok { OnOk result
        (Puts (sink_change K.Sink out.old out.new) (listing image.now)) }
    ensures prefix { WritesPartly (sink_change K.Sink out.old out.new) (listing image.now) }
    ensures cause { OnErr result (HasFailed (sink_change K.Sink out.old out.new)) }
{
    let mut block = Block::new();
    push_all(&mut block, image, out)?;
    block.flush(out)?;
    Ok(())
}

// Appends the whole listing.
#[tactic(auto, unfolding(crate::specs::Listing::listing, crate::specs::Listing::lines))]
fn push_all<K: Sink>(block: &mut Block, image: &Image, out: &mut K) -> Result<(), Failed>
    ensures ok { OnOk result (Takes (sink_change K.Sink out.old out.new)
        block.old block.new (listing image.now)) }
    ensures refused { OnErr result (SinkFails (sink_change K.Sink out.old out.new)
        (block.old ++ listing image.now)) }
{
    push_start(block, image, out)?;
    push_code(block, image, out)?;
    push_data(block, image, out)
}

// Appends the lines before the code.
fn push_start<K: Sink>(block: &mut Block, image: &Image, out: &mut K) -> Result<(), Failed>
    ensures ok { OnOk result (Takes (sink_change K.Sink out.old out.new)
        block.old block.new (text (heading image.now))) }
    ensures refused { OnErr result (SinkFails (sink_change K.Sink out.old out.new) block.old) }
{
    block.make_room(out)?;
    push_heading(block, image);
    Ok(())
}

// Appends the lines of the code words.
fn push_code<K: Sink>(block: &mut Block, image: &Image, out: &mut K) -> Result<(), Failed>
    ensures ok { OnOk result (Takes (sink_change K.Sink out.old out.new)
        block.old block.new (text (map code_line image.now.words))) }
    ensures refused { OnErr result (SinkFails (sink_change K.Sink out.old out.new)
        (block.old ++ text (map code_line image.now.words))) }
{
    for place in 0..image.words() {
        block.make_room(out)?;
        block.push_code(&image.insn_at(place));
    }
    Ok(())
}

// Appends the lines of the segments.
fn push_data<K: Sink>(block: &mut Block, image: &Image, out: &mut K) -> Result<(), Failed>
    ensures ok { let lines = flat_map (piece_lines image.now.version) (pieces image.now) in
        OnOk result (Takes (sink_change K.Sink out.old out.new)
        block.old block.new (text lines)) }
    ensures refused { let lines = flat_map (piece_lines image.now.version) (pieces image.now) in
        OnErr result (SinkFails (sink_change K.Sink out.old out.new) (block.old ++ text lines)) }
{
    for n in 0..image.segments() {
        let (segment, bytes) = segment_at(image, n);
        push_segment(block, image, &segment, bytes, out)?;
    }
    Ok(())
}

// A segment and its data bytes.
fn segment_at(image: &Image, n: u32) -> (Segment, &[u8])
    requires { n < length image.now.segments }
    ensures { slice_get (pieces image.now) n ≡ Some (piece_of result.0 result.1.now) }
{
    match (image.segment(n), image.segment_bytes(n)) {
        (Some(segment), Some(bytes)) => (segment, bytes),
        _ => unreachable!(),
    }
}

// Appends the lines of a segment with these data bytes.
fn push_segment<K: Sink>(
    block: &mut Block,
    image: &Image,
    segment: &Segment,
    bytes: &[u8],
    out: &mut K,
) -> Result<(), Failed>
    ensures ok { let piece = piece_of segment.now bytes.now in
        OnOk result (Takes (sink_change K.Sink out.old out.new)
        block.old block.new (text (piece_lines image.now.version piece))) }
    ensures refused { let piece = piece_of segment.now bytes.now in
        OnErr result (SinkFails (sink_change K.Sink out.old out.new)
        (block.old ++ text (piece_lines image.now.version piece))) }
{
    block.make_room(out)?;
    push_segment_start(block, image, segment.base);
    push_rows(block, bytes, out)?;
    block.make_room(out)?;
    push_count(block, b".zero", segment.zeroed);
    Ok(())
}

// Appends the lines of data bytes.
fn push_rows<K: Sink>(block: &mut Block, bytes: &[u8], out: &mut K) -> Result<(), Failed>
    ensures ok { OnOk result (Takes (sink_change K.Sink out.old out.new)
        block.old block.new (text (map byte_line (rows bytes.now)))) }
    ensures refused { OnErr result (SinkFails (sink_change K.Sink out.old out.new)
        (block.old ++ text (map byte_line (rows bytes.now)))) }
{
    let mut rest = bytes;
    while !rest.is_empty() {
        let (row, behind) = rest.split_at(rest.len().min(ROW));
        block.make_room(out)?;
        push_bytes(block, row);
        rest = behind;
    }
    Ok(())
}
