//! The lines of directives, and of data bytes.

ghost use Rattle.std.specs.Prelude.{◌≡◌, ◌+◌, ◌*◌, ◌≤◌, ◌++◌, decimal, length, map};
ghost use Rattle.std.specs.List.{join_with_byte};
ghost use Rattle.alpha_dis.specs.declared.block.TheConstants.{BLOCK_ROOM, ROOM};
ghost use Rattle.alpha_dis.specs.Listing.{ended, text, address_line, count_line, first_lines, heading, segment_line};
ghost use Rattle.alpha_dis.specs.Listing.{byte_line};

use crate::block::Block;
use crate::digits::push_hexadecimal;
use alpha_image::Image;

// Appends the line of a directive with an address.
fn push_address(block: &mut Block, name: &[u8], address: u64)
    requires { length block.old + length name.now + 20 ≤ BLOCK_ROOM }
    ensures state { block.new ≡ block.old ++ ended (address_line name.now address) }
    ensures size { length block.new ≤ length block.old + length name.now + 20 }
{
    block.push(name);
    block.push(b" ");
    push_hexadecimal(block, address);
    block.end();
}

/// Appends the line of a directive with a count.
pub(crate) fn push_count(block: &mut Block, name: &[u8], count: u64)
    requires { length block.old + length name.now + 22 ≤ BLOCK_ROOM }
    ensures state { block.new ≡ block.old ++ ended (count_line name.now count) }
    ensures size { length block.new ≤ length block.old + length name.now + 22 }
{
    block.push(name);
    block.push(b" ");
    block.push_decimal(count);
    block.end();
}

/// Appends the fields of an image, and the line that begins the code.
pub(crate) fn push_heading(block: &mut Block, image: &Image)
    requires { length block.old + ROOM ≤ BLOCK_ROOM }
    ensures { block.new ≡ block.old ++ text (heading image.now) }
{
    push_first_lines(block, image);
    push_count(block, b".stack", u64::from(image.stack()));
    push_address(block, b".entry", image.entry());
    block.push(b".code\n");
}

// Appends the lines in which the versions differ.
fn push_first_lines(block: &mut Block, image: &Image)
    requires { length block.old + 60 ≤ BLOCK_ROOM }
    ensures state { block.new ≡ block.old ++ text (first_lines image.now.version image.now) }
    ensures size { length block.new ≤ length block.old + 60 }
{
    if image.version() == 1 {
        push_address(block, b".codebase", image.code_base());
        push_address(block, b".database", image.data_base());
    } else {
        push_count(block, b".level", u64::from(image.level().number()));
        push_address(block, b".codebase", image.code_base());
    }
}

/// Appends the line that begins a segment with this base.
pub(crate) fn push_segment_start(block: &mut Block, image: &Image, base: u64)
    requires { length block.old + ROOM ≤ BLOCK_ROOM }
    ensures { block.new ≡ block.old ++ ended (segment_line image.now.version base) }
{
    if image.version() == 1 {
        block.push(b".data\n");
    } else {
        push_address(block, b".segment", base);
    }
}

/// Appends the line of at most 16 data bytes.
pub(crate) fn push_bytes(block: &mut Block, bytes: &[u8])
    requires room { length block.old + ROOM ≤ BLOCK_ROOM }
    requires few { length bytes.now ≤ 16 }
    ensures { block.new ≡ block.old ++ ended (byte_line bytes.now) }
{
    block.push(b".byte ");
    push_values(block, bytes);
    block.end();
}

// Appends decimal values with commas between them.
fn push_values(block: &mut Block, bytes: &[u8])
    requires room { length block.old + 90 ≤ BLOCK_ROOM }
    requires few { length bytes.now ≤ 16 }
    ensures state { block.new ≡ block.old ++ join_with_byte 44 (map decimal bytes.now) }
    ensures size { length block.new ≤ length block.old + 4 * length bytes.now }
{
    for (n, byte) in bytes.iter().enumerate() {
        if n > 0 {
            block.push(b",");
        }
        block.push_decimal(u64::from(*byte));
    }
}
