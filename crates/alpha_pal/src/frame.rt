ghost use Rattle.std.specs.Prelude.{◌≡◌, ◌+◌, ◌^◌, ◌<◌, ◌≤◌, ◌++◌, length, take, drop};
ghost use Rattle.alpha_words.specs.Digits.{low_bytes, little_at};
ghost use Rattle.alpha_pal.specs.Frame.{bytes_of, frame_of};

use byteorder::{ByteOrder, LittleEndian};

/// How many bytes a frame has.
pub(crate) const SIZE: usize = 48;

/// What an entry saves on the kernel stack, six quadwords (Reference Manual, OSF/1 PALcode stack
/// frames): the processor status, the PC and the global pointer, and R16, R17 and R18.
#[derive(Clone, Copy, Debug)]
pub(crate) struct Frame {
    pub ps: u64,
    pub pc: u64,
    pub gp: u64,
    pub r16: u64,
    pub r17: u64,
    pub r18: u64,
}

impl Frame {
    // The frame that these bytes hold.
    #[tactic(auto, unfolding(crate::specs::Frame::frame_of))]
    pub(crate) fn read(bytes: &[u8]) -> Frame
        requires { length bytes.now ≡ SIZE }
        ensures { result ≡ frame_of bytes.now }
    {
        Frame {
            ps: quadword(bytes, 0),
            pc: quadword(bytes, 8),
            gp: quadword(bytes, 16),
            r16: quadword(bytes, 24),
            r17: quadword(bytes, 32),
            r18: quadword(bytes, 40),
        }
    }

    // Writes the frame's bytes.
    pub(crate) fn write(self, bytes: &mut [u8])
        requires { length bytes.old ≡ SIZE }
        ensures bytes { bytes.new ≡ bytes_of self }
        ensures numbers { frame_of bytes.new ≡ self }
    {
        put_quadword(bytes, 0, self.ps);
        put_quadword(bytes, 8, self.pc);
        put_quadword(bytes, 16, self.gp);
        put_quadword(bytes, 24, self.r16);
        put_quadword(bytes, 32, self.r17);
        put_quadword(bytes, 40, self.r18);
    }
}

// The quadword at this offset.
fn quadword(bytes: &[u8], at: usize) -> u64
    requires { at + 8 ≤ length bytes.now }
    ensures { result ≡ little_at 8 at bytes.now }
{
    LittleEndian::read_u64(&bytes[at..])
}

// Writes the quadword at this offset.
fn put_quadword(bytes: &mut [u8], at: usize, value: u64)
    requires { at + 8 ≤ length bytes.old }
    ensures bytes { bytes.new ≡ take at bytes.old
        ++ (low_bytes 8 value ++ drop (at + 8) bytes.old) }
    ensures fits { value < 2 ^ 64 }
{
    LittleEndian::write_u64(&mut bytes[at..], value);
}
