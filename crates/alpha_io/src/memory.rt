// What the devices in memory share.
ghost use Rattle.std.specs.Prelude.{◌≡◌, ◌↔◌, ◌-◌, ◌<◌, length, min, take, IsTrue, Contains};
ghost use Rattle.alpha_io.specs.Files.{IsPiece};

pub(crate) mod shelf;
pub(crate) mod sink;
pub(crate) mod source;
pub(crate) mod sure_shelf;
pub(crate) mod trickle;

// Copies the front of the bytes into the front of the buffer, and answers how many they were.
fn copy_front(bytes: &[u8], buf: &mut [u8]) -> usize
    ensures count { result ≡ min (length buf.old) (length bytes.now) }
    ensures front { take result buf.new ≡ take result bytes.now }
{
    let count = buf.len().min(bytes.len());
    buf[..count].copy_from_slice(&bytes[..count]);
    count
}

// Copies the file's bytes from `at` on into the front of the buffer, as many as are there and fit.
fn copy_piece(file: &[u8], at: u64, buf: &mut [u8]) -> usize
    requires { 0 < length buf.old }
    ensures count { result ≡ min (length buf.old) (length file.now - at) }
    ensures bytes { IsPiece file.now at result buf.new }
{
    let start = (at as usize).min(file.len());
    copy_front(&file[start..], buf)
}

// Whether a call's number is listed.
fn is_listed(numbers: &[u64], number: u64) -> bool
    ensures { IsTrue result ↔ Contains numbers.now number }
{
    numbers.contains(&number)
}
