//! The data bytes of a source, whose padding takes no memory of its own.

ghost use Rattle.std.specs.Prelude.{◌≡◌, ◌++◌, ◌∷◌, ◌≤◌, ◌<◌, ◌^◌, [], length, replicate, OnOk, IfOk};
ghost use Rattle.alpha_words.specs.Digits.{low_bytes};
ghost use Rattle.alpha_asm.specs.Data.{before_gaps, spread};

use std::alloc::{AllocError, Global};
use std::marker::Model;

// No memory has as many bytes.
const MOST: usize = 1 << 62;

/// The zero bytes of a padding, and how many bytes stand between the padding before and this one.
#[derive(Clone, Copy, Debug)]
pub(crate) struct Gap {
    pub before: usize,
    pub zeros: u16,
}

/// The data bytes so far, which a clause sees. Of a padding only its size stands there, since the lines of
/// a source may ask for more zero bytes than an image may have.
#[derive(Drop)]
pub(crate) struct Data {
    // All bytes but those of paddings.
    bytes: Vec<u8>,
    gaps: Vec<Gap>,
    // How many of the bytes stand before the last gap.
    covered: usize,
    len: usize,
}

impl Model for Data {
    ghost use Rattle.std.specs.Prelude.{◌≡◌, ◌<◌, ◌≤◌, ◌+◌, ◌^◌, length};
    ghost use Rattle.alpha_asm.specs.Data.{DataBytes, before_gaps, zeros_of_gaps, spread};

    ghost Value = { DataBytes };

    ghost view = { λ d. record { items = spread d.gaps.items d.bytes.items } };

    ghost invariant = { λ d. (d.covered ≡ before_gaps d.gaps.items)
        × (d.covered ≤ length d.bytes.items)
        × (d.len ≡ length d.bytes.items + zeros_of_gaps d.gaps.items)
        × (d.len < 2 ^ 63) };
}

impl Data {
    /// No bytes.
    pub(crate) fn new(alloc: Global) -> Data
        ensures { result.items ≡ [] }
    {
        Data {
            bytes: Vec::new(alloc),
            gaps: Vec::new(alloc),
            covered: 0,
            len: 0,
        }
    }

    /// How many bytes.
    pub(crate) fn len(&self) -> usize
        ensures value { result ≡ length self.now.items }
        ensures bound { result < 2 ^ 63 }
    {
        self.len
    }

    /// Appends a byte.
    pub(crate) fn push(&mut self, byte: u8) -> Result<(), AllocError>
        ensures { OnOk result (self.new.items ≡ self.old.items ++ byte ∷ []) }
    {
        if self.len >= MOST {
            return Err(AllocError);
        }
        self.bytes.push(byte)?;
        self.len += 1;
        Ok(())
    }

    /// Appends the low bytes of a number, the lowest first.
    pub(crate) fn push_number(&mut self, count: u8, n: u64) -> Result<(), AllocError>
        ensures { OnOk result (self.new.items ≡ self.old.items ++ low_bytes count n) }
    {
        let mut rest = n;
        for _ in 0..count {
            self.push((rest % 256) as u8)?;
            rest /= 256;
        }
        Ok(())
    }

    /// Appends so many zero bytes.
    pub(crate) fn push_zeros(&mut self, count: u16) -> Result<(), AllocError>
        ensures { OnOk result (self.new.items ≡ self.old.items ++ replicate count 0) }
    {
        if count == 0 {
            return Ok(());
        }
        if self.len >= MOST {
            return Err(AllocError);
        }
        let before = self.bytes.len() - self.covered;
        self.gaps.push(Gap {
            before,
            zeros: count,
        })?;
        self.covered = self.bytes.len();
        self.len += usize::from(count);
        Ok(())
    }

    /// All bytes, with those of paddings.
    pub(crate) fn spread(self) -> Result<Vec<u8>, AllocError>
        ensures { IfOk result (λ all. all.items ≡ self.items) }
    {
        let Data {
            bytes,
            gaps,
            covered: _,
            len: _,
        } = self;
        if gaps.is_empty() {
            return Ok(bytes);
        }
        spread(&gaps, &bytes)
    }

    /// All bytes. Where there are more than so many, those of paddings are left out.
    pub(crate) fn spread_within(self, most: usize) -> Result<Vec<u8>, AllocError>
        ensures value { IfOk result (λ all. length self.items ≤ most → all.items ≡ self.items) }
        ensures bound { IfOk result (λ all. length all.items ≤ length self.items) }
    {
        if self.len <= most {
            self.spread()
        } else {
            let Data {
                bytes,
                gaps: _,
                covered: _,
                len: _,
            } = self;
            Ok(bytes)
        }
    }
}

// The bytes with the zero bytes of each gap where it stands.
fn spread(gaps: &[Gap], bytes: &Vec<u8>) -> Result<Vec<u8>, AllocError>
    requires { before_gaps gaps.now ≤ length bytes.now.items }
    ensures { IfOk result (λ all. all.items ≡ spread gaps.now bytes.now.items) }
{
    let mut all = Vec::new(*bytes.allocator());
    let mut rest = bytes.as_slice();
    for gap in gaps {
        all.extend_from_slice(&rest[..gap.before])?;
        push_zeros(&mut all, gap.zeros)?;
        rest = &rest[gap.before..];
    }
    all.extend_from_slice(rest)?;
    Ok(all)
}

// Appends so many zero bytes.
fn push_zeros(to: &mut Vec<u8>, count: u16) -> Result<(), AllocError>
    ensures { OnOk result (to.new.items ≡ to.old.items ++ replicate count 0) }
{
    to.resize(to.len() + usize::from(count), 0)
}
