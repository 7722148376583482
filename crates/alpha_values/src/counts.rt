ghost use Rattle.std.specs.Prelude.{◌≡◌, reverse, sum};
ghost use Rattle.alpha_values.specs.Bits.{bits_of, zeros_before_one};

/// How many bits are 1.
#[tactic(auto, using(crate::proofs::CountLemmas::sum_bits))]
pub(crate) fn ones(b: u64) -> u64
    ensures { result ≡ sum (bits_of b) }
{
    u64::from(b.count_ones())
}

/// How many zeros stand above the highest bit that is 1, all 64 where none is.
#[tactic(auto, using(crate::proofs::CountLemmas::leading_bits))]
pub(crate) fn zeros_above(b: u64) -> u64
    ensures { result ≡ zeros_before_one (reverse (bits_of b)) }
{
    u64::from(b.leading_zeros())
}

/// How many zeros stand below the lowest bit that is 1, all 64 where none is.
#[tactic(auto, using(crate::proofs::CountLemmas::trailing_bits))]
pub(crate) fn zeros_below(b: u64) -> u64
    ensures { result ≡ zeros_before_one (bits_of b) }
{
    u64::from(b.trailing_zeros())
}
