ghost use Rattle.std.specs.Prelude.{ℕ, [], ◌∷◌, Option};
ghost use Rattle.alpha_imprecise.specs.Oracle.{oracle_of, OracleDraws};

/// Where the choices of a run come from: words of 64 bits.
pub trait Chooser {
    /// The words still to come, from the next one on, or `None` where the chooser tells nothing.
    ghost ahead: { Self → Option (ℕ → ℕ) };

    /// How many words were drawn, modulo 2^64, or `None` where the chooser tells nothing.
    ghost drawn: { Self → Option ℕ };

    /// The next word.
    fn next(&mut self) -> u64
        ensures { OracleDraws (oracle_of ahead drawn self.old) (oracle_of ahead drawn self.new)
            (result ∷ []) };
}
