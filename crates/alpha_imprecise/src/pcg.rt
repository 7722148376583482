ghost use Rattle.std.specs.Prelude.{◌≡◌, Some, None};
ghost use Rattle.alpha_imprecise.specs.Pcg.{pcg_word, seeded};

use crate::Chooser;
use rand_core::SeedableRng;
use rand_core::utils::NextWord;
use rand_pcg::Lcg128Xsl64;
use std::marker::Model;

/// The words of a seeded generator, PCG XSL RR 128/64.
#[derive(Debug, Drop)]
pub struct PcgChooser {
    generator: Lcg128Xsl64,
}

impl Model for PcgChooser {
    ghost use Rattle.rand_pcg.specs.Lcg.{Lcg};

    ghost Value = { Lcg };

    ghost view = { λ c. c.generator };
}

impl PcgChooser {
    /// The successive words of the generator that this number seeds.
    pub fn new(seed: u64) -> PcgChooser
        ensures { result ≡ seeded seed }
    {
        PcgChooser {
            generator: Lcg128Xsl64::seed_from_u64(seed),
        }
    }
}

impl Chooser for PcgChooser {
    ghost ahead = { λ c. Some (pcg_word c) };

    ghost drawn = { λ _. None };

    fn next(&mut self) -> u64 {
        self.generator.next_word()
    }
}
