ghost use Rattle.std.specs.Prelude.{◌≡◌, IfErr, IfOk};
ghost use Rattle.alpha_shadow.specs.Broken.{IsAccepted};
ghost use Rattle.alpha_shadow.specs.Words.{AreKnown, Refuses};

use alpha_shadow::{Refusal, judge_words};

/// Code that survives late traps: who has one need not ask.
#[derive(Drop)]
pub struct SafeCode<'a> {
    words: &'a [u32],
    ghost known: { AreKnown words.now },
    ghost safe: { IsAccepted words.now },
}

impl<'a> SafeCode<'a> {
    /// Code of these words.
    ///
    /// # Errors
    ///
    /// The first word that is no instruction, or the least place that breaks a shadow.
    pub fn new(words: &'a [u32]) -> Result<SafeCode<'a>, Refusal>
        ensures same { IfOk result (λ code. code.words.now ≡ words.now) }
        ensures refused { IfErr result (Refuses words.now) }
    {
        judge_words(words)?;
        Ok(SafeCode { words })
    }

    /// Its words.
    pub fn words(&self) -> &[u32]
        ensures same { result.now ≡ self.now.words.now }
        ensures known { AreKnown result.now }
        ensures safe { IsAccepted result.now }
    {
        self.words
    }
}
