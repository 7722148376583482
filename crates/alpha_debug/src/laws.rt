ghost use Rattle.std.specs.Prelude.{◌≡◌, ℕ, List};
ghost use Rattle.alpha_image.specs.Parts.{Parts};
ghost use Rattle.alpha_debug.specs.Script.{Transcript, IsTranscript};

/// The laws of transcripts: every script has one at every image, and two that are made with one verdict are the same.
/// (The least broken place is one, so that the verdicts are the same is known of every two.)
pub fn laws_of_transcripts()
    ensures some { (image : Parts) (script : List ℕ)
        → (t : Transcript) × IsTranscript image script t }
    ensures one { (image : Parts) (script : List ℕ) (t u : Transcript)
        → (p : IsTranscript image script t) → (q : IsTranscript image script u)
        → p.setting.verdict ≡ q.setting.verdict → t ≡ u }
{}
