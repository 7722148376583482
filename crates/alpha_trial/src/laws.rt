//! What holds of the program of a trial. The function does nothing.

ghost use Rattle.std.specs.Prelude.{◌≡◌, ◌+◌, ◌*◌, ℕ, ◌≤◌, map, length, count_by, Some};
ghost use Rattle.alpha_table.specs.Decoded.{decoded};
ghost use Rattle.alpha_image.specs.Parts.{IsImage};
ghost use Rattle.alpha_shadow.specs.Broken.{IsAccepted};
ghost use Rattle.alpha_trial.specs.Program.{program};
ghost use Rattle.alpha_trial.specs.Words.{program_words, trial_image};
ghost use Rattle.alpha_trial.specs.Report.{is_trigger, sequential_run, imprecise_run, trial_text};
ghost use Rattle.alpha_trial.specs.Lines.{Exits, EndsAlike, HasLines};

/// The laws of trials. The words of a trial's program are those of its instructions; there are nine for
/// each block and ten more, and two for each block may trap. The checker accepts the program, whatever
/// numbers are drawn, and its image is good.
///
/// Its sequential run takes a step a word, puts eight bytes and exits with 0. Its imprecise run by the
/// words of any seed ends so too, after as many units and in the same state, and draws a word at least
/// for each overflow. So both lines of the trial have as many steps as words, the same number of
/// overflows and the same eight bytes.
pub fn laws_of_trials()
    ensures words { (n : ℕ) → map decoded (program_words n) ≡ map (λ i. Some i) (program n) }
    ensures size { (n : ℕ) → length (program_words n) ≡ 9 * n + 10 }
    ensures triggers { (n : ℕ) → count_by is_trigger (program_words n) ≡ 2 * n }
    ensures accepted { (n : ℕ) → IsAccepted (program_words n) }
    ensures good { (n : ℕ) → n ≤ 20000 → IsImage (trial_image n) }
    ensures exits { (n units : ℕ) → n ≤ 20000 → 9 * n + 10 ≤ units
        → Exits (9 * n + 10) (sequential_run units (trial_image n)) }
    ensures alike { (n units seed : ℕ) → n ≤ 20000 → 9 * n + 10 ≤ units
        → EndsAlike (sequential_run units (trial_image n))
        (imprecise_run units (trial_image n) seed) }
    ensures lines { (n : ℕ) → n ≤ 20000 → HasLines n (trial_text n) }
{}
