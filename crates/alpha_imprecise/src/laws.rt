ghost use Rattle.std.specs.Prelude.{◌≡◌, ◌≤◌, ◌+◌, ◌++◌, ℕ, List, length, None, false};
ghost use Rattle.alpha_seq.specs.State.{Program, State};
ghost use Rattle.alpha_imprecise.specs.StepResult.{ImpreciseEvent, StepResult};
ghost use Rattle.alpha_imprecise.specs.Run.{imprecise_start, finished, RunsImprecisely, units, ImpreciseRun, RunsOver};
ghost use Rattle.alpha_imprecise.specs.Used.{HasUsed};
ghost use Rattle.alpha_imprecise.specs.Chosen.{most_waited, Draws};
ghost use Rattle.alpha_imprecise.specs.ChosenRun.{ChosenRun, begun, advance_chosen_run, chosen_run, most_steps};
ghost use Rattle.alpha_imprecise.specs.ChosenRun.{most_words, IsWithin, Nearer};

/// The laws of runs that coming words make over an input: a run of so many units, with nothing pending at the
/// beginning, uses them or is over before, with nothing pending at its end, takes 1,026 steps a unit at most, and draws
/// 2,049 words a unit at most. What is pending at the beginning takes 1,025 steps more. That is so because each step
/// uses a unit, or executes one word more while a trap is pending, or reports the trap, or is the last.
pub fn laws_of_chosen_runs()
    ensures used { (g : Program) (s : State) (input words : List ℕ) (n : ℕ)
        → let w = (chosen_run g (begun s input None 0 words) n).run in HasUsed n w.units w.at }
    ensures steps { (g : Program) (s : State) (input words : List ℕ) (n : ℕ)
        → let from = begun s input None 0 words in IsWithin (most_steps n) g from (chosen_run g from n) }
    ensures words { (g : Program) (s : State) (input words : List ℕ) (n : ℕ)
        → (chosen_run g (begun s input None 0 words) n).count ≤ most_words n }
    ensures pending { (g : Program) (from : ChosenRun) (n : ℕ)
        → IsWithin (most_waited + 1 + most_steps n) g from (chosen_run g from n) }
    ensures nearer { (g : Program) (from : ChosenRun) → finished from.run.at.last_event ≡ false
        → Nearer from (advance_chosen_run g from) }
{}

/// The laws of runs whatever their steps are given: the run that words make over an input is a list of steps that these
/// words choose and the input feeds, and each such list that has used its units is the run that they make. Words that
/// choose the steps of a run with nothing pending at the beginning, whatever comes behind them, are 2,049 a unit at
/// most.
pub fn laws_of_free_runs()
    ensures told { (g : Program) (s : State) (input words : List ℕ) (n : ℕ)
        → let k = chosen_run g (begun s input None 0 words) n in
        RunsOver g s input k.run × Draws g (imprecise_start s) 0 words k.run.steps k.words }
    ensures made { (g : Program) (s : State) (input words rest : List ℕ) (n : ℕ) (w : ImpreciseRun)
        → RunsOver g s input w → Draws g (imprecise_start s) 0 words w.steps rest
        → HasUsed n w.units w.at → (chosen_run g (begun s input None 0 words) n).run ≡ w }
    ensures words { (g : Program) (s : State) (words : List ℕ) (steps : List ImpreciseEvent)
        (at : StepResult) → RunsImprecisely g (imprecise_start s) steps at
        → ((coming : List ℕ) → Draws g (imprecise_start s) 0 (words ++ coming) steps coming)
        → length words ≤ most_words (units g (imprecise_start s) steps) }
{}
