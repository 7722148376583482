//! What holds of journals and bytes, whatever is read or written. The functions do nothing.

ghost use Rattle.std.specs.Prelude.{◌≡◌, ◌≤◌, ◌++◌, ◌↔◌, ℕ, List, true, Some, None, Ok, All};
ghost use Rattle.alpha_io.specs.SinkChange.{SinkChange};
ghost use Rattle.alpha_image.specs.Parts.{IsByte, Parts as Image};
ghost use Rattle.alpha_seq.specs.Devices.{Drawn};
ghost use Rattle.alpha_seq.specs.Run.{taken};
ghost use Rattle.alpha_seq.specs.Start.{start};
ghost use Rattle.alpha_seq.specs.State.{Program, State};
ghost use Rattle.alpha_words.specs.declared.Completion.{Completion};
ghost use Rattle.alpha_imprecise.specs.Restart.{IsRestartable};
ghost use Rattle.alpha_imprecise.specs.StepResult.{ImpreciseEvent};
ghost use Rattle.alpha_imprecise.specs.Run.{RunsOver, seen};
ghost use Rattle.alpha_imprecise.specs.Oracle.{Oracle};
ghost use Rattle.alpha_imprecise.specs.ImpreciseState.{ImpreciseState};
ghost use Rattle.alpha_replay.specs.declared.item.Item.{Item};
ghost use Rattle.alpha_replay.specs.declared.replaying.Replayed.{Replayed};
ghost use Rattle.alpha_replay.specs.Items.{units_of};
ghost use Rattle.alpha_replay.specs.Listed.{Played, played_over, listed, listed_from};
ghost use Rattle.alpha_replay.specs.Replay.{reports_of, replayed, IsRun, IsSequential};
ghost use Rattle.alpha_replay.specs.Journal.{Parts, IsJournal, spelling};
ghost use Rattle.alpha_replay.specs.Reading.{parts_of};
ghost use Rattle.alpha_replay.specs.JournalFault.{first_fault};
ghost use Rattle.alpha_replay.specs.GatheredItems.{items_of};
ghost use Rattle.alpha_replay.specs.Journaled.{journal_at, is_within, IsJournaled};
ghost use Rattle.alpha_replay.specs.JournalEnd.{JournalStops, IsJournaledAt};
ghost use Rattle.alpha_imprecise.specs.ChosenRun.{ChosenRun, begun, steps_of_chosen_run, most_words};

/// Bytes have no first fault exactly where they are the spelling of a good journal, and then they are the
/// spelling of one journal alone.
pub fn laws_of_journals()
    ensures spelled { (bytes : List ℕ) → All IsByte bytes →
        (first_fault bytes ≡ None) ↔ ((p : Parts) × IsJournal p × (bytes ≡ spelling p)) }
    ensures one_journal { (p q : Parts) → IsJournal p → IsJournal q → spelling p ≡ spelling q
        → p ≡ q }
    ensures read_back { (p : Parts) → IsJournal p → parts_of (spelling p) ≡ p }
{}

/// The items of a journal list steps of the imprecise machine: where they lead to a run, it is one of these
/// steps that the input feeds, and it has used as many units as the items say.
///
/// So a journal that was replayed shows a row of such steps of the image from the start, over its input,
/// that takes all of it, puts its output and ends as it says. If the image can be restarted, the
/// sequential run over that input takes all of it, puts that output and ends so, after as many steps.
pub fn laws_of_replays()
    ensures listed { (g : Program) (input : List ℕ) (items : List Item) (q : Played)
        → listed g input items ≡ Ok q
        → RunsOver g (start g) input q.run }
    ensures units { (g : Program) (input : List ℕ) (items : List Item) (q : Played)
        → listed g input items ≡ Ok q → q.run.units ≡ units_of items }
    ensures replayed { (image : Image) (p : Parts) (r : Replayed) → replayed image p ≡ Ok r
        → IsRun image p r.units }
    ensures restarted { (image : Image) (p : Parts) (r : Replayed) → replayed image p ≡ Ok r
        → IsRestartable image → IsSequential image p r.units }
{}

/// The laws of runs that words make and that have a journal: such a run stops, within its units and with no more words
/// than they draw, and there is one place where it does. It is reached by steps of the run that these words make, and
/// the items that are gathered of it list these steps over its input.
///
/// What items list over an input they list over its front that they took. So the items of such a run list it over
/// the input that it has taken, which is that of its journal; and the replay of a journal that is within the limits
/// is done, with the units and the reports of the run.
///
/// A run that was made over an input that is told stops where the run over that input does by its words, whatever comes
/// behind them: with the same steps, which took a front of the input.
pub fn laws_of_journaled_runs()
    ensures some { (n : ℕ) (g : Program) (s : State) (input words : List ℕ)
        → (k : ChosenRun) × IsJournaled n g (begun s input None 0 words) k }
    ensures few { (n : ℕ) (g : Program) (s : State) (input words : List ℕ) (k : ChosenRun)
        → IsJournaled n g (begun s input None 0 words) k
        → (k.run.units ≤ n) × (k.count ≤ most_words n) }
    ensures one { (n : ℕ) (g : Program) (from k l : ChosenRun)
        → IsJournaled n g from k → IsJournaled n g from l → k ≡ l }
    ensures runs { (n : ℕ) (g : Program) (from k : ChosenRun) → IsJournaled n g from k
        → (steps : ℕ) × (k ≡ steps_of_chosen_run g from steps) }
    ensures listed { (n : ℕ) (g : Program) (input words : List ℕ) (k : ChosenRun)
        → IsJournaled n g (begun (start g) input None 0 words) k
        → listed g input (items_of k.run.steps) ≡ Ok (record { run = k.run; waited = k.waited }) }
    ensures taken { (n : ℕ) (g : Program) (items : List Item) (p q : Played) (front rest : List ℕ)
        → listed_from g n items p ≡ Ok q → q.run.left ≡ front ++ rest
        → (fed : List ℕ) × (p.run.left ≡ fed ++ rest)
        × (listed_from g n items (played_over fed p) ≡ Ok (played_over front q)) }
    ensures replayed { (n : ℕ) (image : Image) (completion : Completion) (input words : List ℕ)
        (k : ChosenRun)
        → let g : Program = record { image = image; completion = completion } in
        IsJournaled n g (begun (start g) input None 0 words) k
        → is_within (journal_at completion k) ≡ true
        → replayed image (journal_at completion k)
        ≡ Ok (record { units = k.run.units; reports = reports_of (items_of k.run.steps) }) }
    ensures told { (n : ℕ) (last : ImpreciseEvent) (old new : ImpreciseState) (before after : Oracle)
        (input : Drawn) (out sink : SinkChange) (s : JournalStops n last old new before after input out sink)
        (bytes coming : List ℕ) → input.old.left ≡ Some bytes
        → (k : ChosenRun) × IsJournaledAt n old bytes (s.ran.words ++ coming) k
        × (k.run.steps ≡ s.ran.steps) × (bytes ≡ taken (seen k.run.steps) ++ k.run.left) }
{}
