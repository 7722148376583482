ghost use Rattle.std.specs.Prelude.{◌≡◌, ◌≤◌, ℕ, Bool, List, Option, Some, None};
ghost use Rattle.alpha_io.specs.SinkChange.{SinkChange};
ghost use Rattle.alpha_seq.specs.declared.machine.Machine.{Machine};
ghost use Rattle.alpha_seq.specs.declared.event.Event.{Event};
ghost use Rattle.alpha_pal.specs.declared.fault.Fault.{Fault};
ghost use Rattle.alpha_seq.specs.Devices.{Drawn};
ghost use Rattle.alpha_seq.specs.Fronts.{IsFront};
ghost use Rattle.alpha_seq.specs.Machine.{program_of};
ghost use Rattle.alpha_imprecise.specs.Chosen.{most_waited};
ghost use Rattle.alpha_imprecise.specs.ChosenRun.{imprecise_by};
ghost use Rattle.alpha_imprecise.specs.ImpreciseState.{ImpreciseState, IsFresh, waited_in};
ghost use Rattle.alpha_imprecise.specs.Oracle.{Oracle};
ghost use Rattle.alpha_imprecise.specs.Fronts.{IsFreeFront};
ghost use Rattle.alpha_run.specs.SeqRun.{SeqPrefixRun, SeqRan};
ghost use Rattle.alpha_run.specs.ImpreciseRan.{ImprecisePrefixRun, ImpreciseRanAs};
ghost use Rattle.alpha_run.specs.Shows.{Shows, ShowsPart, shown_from, ShowsMade, ShowsMadePart, ShowsImprecise};
ghost use Rattle.alpha_run.specs.Shows.{ShowsImprecisePart, DrawsFew};

/// What a run has shown that a device's fault cut short is a front of what a whole run shows, which the imprecise
/// machine makes by the words that were drawn and any others behind them.
pub fn laws_of_cut_runs()
    ensures sequential { (fault : Fault) (n rest : ℕ) (watch : Bool) (m new : Machine) (input : Drawn)
        (out notes : SinkChange) → SeqPrefixRun fault n rest watch m new input out notes → IsFront n watch m out notes }
    ensures imprecise { (fault : Fault) (n rest : ℕ) (watch : Bool) (w new : ImpreciseState) (before after : Oracle)
        (input : Drawn) (out notes : SinkChange)
        → ImprecisePrefixRun fault n rest watch w new before after input out notes
        → IsFreeFront n watch w before after out notes }
{}

/// What a run did whose input is told is what the definition's run over that input shows, of so many steps or units: in
/// full, or where a device's fault cut it short a front of it. The imprecise machine's is the one that the words make
/// that were drawn, and any others behind them, also where a trap is pending at the beginning.
pub fn laws_of_told_runs()
    ensures sequential { (last : Option Event) (n left : ℕ) (watch : Bool) (m new : Machine) (input : Drawn)
        (out notes : SinkChange) (bytes : List ℕ) → SeqRan last n left watch m new input out notes
        → input.old.left ≡ Some bytes → Shows (shown_from m bytes n watch) last input out notes }
    ensures sequential_part { (fault : Fault) (n rest : ℕ) (watch : Bool) (m new : Machine) (input : Drawn)
        (out notes : SinkChange) (bytes : List ℕ) → SeqPrefixRun fault n rest watch m new input out notes
        → input.old.left ≡ Some bytes → ShowsPart (shown_from m bytes n watch) out notes }
    ensures imprecise { (last : Option Event) (n left : ℕ) (watch : Bool) (w new : ImpreciseState)
        (before after : Oracle) (input : Drawn) (out notes : SinkChange) (bytes : List ℕ)
        → ImpreciseRanAs last n left watch w new before after input out notes
        → input.old.left ≡ Some bytes → waited_in w.pending ≤ most_waited
        → ShowsMade n watch bytes last w new before after input out notes }
    ensures imprecise_part { (fault : Fault) (n rest : ℕ) (watch : Bool) (w new : ImpreciseState)
        (before after : Oracle) (input : Drawn) (out notes : SinkChange) (bytes : List ℕ)
        → ImprecisePrefixRun fault n rest watch w new before after input out notes
        → input.old.left ≡ Some bytes → waited_in w.pending ≤ most_waited
        → ShowsMadePart n watch bytes w before after out notes }
{}

/// What a run of a fresh machine did whose words are told too: over a told input it is the definition's run by those
/// words, in full, or where a device's fault cut it short a front of it. With nothing pending at the beginning no more
/// words are drawn than so many units can draw.
pub fn laws_of_told_words()
    ensures whole { (last : Option Event) (n left : ℕ) (watch : Bool) (w new : ImpreciseState)
        (before after : Oracle) (input : Drawn) (out notes : SinkChange) (bytes : List ℕ) (ahead : ℕ → ℕ)
        → ImpreciseRanAs last n left watch w new before after input out notes
        → input.old.left ≡ Some bytes → before.ahead ≡ Some ahead → IsFresh w
        → ShowsImprecise (imprecise_by (program_of w.machine) bytes ahead n watch) last before after
        input out notes }
    ensures part { (fault : Fault) (n rest : ℕ) (watch : Bool) (w new : ImpreciseState) (before after : Oracle)
        (input : Drawn) (out notes : SinkChange) (bytes : List ℕ) (ahead : ℕ → ℕ)
        → ImprecisePrefixRun fault n rest watch w new before after input out notes
        → input.old.left ≡ Some bytes → before.ahead ≡ Some ahead → IsFresh w
        → ShowsImprecisePart (imprecise_by (program_of w.machine) bytes ahead n watch) out notes }
    ensures few { (last : Option Event) (n left : ℕ) (watch : Bool) (w new : ImpreciseState)
        (before after : Oracle) (input : Drawn) (out notes : SinkChange)
        → ImpreciseRanAs last n left watch w new before after input out notes
        → w.pending ≡ None → DrawsFew n before after }
    ensures few_part { (fault : Fault) (n rest : ℕ) (watch : Bool) (w new : ImpreciseState) (before after : Oracle)
        (input : Drawn) (out notes : SinkChange)
        → ImprecisePrefixRun fault n rest watch w new before after input out notes
        → w.pending ≡ None → DrawsFew n before after }
{}
