ghost use Rattle.std.specs.Prelude.{◌≡◌, ◌≤◌, ℕ, true, false, List, length, Option};
ghost use Rattle.alpha_table.specs.Class.{Class};
ghost use Rattle.alpha_mem.specs.Block.{shapes};
ghost use Rattle.alpha_seq.specs.declared.end.End.{End};
ghost use Rattle.alpha_seq.specs.State.{Program, State, Event, Ends, Stepped};
ghost use Rattle.alpha_seq.specs.Step.{step};
ghost use Rattle.alpha_seq.specs.Run.{begins, Runs, Fed, ReadNothing, Run, after, is_over};

/// The laws of steps: a step leaves how many registers there are and where the blocks of memory lie, and where it
/// ends the program it leaves all.
pub fn laws_of_steps()
    ensures registers { (g : Program) (class : Option Class) (s : State) (input : List ℕ)
        → length (step g class s input).state.regs ≡ length s.regs }
    ensures shapes { (g : Program) (class : Option Class) (s : State) (input : List ℕ)
        → shapes (step g class s input).state.mem ≡ shapes s.mem }
    ensures ended { (g : Program) (class : Option Class) (s : State) (input : List ℕ) (e : End)
        → (step g class s input).event ≡ Ends e → (step g class s input).state ≡ s }
{}

/// The laws of runs: a run that is over stays, and one that isn't has made all its steps.
pub fn laws_of_runs()
    ensures over { (g : Program) (s : State) (input : List ℕ) (n m : ℕ) → n ≤ m
        → is_over (after g s input n).at.event ≡ true → after g s input m ≡ after g s input n }
    ensures steps { (g : Program) (s : State) (input : List ℕ) (n : ℕ)
        → is_over (after g s input n).at.event ≡ false → length (after g s input n).events ≡ n }
{}

/// The laws of inputs: the run over an input is a list of events that the input fed, and each such list is the run over
/// it. Where none of its steps reads, a run is the same over every input, and leaves all of it, whatever its steps were
/// given.
pub fn laws_of_inputs()
    ensures told { (g : Program) (s : State) (input : List ℕ) (n : ℕ)
        → let r = after g s input n in
        Runs g (begins s) r.events r.at × Fed input r.events r.left }
    ensures fed { (g : Program) (s : State) (events : List Event) (at : Stepped) (input left : List ℕ)
        → Runs g (begins s) events at → Fed input events left
        → after g s input (length events) ≡ record { at = at; events = events; left = left } }
    ensures unread { (g : Program) (s : State) (events : List Event) (at : Stepped) (input : List ℕ)
        → Runs g (begins s) events at → ReadNothing events
        → after g s input (length events) ≡ record { at = at; events = events; left = input } }
{}
