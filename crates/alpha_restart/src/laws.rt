//! What holds of images that the checker accepts. The functions do nothing.

ghost use Rattle.std.specs.Prelude.{◌≡◌, ◌≤◌, ◌⊎◌, ℕ, List, Option};
ghost use Rattle.alpha_words.specs.Regs.{reg};
ghost use Rattle.alpha_table.specs.Class.{Class};
ghost use Rattle.alpha_image.specs.Parts.{Parts, IsImage};
ghost use Rattle.alpha_shadow.specs.declared.broken.Condition.{Condition};
ghost use Rattle.alpha_shadow.specs.Broken.{IsAccepted};
ghost use Rattle.alpha_shadow.specs.Least.{condition_number};
ghost use Rattle.alpha_seq.specs.State.{Program, State};
ghost use Rattle.alpha_seq.specs.Step.{step};
ghost use Rattle.alpha_imprecise.specs.StepResult.{Trap, Choice, StepResult};
ghost use Rattle.alpha_imprecise.specs.Step.{imprecise_step};
ghost use Rattle.alpha_imprecise.specs.Restart.{IsRestartable, NeverLoses};
ghost use Rattle.alpha_restart.specs.Safe.{IsSafe};
ghost use Rattle.alpha_restart.specs.Columns.{MayWrite, AgreeFor, GoAlike};
ghost use Rattle.alpha_restart.specs.Table.{IsChoice, unchosen, Row, WalksAgree};
ghost use Rattle.alpha_imprecise.specs.Shown.{ChoicesAlike, RunsAlike};
ghost use Rattle.alpha_restart.specs.Needed.{Needs, StopsApart};

/// The law of restarts: an accepted image can be restarted after each late trap.
///
/// That is said of every completion and every run of the imprecise machine from the start, whatever is
/// chosen at each of its steps and whatever is given to it to read:
///
/// 1. No trap is lost: a report finds the trigger of the pending trap.
/// 2. Wherever nothing is pending, what was seen of the run is a run of the precise machine: event for
///    event the same, which are what was asked for, given and put at each barrier, the PC and the
///    registers behind it, each overflow that was logged and the end. Both have come to the same unique
///    value.
/// 3. Directly after a barrier all registers, the PC, memory, the lock flag, and the count and the
///    address of the logged overflows are the precise run's, which has just passed the same barrier.
/// 4. Where the program ends, the precise run ends at exactly that step and with the same PC, and in the
///    same state, unless an overflow stops the program, where registers and bytes may differ.
///
/// No trap is lost from any other state either that has nothing pending.
pub fn laws_of_restarts()
    ensures accepted { (image : Parts) → IsImage image → IsAccepted image.words
        → IsRestartable image }
    ensures found { (image : Parts) → IsImage image → IsAccepted image.words
        → NeverLoses image }
    ensures safe { (image : Parts) → IsAccepted image.words → IsSafe image.words }
{}

/// The laws of restarted runs, of an image that can be restarted: every row of steps that the table of
/// the imprecise step allows agrees with the precise run, whatever is given to it to read. A run over an
/// input that has used so many units, or is over before, is the precise run of as many steps over it,
/// whatever was chosen: in its end, number of steps, events and input left; and it loses no trap. So a
/// run by coming words shows what the sequential run shows.
pub fn laws_of_restarted_runs()
    ensures walks { (image : Parts) → IsRestartable image → WalksAgree image }
    ensures choices { (image : Parts) → IsRestartable image → ChoicesAlike image }
    ensures words { (image : Parts) → IsRestartable image → RunsAlike image }
{}

/// The laws of the imprecise step: each row of its table is a choice, and each choice is a row, where
/// the same is there to be read; a row doesn't tell what was chosen. So to speak of every choice is to
/// speak of every row: with nothing pending the precise step, or where the word overflows any value in
/// its destination; with a trap pending the report at any place, or a word of each class executed, with
/// any value and any bytes.
pub fn laws_of_imprecise_steps()
    ensures row { (g : Program) (s : State) (pending : Option Trap) (input : List ℕ) (m : StepResult)
        → Row g s pending input m
        → (c : Choice) × IsChoice c × (unchosen (imprecise_step g s pending c input) ≡ m) }
    ensures choice { (g : Program) (s : State) (pending : Option Trap) (input : List ℕ)
        (c : Choice) → IsChoice c
        → Row g s pending input (unchosen (imprecise_step g s pending c input)) }
{}

/// The laws of columns: what the checker reads of a word is what the machine does. A step changes no
/// register but the one that its word sets, and of a PALcode call R0 and R19. It depends on no
/// register but those that its word uses, and of a PALcode call R0 and R16 to R18: where these have
/// the same, and R31 too, it goes in the same way and leaves the same state, but for the registers
/// that it leaves alone.
pub fn laws_of_columns()
    ensures written { (g : Program) (class : Option Class) (s : State) (input : List ℕ) (r : ℕ)
        → (reg (step g class s input).state.regs r ≡ reg s.regs r) ⊎ MayWrite class r }
    ensures read { (g : Program) (class : Option Class) (s : State) (other input : List ℕ)
        → AgreeFor class s.regs other
        → GoAlike s.regs other (step g class s input)
        (step g class (record s { regs = other }) input) }
{}

/// The law of restarts says as much as it can. None of the conditions C1 to C7 could be left out: for
/// each there is an image that it alone refuses, and that can't be restarted. And where an overflow
/// stops the program, registers do differ: by an accepted image and some choices.
pub fn limits_of_restarts()
    ensures needed { (condition : Condition) → condition_number condition ≤ 7
        → Needs condition }
    ensures apart { StopsApart }
{}
