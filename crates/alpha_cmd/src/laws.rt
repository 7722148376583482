ghost use Rattle.std.specs.Prelude.{◌≡◌, ◌≤◌, ◌↔◌, ℕ, Bool, List, length, Some, IsSome};
ghost use Rattle.alpha_io.specs.Files.{Files, HasFile};
ghost use Rattle.alpha_image.specs.Parts.{Parts, IsImage, image_spelling};
ghost use Rattle.alpha_shadow.specs.Broken.{IsAccepted};
ghost use Rattle.alpha_round.specs.Source.{IsSourceOf};
ghost use Rattle.alpha_request.specs.Origin as choices;
ghost use Rattle.alpha_request.specs.Origin.{Origin};
ghost use Rattle.alpha_request.specs.declared.options.RunOptions.{RunOptions};
ghost use Rattle.alpha_imprecise.specs.Restart.{IsRestartable};
ghost use Rattle.alpha_replay.specs.Journal.{spelling};
ghost use Rattle.alpha_cmd.specs.declared.status.Status.{Status};
ghost use Rattle.alpha_cmd.specs.declared.status.Status.TheVariants.{Done};
ghost use Rattle.alpha_cmd.specs.Outcome.{continues};
ghost use Rattle.alpha_cmd.specs.Image.{ImageOf};
ghost use Rattle.alpha_cmd.specs.Alike.{Alike, HaveWords};
ghost use Rattle.alpha_cmd.specs.AlikeByAnswers.{AlikeByAnswers, HasWords, IsChecked, undrawn};
ghost use Rattle.alpha_cmd.specs.Answer.{Answer};
ghost use Rattle.alpha_cmd.specs.AnswerBy.{AnswerBy, HaveBytes, World};
ghost use Rattle.alpha_cmd.specs.Call.{Call};
ghost use Rattle.alpha_cmd.specs.ChoicesLimit.{choices_limit};
ghost use Rattle.alpha_cmd.specs.OfImage.Dis as listings;
ghost use Rattle.alpha_cmd.specs.Commands.Imprecise as wilds;
ghost use Rattle.alpha_cmd.specs.Commands.Link.{HasAccepted};
ghost use Rattle.alpha_cmd.specs.SourceCommands.Module.{KeepsModule};
ghost use Rattle.alpha_cmd.specs.Commands.Record as records;
ghost use Rattle.alpha_cmd.specs.Commands.Record.{KeepsRun};
ghost use Rattle.alpha_cmd.specs.Commands.Replay as replays;
ghost use Rattle.alpha_cmd.specs.Commands.Run as runs;
ghost use Rattle.alpha_cmd.specs.ReadsNothing.{ReadsNothing, answer_unread};
ghost use Rattle.alpha_cmd.specs.RecordRan.{ReadsAndKeeps, ShowsRecord};
ghost use Rattle.alpha_cmd.specs.RecordedRun.{KeepsItsJournal};
ghost use Rattle.alpha_cmd.specs.ToldRun.{answer_told};
ghost use Rattle.alpha_cmd.specs.Tried.{AreTold, IsAnswer};

/// The laws of answers: words have one answer where what their command reads is told, the files and
/// for a run the input; and where told files are of bytes, they have some. So each status comes
/// exactly where its cause stands.
pub fn laws_of_answers()
    ensures one_answer { (words : List (List ℕ)) (w : World) (a b : Answer) → AreTold words w
        → IsAnswer words w a → IsAnswer words w b → a ≡ b }
    ensures some_answer { (words : List (List ℕ)) (w : World) → IsSome w.files → HaveBytes w.files
        → (a : Answer) × IsAnswer words w a }
{}

/// The law of listings: where `dis` is done, what it writes is a source of the image of its file.
pub fn laws_of_listed_files()
    ensures { (file : List ℕ) (w : World) (a : Answer) → AnswerBy (listings.steps file) w a
        → a.status ≡ Done 0
        → (image : Parts) × ImageOf w.files file (continues image) × IsSourceOf a.output image }
{}

/// The law of restarts: an accepted image can be restarted after each late trap, whatever the
/// imprecise machine chooses. So where `check FILE` is done, `run --imprecise FILE` has the answer of
/// `run FILE` with the same options, the verdict passed over or not: the same status, output, notes
/// and input left, whatever words the machine draws. Only their number, which the status carries
/// where the program has exited, is its own.
///
/// Whatever the input tells, each answer of `run --imprecise FILE` is one of `run FILE`, but for that number.
pub fn laws_of_checked_runs()
    ensures accepted { (image : Parts) → IsImage image → IsAccepted image.words
        → IsRestartable image }
    ensures answers { (options : RunOptions) (choices : Origin) (force : Bool) (file : List ℕ)
        (w : World) (b : Answer) → IsSome w.files → HasWords w.files choices → IsChecked file w
        → AnswerBy (wilds.steps options choices force file) w b
        → AnswerBy (runs.steps options file) w (undrawn b) }
    ensures alike { (options : RunOptions) (choices : Origin) (force : Bool) (file : List ℕ)
        (w : World) (a b : Answer) → IsSome w.files → IsSome w.input
        → HasWords w.files choices → IsChecked file w
        → AnswerBy (runs.steps options file) w a
        → AnswerBy (wilds.steps options choices force file) w b → undrawn b ≡ a }
{}

/// The laws of told runs. What the clause `alike` of [`alpha_top`](crate::alpha_top) says of accepted images it says
/// of each file that `check` accepts: then a run of the imprecise machine has the answer of `run` with the same
/// options. Choices have words where a file that they name is there and within its limit. Where `check FILE` is
/// done and the input is told, FILE spells an accepted image, and the answer of `run FILE` is that of the
/// sequential run of this image.
pub fn laws_of_told_runs()
    ensures alike { (words : List (List ℕ)) (status : Status) (c : Call) → Alike words status c
        → AlikeByAnswers words status c }
    ensures words { (files : Files) (choices : Origin) → HaveWords files choices
        ↔ HasWords files choices }
    ensures answer { (options : RunOptions) (file bytes : List ℕ) (w : World) (a : Answer)
        → IsSome w.files → w.input ≡ Some bytes → IsChecked file w
        → AnswerBy (runs.steps options file) w a
        → (image : Parts) × IsImage image × IsAccepted image.words
        × HasFile w.files file (image_spelling image) × (a ≡ answer_told options image bytes) }
{}

/// The laws of programs that read nothing in the steps that are asked for. Where the image of a told file is
/// such a program, `run FILE` has one answer over every source, told or not, and no other: that of the
/// sequential run over no input, with all input left. Where `check FILE` is done too and the choices have
/// words, `run --imprecise FILE` has an answer, and each of its answers is that of `run FILE`, but for the
/// number of words that it draws.
pub fn laws_of_unread_inputs()
    ensures run { (options : RunOptions) (file : List ℕ) (image : Parts) (w : World) (a : Answer)
        → IsSome w.files → ImageOf w.files file (continues image) → ReadsNothing options image
        → AnswerBy (runs.steps options file) w a → a ≡ answer_unread options image w.input }
    ensures some_run { (options : RunOptions) (file : List ℕ) (image : Parts) (w : World)
        → ImageOf w.files file (continues image) → ReadsNothing options image
        → AnswerBy (runs.steps options file) w (answer_unread options image w.input) }
    ensures imprecise { (options : RunOptions) (choices : Origin) (force : Bool) (file : List ℕ)
        (image : Parts) (w : World) (b : Answer) → IsSome w.files
        → ImageOf w.files file (continues image) → ReadsNothing options image
        → HasWords w.files choices → IsChecked file w
        → AnswerBy (wilds.steps options choices force file) w b
        → undrawn b ≡ answer_unread options image w.input }
    ensures some_imprecise { (options : RunOptions) (choices : Origin) (force : Bool)
        (file : List ℕ) (image : Parts) (w : World) → IsSome w.files
        → ImageOf w.files file (continues image) → ReadsNothing options image
        → HasWords w.files choices → IsChecked file w
        → (b : Answer) × AnswerBy (wilds.steps options choices force file) w b
        × (undrawn b ≡ answer_unread options image w.input) }
{}

/// The laws of accepted files. The spelling of a good image is short enough for a file of any call; and
/// where it stands under a name, `check` of that name is done if the image is accepted. A seed has
/// words, and so has a file of choices within its limit. So what [`laws_of_checked_runs`] and the clauses of
/// [`alpha_top`](crate::alpha_top) ask can be met: with a seed, they hold of each accepted image.
pub fn laws_of_checkable_files()
    ensures spelled { (image : Parts) (files : Files) (file : List ℕ) → IsImage image
        → HasFile files file (image_spelling image) → ImageOf files file (continues image) }
    ensures checked { (image : Parts) (w : World) (file : List ℕ) → IsImage image
        → IsAccepted image.words → HasFile w.files file (image_spelling image) → IsChecked file w }
    ensures seeds { (files : Files) (n : ℕ) → HasWords files (choices.seed n) }
    ensures listed { (files : Files) (name bytes : List ℕ) → HasFile files name bytes
        → length bytes ≤ choices_limit → HasWords files (choices.file name) }
    ensures alike { (image : Parts) (options : RunOptions) (n : ℕ) (force : Bool) (file : List ℕ)
        (w : World) (a b : Answer) → IsImage image → IsAccepted image.words → IsSome w.files
        → IsSome w.input → HasFile w.files file (image_spelling image)
        → AnswerBy (runs.steps options file) w a
        → AnswerBy (wilds.steps options (choices.seed n) force file) w b → undrawn b ≡ a }
{}

/// The law of kept modules: a file that `module` keeps is one of those that make a link accepted, as
/// `KeepsLink` says it of the files that the clause `links` of [`alpha_top`](crate::alpha_top) speaks of.
pub fn laws_of_kept_modules()
    ensures { (file out : List ℕ) (old new : Files) → KeepsModule file out old new
        → HasAccepted new out }
{}

/// The law of records: where a call of `record` has kept the journal of a run over a told input, and files of
/// whatever names spell the image of that run and this journal where the replay is asked for, the replay of the
/// journal on it is done. It is never refused. So it is too where the files then hold the bytes that the shelf's
/// calls gave and kept when the run was recorded, whatever the shelf told.
pub fn laws_of_records()
    ensures kept { (options : RunOptions) (choices : Origin) (force : Bool) (file out image journal : List ℕ)
        (w v : World) (new : Files) (a : Answer) → IsSome w.input → IsSome v.files
        → (kept : KeepsRun options choices force file out w new)
        → ImageOf v.files image (continues kept.0.image) → HasFile v.files journal (spelling kept.2.0)
        → AnswerBy (replays.steps image journal) v a → a.status ≡ Done 0 }
    ensures read { (options : RunOptions) (choices : Origin) (force : Bool) (file out image journal input : List ℕ)
        (status : Status) (c : Call) (v : World) (a : Answer) → c.input.old.left ≡ Some input
        → (r : ReadsAndKeeps c.shelf choices file out (λ plan p. ShowsRecord options force plan p status c))
        → IsSome v.files → HasFile v.files image (image_spelling r.plan.image)
        → HasFile v.files journal (spelling r.journal)
        → AnswerBy (replays.steps image journal) v a → a.status ≡ Done 0 }
{}

/// The law of recorded runs: over a told input, the journal that `record` keeps is that of the run whose status,
/// output and notes are given. Its ending is said by the status and by the last line, its output is what is put,
/// its input is what is taken, and its items list that run. Where nothing is kept there is no journal.
pub fn laws_of_recorded_runs()
    ensures { (options : RunOptions) (choices : Origin) (force : Bool) (file out bytes : List ℕ)
        (w : World) (a : Answer) → w.input ≡ Some bytes
        → AnswerBy (records.steps options choices force file out) w a
        → KeepsItsJournal options file out bytes w.files a }
{}
