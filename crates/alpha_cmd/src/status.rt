ghost use Rattle.std.specs.Prelude.{◌≡◌};

use alpha_asm::AsmFault;
use alpha_image::ImageFault;
use alpha_link::{LinkFault, ModuleFault};
use alpha_replay::{JournalFault, ReplayFault};
use alpha_seq::End;
use alpha_shadow::Broken;
use alpha_trap::Lost;

/// How a call of the program ended. The exit status of each is its [`Status::number`].
#[derive(Clone, Copy, Debug, PartialEq, Eq)]
pub enum Status {
    /// It did what was asked. The number is how many words a run of the imprecise machine drew,
    /// modulo 2^64, and 0 for all else.
    Done(u64),
    /// A place of the code is broken, that of the image or by `module` of the module: the least one. The
    /// program may still survive a late trap.
    NotRestartable(Broken),
    /// The words are no command.
    BadWords,
    /// The source defines no image, or by `module` makes no module: its first refusal.
    BadSource(AsmFault),
    /// The bytes of the file are no image: their first fault.
    BadImage(ImageFault),
    /// The program ended otherwise than by the system call exit.
    Stopped(End),
    /// The program has used up the steps that it was given, and hasn't ended. On the imprecise machine
    /// these are units: steps made while no trap is pending.
    StepsSpent,
    /// The imprecise machine reported a trap, and no instruction was found for it.
    Lost(Lost),
    /// A file that the words name isn't there or may not be kept, or the file system failed.
    ShelfFault,
    /// The input failed.
    InputFault,
    /// What was to be written could not be.
    SinkFault,
    /// A file has more bytes than this limit, or the script of `debug` has, and no `quit` whose line
    /// ends within so many.
    TooLarge(u64),
    /// Memory ran out.
    NoMemory,
    /// A trigger of the source's code is broken at its own place, where no barrier helps: the first
    /// one, by its first condition.
    Unfixable(Broken),
    /// The source needs a barrier, and a line of it fixes where words stand: the first such line,
    /// numbered from 1.
    FixedLine(u32),
    /// The source with its barriers defines no image: its first refusal.
    Far(AsmFault),
    /// The bytes of a file are no module: the number of the first such file in the order of the words,
    /// from 0, and its first fault.
    BadModule(u32, ModuleFault),
    /// The modules link to no image: their first refusal.
    BadLink(LinkFault),
    /// The bytes of the file are no journal: their first fault.
    BadJournal(JournalFault),
    /// The journal is no run of the image: its first fault.
    NotARun(ReplayFault),
    /// The run was stopped directly behind its first step past what a journal may have.
    JournalFull,
}

impl Status {
    ghost use Rattle.alpha_cmd.specs.Status.{status_number};

    /// The exit status of the program.
    pub fn number(&self) -> u8
        ensures { result ≡ status_number self.now }
    {
        match self {
            Status::Done(_) => 0,
            Status::NotRestartable(_) => 1,
            Status::BadWords => 2,
            Status::BadSource(_) => 3,
            Status::BadImage(_) => 4,
            Status::Stopped(_) => 5,
            Status::StepsSpent => 6,
            Status::Lost(_) => 7,
            Status::ShelfFault => 8,
            Status::InputFault => 9,
            Status::SinkFault => 10,
            Status::TooLarge(_) => 11,
            Status::NoMemory => 12,
            Status::Unfixable(_) => 13,
            Status::FixedLine(_) => 14,
            Status::Far(_) => 15,
            Status::BadModule(_, _) => 16,
            Status::BadLink(_) => 17,
            Status::BadJournal(_) => 18,
            Status::NotARun(_) => 19,
            Status::JournalFull => 20,
        }
    }
}
