ghost use Rattle.std.specs.Prelude.{◌≡◌, ◌≢◌, ◌⊎◌, ℕ, List, Option, Some, OnOk, OnErr};
ghost use Rattle.alpha_io.specs.SinkChange.{sink_change, Puts, WritesPartly, HasFailed};
ghost use Rattle.alpha_seq.specs.Notes.{end_line};
ghost use Rattle.alpha_cmd.specs.Status.{status_line};
ghost use Rattle.alpha_cmd.specs.AnswerBy.{status_answer};
ghost use Rattle.alpha_cmd.specs.OfImage.Check.{accepted};
ghost use Rattle.alpha_cmd.specs.Commands.Replay.{shown};
ghost use Rattle.alpha_cmd.specs.Commands.Imprecise.{drawn_status, answer_status, answer_line};
ghost use Rattle.alpha_cmd.specs.Decision.{answer_in, IsCutShort, SaysStop};

use crate::Status;
use crate::line::{line_of, run_line, text};
use crate::stop::Stop;
use alpha_io::{Failed, Line, Sink, write_whole};
use alpha_replay::Replayed;
use alpha_seq::{End, Event, Fault, line_of_end};
use alpha_trap::Lost;

/// What a command has decided, and what is still to be written for it.
#[derive(Drop)]
pub(crate) struct Decision {
    /// The status. `deliver` asks that it isn't that of a failed sink.
    pub(crate) status: Status,
    /// The bytes for the output.
    pub(crate) output: Line,
    /// The bytes for the notes.
    pub(crate) line: Line,
}

impl Decision {
    /// A status with its line.
    pub(crate) fn of_status(status: Status) -> Decision
        ensures answer { (left : Option (List ℕ)) → answer_in left result
            ≡ status_answer left status (status_line status) }
        ensures status { result.status ≡ status }
    {
        let line = line_of(&status);
        Decision {
            status,
            output: Line::new(),
            line,
        }
    }

    /// An accepted image.
    pub(crate) fn of_accepted_image() -> Decision
        ensures { (left : Option (List ℕ)) → answer_in left result ≡ accepted left }
    {
        Decision {
            status: Status::Done(0),
            output: text(b"accepted\n"),
            line: Line::new(),
        }
    }

    /// A journal that lists a run.
    pub(crate) fn of_replay(run: &Replayed) -> Decision
        ensures { (left : Option (List ℕ)) → answer_in left result ≡ shown left run.now }
    {
        let output = run_line(run);
        Decision {
            status: Status::Done(0),
            output,
            line: Line::new(),
        }
    }

    /// What a stage stopped by.
    pub(crate) fn of_stop(stop: Stop) -> Decision
        ensures { SaysStop stop result }
    {
        Decision {
            status: stop.status(),
            output: Line::new(),
            line: stop.line(),
        }
    }

    /// What is decided behind a run of the program: by the step behind which it is over, and none where all units were
    /// used, and by how many words were drawn.
    pub(crate) fn after_run(last: Option<Event>, drawn: u64) -> Decision
        ensures { (left : Option (List ℕ)) → answer_in left result
            ≡ status_answer left (answer_status last drawn) (answer_line last) }
    {
        match last {
            None => Decision::of_status(Status::StepsSpent),
            Some(event) => Decision::behind_step(&event, drawn),
        }
    }

    // What is decided behind a run that this step ended.
    fn behind_step(event: &Event, drawn: u64) -> Decision
        ensures { (left : Option (List ℕ)) → answer_in left result
            ≡ status_answer left (answer_status (Some event.now) drawn) (answer_line (Some event.now)) }
    {
        match *event {
            Event::Ended(end) => Decision::of_end(&end, drawn),
            Event::Lost(trap_pc, mask) => Decision::of_status(Status::Lost(Lost { trap_pc, mask })),
            _ => Decision::of_status(Status::StepsSpent),
        }
    }

    // An end of a program that was run by so many words.
    fn of_end(end: &End, drawn: u64) -> Decision
        ensures { (left : Option (List ℕ)) → answer_in left result
            ≡ status_answer left (drawn_status drawn end.now) (end_line end.now) }
    {
        Decision {
            status: end_status(end, drawn),
            output: Line::new(),
            line: line_of_end(end),
        }
    }

    /// What is decided of a run that a device's fault cut short.
    pub(crate) fn of_device_fault(fault: Fault) -> Result<Decision, Failed>
        ensures { IsCutShort fault result }
    {
        match fault {
            Fault::Input => Ok(Decision::of_status(Status::InputFault)),
            Fault::Output | Fault::Notes => Err(Failed),
        }
    }

    /// Writes what is still to be written, and answers the status, or that a sink failed.
    pub(crate) fn deliver<K: Sink, N: Sink>(&self, out: &mut K, notes: &mut N) -> Status
        requires { self.now.status ≢ Status.SinkFault }
        ensures status { (result ≡ Status.SinkFault) ⊎ (result ≡ self.now.status) }
        ensures output { result ≢ Status.SinkFault
            → Puts (sink_change K.Sink out.old out.new) self.now.output }
        ensures notes { result ≢ Status.SinkFault
            → Puts (sink_change N.Sink notes.old notes.new) self.now.line }
        ensures output_part { WritesPartly (sink_change K.Sink out.old out.new) self.now.output }
        ensures notes_part { WritesPartly (sink_change N.Sink notes.old notes.new) self.now.line }
        ensures failed { result ≡ Status.SinkFault
            → HasFailed (sink_change K.Sink out.old out.new)
            ⊎ HasFailed (sink_change N.Sink notes.old notes.new) }
    {
        match write_line(out, &self.output) {
            Ok(()) => match write_line(notes, &self.line) {
                Ok(()) => self.status,
                Err(_) => Status::SinkFault,
            },
            Err(_) => Status::SinkFault,
        }
    }
}

// The status of an end, by the number of words that were drawn.
fn end_status(end: &End, drawn: u64) -> Status
    ensures { result ≡ drawn_status drawn end.now }
{
    match *end {
        End::Exit(_) => Status::Done(drawn),
        other => Status::Stopped(other),
    }
}

// Writes a line.
fn write_line<K: Sink>(sink: &mut K, line: &Line) -> Result<(), Failed>
    ensures ok { OnOk result (Puts (sink_change K.Sink sink.old sink.new) line.now) }
    ensures part { WritesPartly (sink_change K.Sink sink.old sink.new) line.now }
    ensures failed { OnErr result (HasFailed (sink_change K.Sink sink.old sink.new)) }
{
    write_whole(sink, line.as_bytes())
}
