ghost use Rattle.std.specs.Prelude.{◌≡◌, ◌≢◌, [], IsTrue, List, ℕ, IfOk, OnOk, OnErr};
ghost use Rattle.alpha_io.specs.SinkChange.{sink_change};
ghost use Rattle.alpha_seq.specs.Devices.{drawn};
ghost use Rattle.alpha_debug.specs.DebugEffect.{DebugEffect};
ghost use Rattle.alpha_debug.specs.Command.{command_of};
ghost use Rattle.alpha_debug.specs.OutputChange.{output_change};
ghost use Rattle.alpha_debug.specs.Effects.{Remains, IsPendingLine, Answers, AnswerFails, FeedsBytes, FeedFails};
ghost use Rattle.alpha_debug.specs.Effects.{CloseEffect};
ghost use Rattle.alpha_debug.specs.Effects.{TellEffect, Carries, CarryFails, HandsLast, HandsAll};
ghost use Rattle.alpha_debug.specs.Handed.{Hands};

use crate::DebugEnd;
use crate::debugger::{Debugger, SessionState};
use crate::script::{PendingLine, answer_line, feed};
use alpha_image::Image;
use alpha_io::{Failed, Sink, Source};
use alpha_words::NoMemory;
use arrayvec::ArrayVec;
use std::alloc::Global;

/// How many bytes of a script count.
pub const SCRIPT_LIMIT: usize = 1_048_576;

// How many bytes one call of the script is asked for at most.
const PIECE: usize = 16_384;

/// Runs a script of commands on the program of an image, and writes its transcript.
///
/// The script is cut into lines at its line feeds, before each of which one carriage return may stand; what stands
/// behind the last one is a line where it isn't empty. Of its bytes the first 1,048,576 count. The session ends at
/// `quit`, or at the end of the script. Memory is taken only while the session is made, before anything is taken or
/// written. What the program puts in a line is put before the next one is begun.
///
/// At most 1,048,577 bytes of the script are taken. Where a device fails, a prefix of the transcript was written.
/// Without memory for the session the devices are not called.
pub fn debug<S: Source, K: Sink>(
    alloc: Global,
    image: Image,
    script: &mut S,
    out: &mut K,
) -> DebugEnd
    ensures effect { DebugEffect result image
        (drawn S.Source script.old script.new)
        (sink_change K.Sink out.old out.new) }
    ensures handed { result ≢ DebugEnd.NoMemory
        → Hands image (drawn S.Source script.old script.new) K.Sink result out.old out.new }
    ensures same { result ≡ DebugEnd.NoMemory → (script.new ≡ script.old) × (out.new ≡ out.old) }
{
    match Debugger::new(alloc, image) {
        Ok(mut debugger) => run_session(&mut debugger, script, out),
        Err(NoMemory) => DebugEnd::NoMemory,
    }
}

// Answers the lines of a script.
fn run_session<S: Source, K: Sink>(debugger: &mut Debugger, script: &mut S, out: &mut K) -> DebugEnd
    requires mode { IsTrue debugger.old.machine.kernel.user }
    requires block { debugger.old.watcher.block ≡ [] }
    ensures told { TellEffect result debugger.old
        (drawn S.Source script.old script.new)
        (output_change K.Sink out.old [] out.new []) }
    ensures handed { HandsAll debugger.old (drawn S.Source script.old script.new) K.Sink result out.old out.new }
{
    let mut held = ArrayVec::new();
    let mut space = [0; PIECE];
    let mut most = SCRIPT_LIMIT;
    while most > 0 {
        let piece = &mut space[..most.min(PIECE)];
        let count = match script.take(piece) {
            Ok(count) => count,
            Err(Failed) => return DebugEnd::InputFault,
        };
        if count == 0 {
            return close(debugger, &held, out);
        }
        match feed_piece(debugger, &mut held, &piece[..count], out) {
            Ok(SessionState::Continues) => {}
            Ok(SessionState::Quits) => return DebugEnd::Done,
            Err(Failed) => return DebugEnd::SinkFault,
        }
        most -= count;
    }
    let mut more = [0; 1];
    match script.take(&mut more) {
        Ok(0) => close(debugger, &held, out),
        Ok(_) => DebugEnd::TooLarge,
        Err(Failed) => DebugEnd::InputFault,
    }
}

// Answers the lines that end within these further bytes of the script, to a `quit`, and puts all answers.
fn feed_piece<K: Sink>(
    debugger: &mut Debugger,
    pending: &mut PendingLine,
    bytes: &[u8],
    out: &mut K,
) -> Result<SessionState, Failed>
    requires mode { IsTrue debugger.old.machine.kernel.user }
    requires block { debugger.old.watcher.block ≡ [] }
    ensures ok { (begun : List ℕ) → IsPendingLine begun pending.old.items
        → IfOk result (λ talk. FeedsBytes bytes.now begun talk debugger.old debugger.new pending.new.items
        (output_change K.Sink out.old [] out.new [])) }
    ensures handed { (begun : List ℕ) → IsPendingLine begun pending.old.items → IfOk result (λ talk.
        Carries K.Sink bytes.now begun talk debugger.old debugger.new pending.new.items out.old out.new) }
    ensures refused { (begun : List ℕ) → IsPendingLine begun pending.old.items
        → OnErr result (FeedFails bytes.now begun debugger.old
        (output_change K.Sink out.old [] out.new [])) }
    ensures stopped { (begun : List ℕ) → IsPendingLine begun pending.old.items
        → OnErr result (CarryFails K.Sink bytes.now begun debugger.old out.old out.new) }
    ensures block { OnOk result (debugger.new.watcher.block ≡ []) }
    ensures same { Remains debugger.old debugger.new }
{
    let talk = feed(debugger, pending, bytes, out)?;
    debugger.watcher.block.flush(out)?;
    Ok(talk)
}

// Ends a session at the end of the script: what stands behind its last line feed is answered.
fn close<K: Sink>(debugger: &mut Debugger, pending: &PendingLine, out: &mut K) -> DebugEnd
    requires mode { IsTrue debugger.old.machine.kernel.user }
    requires block { debugger.old.watcher.block ≡ [] }
    ensures told { (begun : List ℕ) → IsPendingLine begun pending.now.items → CloseEffect result begun debugger.old
        (output_change K.Sink out.old [] out.new []) }
    ensures handed { (begun : List ℕ) → IsPendingLine begun pending.now.items
        → HandsLast K.Sink result begun debugger.old out.old out.new }
{
    match answer_last(debugger, pending.as_slice(), out) {
        Ok(_) => DebugEnd::Done,
        Err(Failed) => DebugEnd::SinkFault,
    }
}

// Answers a line, and puts the answer.
fn answer_last<K: Sink>(
    debugger: &mut Debugger,
    line: &[u8],
    out: &mut K,
) -> Result<SessionState, Failed>
    requires mode { IsTrue debugger.old.machine.kernel.user }
    requires block { debugger.old.watcher.block ≡ [] }
    ensures ok { IfOk result (λ talk. Answers (command_of line.now) talk debugger.old debugger.new
        (output_change K.Sink out.old [] out.new [])) }
    ensures refused { OnErr result (AnswerFails (command_of line.now) debugger.old
        (output_change K.Sink out.old [] out.new [])) }
    ensures block { OnOk result (debugger.new.watcher.block ≡ []) }
{
    let talk = answer_line(debugger, line, out)?;
    debugger.watcher.block.flush(out)?;
    Ok(talk)
}
