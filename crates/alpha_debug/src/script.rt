ghost use Rattle.std.specs.Prelude.{[], ◌∷◌, List, ℕ, IsTrue, IfOk, OnOk, OnErr};
ghost use Rattle.alpha_debug.specs.Command.{command_of};
ghost use Rattle.alpha_debug.specs.Effects.{session_output, Remains, Answers, AnswerFails, IsPendingLine, FeedsBytes};
ghost use Rattle.alpha_debug.specs.Effects.{FeedFails};
ghost use Rattle.alpha_debug.specs.Effects.{setting_of, HandsSteps, Carries, CarryFails};
ghost use Rattle.alpha_debug.specs.Session.{behind_steps};

use crate::command::{LINE_LIMIT, command_of};
use crate::debugger::{Debugger, SessionState};
use alpha_io::{Failed, Sink};
use alpha_token::without_return;
use arrayvec::ArrayVec;

// How many bytes of a line are held: one that has so many is too long, whether or not its last is a carriage return.
const HELD: usize = LINE_LIMIT + 2;

/// The front of the line in hand, without a line feed.
pub(crate) type PendingLine = ArrayVec<u8, HELD>;

/// Answers the lines that end within these further bytes of the script, to a `quit`.
pub(crate) fn feed<K: Sink>(
    debugger: &mut Debugger,
    pending: &mut PendingLine,
    bytes: &[u8],
    out: &mut K,
) -> Result<SessionState, Failed>
    requires { IsTrue debugger.old.machine.kernel.user }
    ensures ok { (begun : List ℕ) → IsPendingLine begun pending.old.items
        → IfOk result (λ talk. FeedsBytes bytes.now begun talk debugger.old debugger.new pending.new.items
        (session_output K.Sink out.old debugger.old out.new debugger.new)) }
    ensures handed { (begun : List ℕ) → IsPendingLine begun pending.old.items → IfOk result (λ talk.
        Carries K.Sink bytes.now begun talk debugger.old debugger.new pending.new.items out.old out.new) }
    ensures refused { (begun : List ℕ) → IsPendingLine begun pending.old.items
        → OnErr result (FeedFails bytes.now begun debugger.old
        (session_output K.Sink out.old debugger.old out.new debugger.new)) }
    ensures stopped { (begun : List ℕ) → IsPendingLine begun pending.old.items
        → OnErr result (CarryFails K.Sink bytes.now begun debugger.old out.old out.new) }
    ensures same { Remains debugger.old debugger.new }
{
    for byte in bytes {
        match feed_byte(debugger, pending, *byte, out)? {
            SessionState::Continues => {}
            SessionState::Quits => return Ok(SessionState::Quits),
        }
    }
    Ok(SessionState::Continues)
}

// Takes a further byte of the script, and answers the line that it ends.
fn feed_byte<K: Sink>(
    debugger: &mut Debugger,
    pending: &mut PendingLine,
    byte: u8,
    out: &mut K,
) -> Result<SessionState, Failed>
    requires { IsTrue debugger.old.machine.kernel.user }
    ensures ok { (begun : List ℕ) → IsPendingLine begun pending.old.items
        → IfOk result (λ talk. FeedsBytes (byte ∷ []) begun talk debugger.old debugger.new pending.new.items
        (session_output K.Sink out.old debugger.old out.new debugger.new)) }
    ensures handed { (begun : List ℕ) → IsPendingLine begun pending.old.items → IfOk result (λ talk.
        Carries K.Sink (byte ∷ []) begun talk debugger.old debugger.new pending.new.items out.old out.new) }
    ensures refused { (begun : List ℕ) → IsPendingLine begun pending.old.items
        → OnErr result (FeedFails (byte ∷ []) begun debugger.old
        (session_output K.Sink out.old debugger.old out.new debugger.new)) }
    ensures stopped { (begun : List ℕ) → IsPendingLine begun pending.old.items
        → OnErr result (CarryFails K.Sink (byte ∷ []) begun debugger.old out.old out.new) }
    ensures same { Remains debugger.old debugger.new }
{
    if byte == b'\n' {
        let talk = answer_line(debugger, without_return(pending.as_slice()), out)?;
        pending.clear();
        Ok(talk)
    } else {
        if !pending.is_full() {
            pending.push(byte);
        }
        Ok(SessionState::Continues)
    }
}

/// Answers a line, which has lost its line end.
pub(crate) fn answer_line<K: Sink>(
    debugger: &mut Debugger,
    line: &[u8],
    out: &mut K,
) -> Result<SessionState, Failed>
    requires { IsTrue debugger.old.machine.kernel.user }
    ensures ok { IfOk result (λ talk. Answers (command_of line.now) talk debugger.old debugger.new
        (session_output K.Sink out.old debugger.old out.new debugger.new)) }
    ensures handed { OnOk result
        (HandsSteps (behind_steps (setting_of debugger.old) (command_of line.now)) debugger.old debugger.new) }
    ensures refused { OnErr result (AnswerFails (command_of line.now) debugger.old
        (session_output K.Sink out.old debugger.old out.new debugger.new)) }
    ensures same { Remains debugger.old debugger.new }
{
    debugger.answer(command_of(line), out)
}
