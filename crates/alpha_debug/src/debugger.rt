ghost use Rattle.std.specs.Prelude.{◌≡◌, [], false, IsTrue, IfOk, OnOk, OnErr};
ghost use Rattle.alpha_debug.specs.OutputChange.{AppendsOutput, SinkFailsWith};
ghost use Rattle.alpha_seq.specs.Machine.{state_of};
ghost use Rattle.alpha_debug.specs.Session.{IsVerdict, if_not_ended, continue_until, adding, clearing, is_shown, shown};
ghost use Rattle.alpha_debug.specs.Session.{behind_steps};
ghost use Rattle.alpha_debug.specs.Effects.{setting_of, session_output, with_block, IsOpened, Remains, SessionEffect};
ghost use Rattle.alpha_debug.specs.Effects.{Fails, Answers, AnswerFails};
ghost use Rattle.alpha_debug.specs.Effects.{IsQuiet, HandsSteps};

use crate::block::Block;
use crate::breakpoints::{MOST_POINTS, has_point, remove_point};
use crate::command::{Command, MOST_STEPS};
use crate::print::{
    emit, log_line, print_code, print_memory, print_registers, verdict_line, where_line,
};
use crate::stepping::step_until;
use crate::watcher::{Until, Watcher};
use alpha_image::Image;
use alpha_io::{Failed, Sink};
use alpha_seq::{End, Machine};
use alpha_shadow::Broken;
use alpha_verdict::judge_image;
use alpha_words::{Completion, NoMemory};
use arrayvec::ArrayVec;
use std::alloc::Global;

/// A session.
#[derive(Drop)]
pub(crate) struct Debugger {
    /// The program, in user mode.
    pub machine: Machine,
    /// The least broken place of the code, if there is one.
    pub verdict: Option<Broken>,
    /// Who looks at the steps, and has the breakpoints and what waits to be put.
    pub watcher: Watcher,
    /// How the program ended, if it has.
    pub end: Option<End>,
}

/// Whether a session goes on.
#[derive(Clone, Copy, Debug, PartialEq, Eq)]
pub(crate) enum SessionState {
    /// The session goes on.
    Continues,
    /// `quit` came.
    Quits,
}

impl Debugger {
    /// A session whose program stands at its start.
    pub fn new(alloc: Global, image: Image) -> Result<Debugger, NoMemory>
        ensures { IfOk result (IsOpened image) }
    {
        let verdict = verdict_of(&image);
        let machine = Machine::new(alloc, image, Completion::Wrap)?;
        Ok(Debugger {
            machine,
            verdict,
            watcher: Watcher {
                until: Until::Spent,
                points: ArrayVec::new(),
                block: Block::new(),
                has_put: false,
            },
            end: None,
        })
    }

    /// Answers a command.
    pub fn answer<K: Sink>(&mut self, command: Command, out: &mut K) -> Result<SessionState, Failed>
        requires { IsTrue self.old.machine.kernel.user }
        ensures ok { IfOk result (λ talk. Answers command talk self.old self.new
            (session_output K.Sink out.old self.old out.new self.new)) }
        ensures handed { OnOk result (HandsSteps (behind_steps (setting_of self.old) command) self.old self.new) }
        ensures refused { OnErr result (AnswerFails command self.old
            (session_output K.Sink out.old self.old out.new self.new)) }
        ensures same { Remains self.old self.new }
    {
        match command {
            Command::Nothing => {}
            Command::Step(n) => self.continue_until(Until::Spent, n, out)?,
            Command::Go => self.continue_until(Until::Breakpoint, MOST_STEPS, out)?,
            Command::Barrier => self.continue_until(Until::Barrier, MOST_STEPS, out)?,
            Command::Break(at) => self.add(at, out)?,
            Command::Clear(at) => self.clear(at, out)?,
            Command::Quit => return Ok(SessionState::Quits),
            command => self.show(command, out)?,
        }
        Ok(SessionState::Continues)
    }

    // Makes steps, and says where the program stands. What the program put is put behind them.
    fn continue_until<K: Sink>(
        &mut self,
        until: Until,
        most: u64,
        out: &mut K,
    ) -> Result<(), Failed>
        requires { IsTrue self.old.machine.kernel.user }
        ensures ok { OnOk result (SessionEffect (continue_until (setting_of self.old) until most) self.old self.new
            (session_output K.Sink out.old self.old out.new self.new)) }
        ensures handed { OnOk result (HandsSteps (if_not_ended (setting_of self.old) until most) self.old self.new) }
        ensures refused { OnErr result (Fails (continue_until (setting_of self.old) until most) self.old
            (session_output K.Sink out.old self.old out.new self.new)) }
        ensures same { Remains self.old self.new }
    {
        self.run_until(until, most, out)?;
        self.watcher.block.flush_due(self.watcher.has_put, out)
    }

    // Makes steps, and says where the program stands.
    fn run_until<K: Sink>(&mut self, until: Until, most: u64, out: &mut K) -> Result<(), Failed>
        requires { IsTrue self.old.machine.kernel.user }
        ensures ok { OnOk result (SessionEffect (continue_until (setting_of self.old) until most) self.old self.new
            (session_output K.Sink out.old self.old out.new self.new)) }
        ensures quiet { OnOk result (self.new.watcher.has_put ≡ false
            → IsQuiet (if_not_ended (setting_of self.old) until most) self.old) }
        ensures refused { OnErr result (Fails (continue_until (setting_of self.old) until most) self.old
            (session_output K.Sink out.old self.old out.new self.new)) }
        ensures same { Remains self.old self.new }
    {
        self.make_steps(until, most, out)?;
        let line = where_line(self.end, self.machine.pc);
        emit(line.as_bytes(), &mut self.watcher.block, out)
    }

    // Makes steps, unless the program has ended.
    fn make_steps<K: Sink>(&mut self, until: Until, most: u64, out: &mut K) -> Result<(), Failed>
        requires { IsTrue self.old.machine.kernel.user }
        ensures ok { OnOk result (SessionEffect (if_not_ended (setting_of self.old) until most) self.old self.new
            (session_output K.Sink out.old self.old out.new self.new)) }
        ensures quiet { OnOk result (self.new.watcher.has_put ≡ false
            → IsQuiet (if_not_ended (setting_of self.old) until most) self.old) }
        ensures refused { OnErr result (Fails (if_not_ended (setting_of self.old) until most) self.old
            (session_output K.Sink out.old self.old out.new self.new)) }
        ensures same { Remains self.old self.new }
    {
        self.watcher.has_put = false;
        if self.end.is_some() {
            return Ok(());
        }
        self.watcher.until = until;
        self.end = step_until(&mut self.machine, &mut self.watcher, most, out)?;
        Ok(())
    }

    // Adds a breakpoint.
    fn add<K: Sink>(&mut self, at: u64, out: &mut K) -> Result<(), Failed>
        ensures ok { OnOk result (SessionEffect (λ s. adding s at) self.old self.new
            (session_output K.Sink out.old self.old out.new self.new)) }
        ensures refused { OnErr result (Fails (λ s. adding s at) self.old
            (session_output K.Sink out.old self.old out.new self.new)) }
        ensures same { Remains self.old self.new }
    {
        if has_point(self.watcher.points.as_slice(), at) {
            return emit(b"ok\n", &mut self.watcher.block, out);
        }
        if self.watcher.points.len() == MOST_POINTS {
            return emit(b"full\n", &mut self.watcher.block, out);
        }
        self.watcher.points.push(at);
        emit(b"ok\n", &mut self.watcher.block, out)
    }

    // Removes a breakpoint.
    fn clear<K: Sink>(&mut self, at: u64, out: &mut K) -> Result<(), Failed>
        ensures ok { OnOk result (SessionEffect (λ s. clearing s at) self.old self.new
            (session_output K.Sink out.old self.old out.new self.new)) }
        ensures refused { OnErr result (Fails (λ s. clearing s at) self.old
            (session_output K.Sink out.old self.old out.new self.new)) }
        ensures same { Remains self.old self.new }
    {
        remove_point(&mut self.watcher.points, at);
        emit(b"ok\n", &mut self.watcher.block, out)
    }

    // Answers a command that changes nothing but what is written.
    fn show<K: Sink>(&mut self, command: Command, out: &mut K) -> Result<(), Failed>
        requires { IsTrue (is_shown command) }
        ensures ok { OnOk result (AppendsOutput (session_output K.Sink out.old self.old out.new self.new)
            (shown (setting_of self.old) command (state_of self.old.machine))) }
        ensures refused { OnErr result (SinkFailsWith (session_output K.Sink out.old self.old out.new self.new)
            (shown (setting_of self.old) command (state_of self.old.machine))) }
        ensures same { self.new ≡ with_block self.old self.new.watcher.block }
    {
        let machine = &self.machine;
        let block = &mut self.watcher.block;
        match command {
            Command::Registers => print_registers(&machine.regs, block, out),
            Command::Memory(at, count) => print_memory(&machine.memory, at, count, block, out),
            Command::Listing(at, count) => print_code(&machine.image, at, count, block, out),
            Command::Shadow => {
                let line = verdict_line(self.verdict, machine.image.code_base());
                emit(line.as_bytes(), block, out)
            }
            Command::Log => {
                let line = log_line(machine.overflows, machine.last);
                emit(line.as_bytes(), block, out)
            }
            _ => emit(b"?\n", block, out),
        }
    }
}

// The least broken place of an image's code, if there is one.
fn verdict_of(image: &Image) -> Option<Broken>
    ensures { IsVerdict image.now.words result }
{
    match judge_image(image) {
        Ok(()) => None,
        Err(broken) => Some(broken),
    }
}
