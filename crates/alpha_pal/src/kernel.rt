ghost use Rattle.std.specs.Prelude.{◌≡◌, true, false, IsTrue, IfOk, if◌then◌else◌, length, drop};
ghost use Rattle.alpha_words.specs.Regs.{reg, put, IsFile};
ghost use Rattle.alpha_pal.specs.Frame.{bytes_of, frame_of};
ghost use Rattle.alpha_pal.specs.Kernel.{user_regs, arith_frame, entered, entry_regs, arith_regs, is_saved, saving};
ghost use Rattle.alpha_pal.specs.Kernel.{new_kernel};

use crate::frame::{Frame, SIZE};
use crate::named::{A0, A1, A2, GP, SP, reg_of_number};
use crate::summary::Summary;
use alpha_words::{NoMemory, Reg, RegFile, RegSet};
use bitflags::Flags;
use std::alloc::Global;
use std::marker::Model;

// The bytes of the kernel stack, and where its one frame begins.
const STACK: usize = 4_096;

const FRAME_AT: usize = STACK - SIZE;

// The processor status of user mode (Reference Manual, OSF/1 processor status).
pub(crate) const USER_STATUS: u64 = 8;

/// The kernel: its mode and its stack, whose last 48 bytes are the frame of the last entry.
#[derive(Debug, Drop)]
pub struct Kernel {
    user: bool,
    stack: Vec<u8>,
    user_stack: u64,
}

impl Model for Kernel {
    ghost use Rattle.std.specs.Prelude.{◌≡◌, drop, length};
    ghost use Rattle.alpha_pal.specs.Frame.{bytes_of, frame_of};
    ghost use Rattle.alpha_pal.specs.declared.kernel.TheConstants.{FRAME_AT, STACK};
    ghost use Rattle.alpha_pal.specs.Kernel.{KernelState};

    ghost Value = { KernelState };

    ghost view = { λ k. record {
      user = k.user;
      frame = frame_of (drop FRAME_AT k.stack.items);
      user_stack = k.user_stack;
    } };

    ghost invariant = { λ k. (length k.stack.items ≡ STACK)
        × (drop FRAME_AT k.stack.items ≡ bytes_of (frame_of (drop FRAME_AT k.stack.items))) };
}

impl Kernel {
    /// A kernel in user mode whose stack is zeros. `NoMemory` where memory runs out.
    pub fn new(alloc: Global) -> Result<Kernel, NoMemory>
        ensures { IfOk result (λ k. k ≡ new_kernel) }
    {
        let stack = vec![in alloc; 0u8; STACK]?;
        Ok(Kernel {
            user: true,
            stack,
            user_stack: 0,
        })
    }

    /// Whether the mode is user (Reference Manual, OSF/1 processor status).
    pub fn is_user(&self) -> bool
        ensures { result ≡ self.now.user }
    {
        self.user
    }

    /// The 48 bytes of the last entry's frame (Reference Manual, OSF/1 PALcode stack frames).
    pub fn frame(&self) -> &[u8]
        ensures { result.now ≡ bytes_of self.now.frame }
    {
        read_last(&self.stack)
    }

    /// Enters the kernel for an arithmetic trap (Reference Manual, OSF/1 entry entArith): the frame
    /// saves the user's status, the PC, GP and R16 to R18; R16 becomes the summary {IOV}, R17 the
    /// set of registers that the trap may have spoilt, R29 zero and R30 the frame's place.
    pub fn enter_arith(&mut self, regs: &mut RegFile, pc: u64, mask: RegSet)
        requires { IsTrue self.old.user }
        ensures state { self.new ≡ entered (arith_frame pc regs.old) regs.old }
        ensures regs { regs.new ≡ arith_regs regs.old mask }
        ensures user { user_regs self.new regs.new ≡ regs.old }
    {
        let frame = Frame {
            ps: USER_STATUS,
            pc,
            gp: regs.get(reg_of_number(GP)),
            r16: regs.get(reg_of_number(A0)),
            r17: regs.get(reg_of_number(A1)),
            r18: regs.get(reg_of_number(A2)),
        };
        self.enter(regs, frame);
        regs.set(reg_of_number(A0), Summary::IOV.bits());
        regs.set(reg_of_number(A1), u64::from(mask.bits()));
    }

    // Enters the kernel with this frame.
    pub(crate) fn enter(&mut self, regs: &mut RegFile, frame: Frame)
        ensures state { self.new ≡ entered frame regs.old }
        ensures regs { regs.new ≡ entry_regs regs.old }
        ensures file { IsFile regs.old }
    {
        self.user = false;
        self.user_stack = regs.get(reg_of_number(SP));
        write_last(&mut self.stack, frame);
        regs.set(reg_of_number(GP), 0);
        regs.set(reg_of_number(SP), FRAME_AT as u64);
    }

    /// The user's value of the register, in kernel mode.
    pub fn user_reg(&self, regs: &RegFile, r: Reg) -> u64
        requires { self.now.user ≡ false }
        ensures { result ≡ reg (user_regs self.now regs.now) r }
    {
        let frame = self.last_frame();
        let live = regs.get(r);
        match r.number() {
            A0 => frame.r16,
            A1 => frame.r17,
            A2 => frame.r18,
            GP => frame.gp,
            SP => self.user_stack,
            _ => live,
        }
    }

    /// Gives the user's register this value, in kernel mode. R31 stays 0, and all others stay.
    pub fn set_user_reg(&mut self, regs: &mut RegFile, r: Reg, value: u64)
        requires { self.old.user ≡ false }
        ensures user { user_regs self.new regs.new ≡ put (user_regs self.old regs.old) r value }
        ensures state { self.new ≡ saving self.old r value }
        ensures live { regs.new ≡ (if is_saved r then regs.old else put regs.old r value) }
    {
        let frame = self.last_frame();
        match r.number() {
            A0 => self.save(Frame {
                r16: value,
                ..frame
            }),
            A1 => self.save(Frame {
                r17: value,
                ..frame
            }),
            A2 => self.save(Frame {
                r18: value,
                ..frame
            }),
            GP => self.save(Frame { gp: value, ..frame }),
            SP => self.user_stack = value,
            _ => regs.set(r, value),
        }
    }

    /// The PC in the frame, in kernel mode (Reference Manual, OSF/1 PALcode stack frames).
    pub fn trap_pc(&self) -> u64
        requires { self.now.user ≡ false }
        ensures { result ≡ self.now.frame.pc }
    {
        self.last_frame().pc
    }

    /// Changes the PC in the frame, in kernel mode, which is where `rti` goes on (Reference Manual,
    /// OSF/1 return from trap rti).
    pub fn set_pc(&mut self, pc: u64)
        requires { self.old.user ≡ false }
        ensures { self.new ≡ record self.old { frame = record self.old.frame { pc = pc } } }
    {
        let frame = self.last_frame();
        self.save(Frame { pc, ..frame });
    }

    /// Returns to the user (Reference Manual, OSF/1 return from trap rti): the registers become the
    /// user's, the mode is user again, and the answer is the frame's PC. The frame's bytes stay.
    pub fn rti(&mut self, regs: &mut RegFile) -> u64
        requires { self.old.user ≡ false }
        ensures regs { regs.new ≡ user_regs self.old regs.old }
        ensures pc { result ≡ self.old.frame.pc }
        ensures state { self.new ≡ record self.old { user = true } }
    {
        let frame = self.last_frame();
        regs.set(reg_of_number(A0), frame.r16);
        regs.set(reg_of_number(A1), frame.r17);
        regs.set(reg_of_number(A2), frame.r18);
        self.retsys(regs);
        frame.pc
    }

    // Returns to the user, who gets back R29 and R30 alone.
    pub(crate) fn retsys(&mut self, regs: &mut RegFile)
        ensures regs { regs.new ≡ put (put regs.old 29 self.old.frame.gp) 30 self.old.user_stack }
        ensures state { self.new ≡ record self.old { user = true } }
    {
        let frame = self.last_frame();
        regs.set(reg_of_number(GP), frame.gp);
        regs.set(reg_of_number(SP), self.user_stack);
        self.user = true;
    }

    // The numbers of the last entry's frame.
    fn last_frame(&self) -> Frame
        ensures { result ≡ self.now.frame }
    {
        Frame::read(read_last(&self.stack))
    }

    // Writes the frame.
    fn save(&mut self, frame: Frame)
        ensures { self.new ≡ record self.old { frame = frame } }
    {
        write_last(&mut self.stack, frame);
    }
}

// The frame at the end of the stack.
fn read_last(stack: &[u8]) -> &[u8]
    requires { length stack.now ≡ STACK }
    ensures bytes { result.now ≡ drop FRAME_AT stack.now }
    ensures size { length result.now ≡ SIZE }
{
    &stack[FRAME_AT..]
}

// Writes the frame at the end of the stack.
fn write_last(stack: &mut [u8], frame: Frame)
    requires { length stack.old ≡ STACK }
    ensures bytes { drop FRAME_AT stack.new ≡ bytes_of frame }
    ensures numbers { frame_of (drop FRAME_AT stack.new) ≡ frame }
{
    frame.write(&mut stack[FRAME_AT..]);
}
