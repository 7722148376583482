//! The handler of a late trap, in kernel mode.

ghost use Rattle.std.specs.Prelude.{◌≡◌, ◌+◌, ◌*◌, ◌<◌, ◌^◌, Some, None, false, IfOk, IfErr, OnErr, length};
ghost use Rattle.alpha_words.specs.Regs.{reg, put};
ghost use Rattle.alpha_table.specs.declared.columns.InsnKind.TheVariants as kinds;
ghost use Rattle.alpha_table.specs.Code.{class_at, kind};
ghost use Rattle.alpha_values.specs.TrapOp.{completed_of};
ghost use Rattle.alpha_pal.specs.Kernel.{user_regs};
ghost use Rattle.alpha_values.specs.Source.{source_value};
ghost use Rattle.alpha_trap.specs.RawCode.{raw_code};
ghost use Rattle.alpha_trap.specs.Handler.{going_on, handled, handled_at, kernel_after, place_of_trap, trap_in};

use crate::scan::scan_code;
use crate::trap_code::{RawCode, TrapCode};
use crate::trigger::{Trigger, trigger_of};
use alpha_image::Image;
use alpha_pal::Kernel;
use alpha_table::Src;
use alpha_values::completed;
use alpha_words::{Completion, Reg, RegFile, RegSet};
use thiserror::Error;

/// A trap whose instruction the scan doesn't find.
#[derive(Clone, Copy, Debug, PartialEq, Eq, Error)]
#[error("no instruction can have made the trap at {trap_pc:#x}")]
pub struct Lost {
    /// The address where it was reported.
    pub trap_pc: u64,
    /// The registers that it may have spoilt.
    pub mask: RegSet,
}

/// Handles the trap for which the kernel was entered, in kernel mode (Architecture Handbook, arithmetic trap
/// completion): its PC is in the frame, and its mask is the bits 0 to 30 of R17 (Reference Manual, OSF/1
/// entry entArith). By wrap and by saturate the instruction that made the trap is completed
/// from the user's registers, the value goes to the user's destination, and the answer is the address
/// behind it. By stop no register of the user changes, and the answer is the instruction's own address.
/// The mode is user again, and the frame has the answer as its PC and the registers as they are then.
///
/// # Errors
///
/// `Lost` exactly where [`scan_back`](crate::scan_back) finds nothing for that PC and mask. It leaves the registers,
/// the frame and the mode, so that a return gives back all that the entry saved.
pub fn handle(
    image: &Image,
    kernel: &mut Kernel,
    regs: &mut RegFile,
    completion: Completion,
) -> Result<u64, Lost>
    requires { kernel.old.user ≡ false }
    ensures ok { IfOk result (λ pc.
        handled image.now completion kernel.old regs.old ≡ Some (going_on pc regs.new)) }
    ensures state { IfOk result (λ pc.
        kernel.new ≡ kernel_after kernel.old (going_on pc regs.new)) }
    ensures refused { IfErr result (λ lost. lost ≡ trap_in kernel.old regs.old) }
    ensures cause { IfErr result (λ lost. place_of_trap image.now lost ≡ None) }
    ensures same { OnErr result ((kernel.new ≡ kernel.old) × (regs.new ≡ regs.old)) }
{
    handle_code(image, kernel, regs, completion)
}

/// Handles the trap for which the kernel was entered, as [`handle`] does, in words without an image: `base` is the
/// address of the first one, in bytes, a multiple of 4. The answer is the address to go on at: that behind the
/// instruction, or by stop the instruction's own, where the user's registers are as they were. The mode is user again.
///
/// # Errors
///
/// `Lost` exactly where [`scan_words`](crate::scan_words) finds nothing for that PC and mask. It leaves the registers,
/// the frame and the mode.
pub fn handle_words(
    words: &[u32],
    base: u64,
    kernel: &mut Kernel,
    regs: &mut RegFile,
    completion: Completion,
) -> Result<u64, Lost>
    requires { kernel.old.user ≡ false }
    ensures ok { IfOk result (λ pc. handled (raw_code words.now base) completion kernel.old regs.old
        ≡ Some (going_on pc regs.new)) }
    ensures state { IfOk result (λ pc.
        kernel.new ≡ kernel_after kernel.old (going_on pc regs.new)) }
    ensures refused { IfErr result (λ lost. lost ≡ trap_in kernel.old regs.old) }
    ensures cause { IfErr result (λ lost. place_of_trap (raw_code words.now base) lost ≡ None) }
    ensures same { OnErr result ((kernel.new ≡ kernel.old) × (regs.new ≡ regs.old)) }
{
    handle_code(&RawCode { words, base }, kernel, regs, completion)
}

// Handles the trap for which the kernel was entered, in any code.
pub(crate) fn handle_code<C: TrapCode>(
    code: &C,
    kernel: &mut Kernel,
    regs: &mut RegFile,
    completion: Completion,
) -> Result<u64, Lost>
    requires { kernel.old.user ≡ false }
    ensures ok { IfOk result (λ pc.
        handled (C.parts code.now) completion kernel.old regs.old ≡ Some (going_on pc regs.new)) }
    ensures state { IfOk result (λ pc.
        kernel.new ≡ kernel_after kernel.old (going_on pc regs.new)) }
    ensures refused { IfErr result (λ lost. lost ≡ trap_in kernel.old regs.old) }
    ensures cause { IfErr result (λ lost. place_of_trap (C.parts code.now) lost ≡ None) }
    ensures same { OnErr result ((kernel.new ≡ kernel.old) × (regs.new ≡ regs.old)) }
{
    let trap = trap_in(kernel, regs);
    match scan_code(code, trap.trap_pc, trap.mask) {
        Some(place) => {
            let next = end_trap(code, place, kernel, regs, completion);
            kernel.set_pc(next);
            Ok(kernel.rti(regs))
        }
        None => Err(trap),
    }
}

// The trap for which the kernel was entered.
fn trap_in(kernel: &Kernel, regs: &RegFile) -> Lost
    requires { kernel.now.user ≡ false }
    ensures value { result ≡ trap_in kernel.now regs.now }
    ensures size { length regs.now ≡ 32 }
{
    let r17 = regs.get(Reg::new(17).unwrap());
    Lost {
        trap_pc: kernel.trap_pc(),
        mask: RegSet::of_bits((r17 & 0xffff_ffff) as u32),
    }
}

// Ends a trap of the instruction at a place, and answers the PC to go on at.
fn end_trap<C: TrapCode>(
    code: &C,
    place: usize,
    kernel: &mut Kernel,
    regs: &mut RegFile,
    completion: Completion,
) -> u64
    requires mode { kernel.old.user ≡ false }
    requires place { place < length (C.parts code.now).words }
    requires room { (C.parts code.now).code_base + 4 * place + 4 < 2 ^ 64 }
    requires trigger { kind (class_at (C.parts code.now).words place) ≡ Some kinds.Trigger }
    ensures value { going_on result (user_regs kernel.new regs.new)
        ≡ handled_at (C.parts code.now) completion (user_regs kernel.old regs.old) place }
    ensures mode { kernel.new.user ≡ false }
    ensures status { kernel.new.frame.ps ≡ kernel.old.frame.ps }
    ensures size { length regs.new ≡ length regs.old }
{
    let at = code.base() + 4 * place as u64;
    if completion == Completion::Stop {
        return at;
    }
    let Some(insn) = code.insn_if_any(place) else {
        unreachable!()
    };
    match trigger_of(&insn) {
        Some(trigger) => complete(&trigger, kernel, regs, completion),
        None => unreachable!(),
    }
    at + 4
}

// Completes an instruction from the user's registers, into the user's destination.
#[tactic(auto, using(crate::proofs::HandlerEffect::length_live))]
fn complete(trigger: &Trigger, kernel: &mut Kernel, regs: &mut RegFile, completion: Completion)
    requires { kernel.old.user ≡ false }
    ensures user { let user = user_regs kernel.old regs.old in
        let t = trigger.now in
        user_regs kernel.new regs.new
        ≡ put user t.rc (completed_of t.op (reg user t.ra) (source_value user t.src) completion) }
    ensures mode { kernel.new.user ≡ false }
    ensures status { kernel.new.frame.ps ≡ kernel.old.frame.ps }
    ensures size { length regs.new ≡ length regs.old }
{
    let a = kernel.user_reg(regs, trigger.ra);
    let b = source_value(&trigger.src, kernel, regs);
    let value = completed(trigger.op, a, b, completion);
    kernel.set_user_reg(regs, trigger.rc, value);
}

// The user's value of a second source.
fn source_value(src: &Src, kernel: &Kernel, regs: &RegFile) -> u64
    requires { kernel.now.user ≡ false }
    ensures { result ≡ source_value (user_regs kernel.now regs.now) src.now }
{
    match *src {
        Src::Reg(rb) => kernel.user_reg(regs, rb),
        Src::Lit(n) => u64::from(n),
    }
}
