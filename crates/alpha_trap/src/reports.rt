//! A report of a late trap as one call: the kernel is entered, the handler deals with the trap, the kernel is left.

ghost use Rattle.std.specs.Prelude.{◌≡◌, IsTrue, Some, None, true, IfOk, IfErr, OnErr};
ghost use Rattle.alpha_pal.specs.Kernel.{arith_frame, entered};
ghost use Rattle.alpha_trap.specs.RawCode.{raw_code};
ghost use Rattle.alpha_trap.specs.Handler.{going_on, kernel_after, reported};

use crate::handler::handle_code;
use crate::trap_code::{RawCode, TrapCode};
use crate::{Lost, laws_of_reports};
use alpha_image::Image;
use alpha_pal::Kernel;
use alpha_words::{Completion, Reg, RegFile, RegSet};

/// Reports a trap at an address, with the registers that it may have spoilt: enters the kernel
/// ([`Kernel::enter_arith`]), has [`handle`](crate::handle) deal with the trap, and is in user mode again. The
/// registers are those of the program, which runs in user mode, and `pc` is an address in bytes above the
/// instruction's. The answer is the address to go on at, and the registers are as the trap's completion leaves them: by
/// stop it is the instruction's own address, and they are as they were.
///
/// # Errors
///
/// `Lost`, with that address and these registers, exactly where [`scan_back`](crate::scan_back) finds no instruction.
/// The registers are as they were.
pub fn report(
    image: &Image,
    kernel: &mut Kernel,
    regs: &mut RegFile,
    pc: u64,
    mask: RegSet,
    completion: Completion,
) -> Result<u64, Lost>
    requires { IsTrue kernel.old.user }
    ensures done { IfOk result (λ next.
        reported image.now completion pc mask regs.old ≡ Some (going_on next regs.new)) }
    ensures state { IfOk result (λ next. kernel.new
        ≡ kernel_after (entered (arith_frame pc regs.old) regs.old) (going_on next regs.new)) }
    ensures lost { IfErr result (λ lost. lost ≡ record { trap_pc = pc; mask = mask }) }
    ensures cause { OnErr result (reported image.now completion pc mask regs.old ≡ None) }
    ensures same { OnErr result (regs.new ≡ regs.old) }
    ensures left { OnErr result (kernel.new
        ≡ record (entered (arith_frame pc regs.old) regs.old) { user = true }) }
    ensures user { IsTrue kernel.new.user }
{
    report_code(image, kernel, regs, pc, mask, completion)
}

/// Reports a trap as [`report`] does, in words without an image: `base` is the address of the first one, in bytes, a
/// multiple of 4 as `pc` is.
///
/// # Errors
///
/// `Lost`, with that address and these registers, exactly where [`scan_words`](crate::scan_words) finds no
/// instruction. The registers are as they were.
pub fn report_words(
    words: &[u32],
    base: u64,
    kernel: &mut Kernel,
    regs: &mut RegFile,
    pc: u64,
    mask: RegSet,
    completion: Completion,
) -> Result<u64, Lost>
    requires { IsTrue kernel.old.user }
    ensures done { IfOk result (λ next. reported (raw_code words.now base) completion pc mask regs.old
        ≡ Some (going_on next regs.new)) }
    ensures state { IfOk result (λ next. kernel.new
        ≡ kernel_after (entered (arith_frame pc regs.old) regs.old) (going_on next regs.new)) }
    ensures lost { IfErr result (λ lost. lost ≡ record { trap_pc = pc; mask = mask }) }
    ensures cause { OnErr result (reported (raw_code words.now base) completion pc mask regs.old ≡ None) }
    ensures same { OnErr result (regs.new ≡ regs.old) }
    ensures left { OnErr result (kernel.new
        ≡ record (entered (arith_frame pc regs.old) regs.old) { user = true }) }
    ensures user { IsTrue kernel.new.user }
{
    report_code(&RawCode { words, base }, kernel, regs, pc, mask, completion)
}

// Reports a trap in any code.
fn report_code<C: TrapCode>(
    code: &C,
    kernel: &mut Kernel,
    regs: &mut RegFile,
    pc: u64,
    mask: RegSet,
    completion: Completion,
) -> Result<u64, Lost>
    requires { IsTrue kernel.old.user }
    ensures done { IfOk result (λ next. reported (C.parts code.now) completion pc mask regs.old
        ≡ Some (going_on next regs.new)) }
    ensures state { IfOk result (λ next. kernel.new
        ≡ kernel_after (entered (arith_frame pc regs.old) regs.old) (going_on next regs.new)) }
    ensures lost { IfErr result (λ lost. lost ≡ record { trap_pc = pc; mask = mask }) }
    ensures cause { OnErr result (reported (C.parts code.now) completion pc mask regs.old ≡ None) }
    ensures same { OnErr result (regs.new ≡ regs.old) }
    ensures left { OnErr result (kernel.new
        ≡ record (entered (arith_frame pc regs.old) regs.old) { user = true }) }
    ensures user { IsTrue kernel.new.user }
{
    laws_of_reports();
    // A read tells the proof that there are 32 registers.
    let _zero = regs.get(Reg::ZERO);
    kernel.enter_arith(regs, pc, mask);
    match handle_code(code, kernel, regs, completion) {
        Ok(next) => Ok(next),
        Err(lost) => {
            kernel.rti(regs);
            Err(lost)
        }
    }
}
