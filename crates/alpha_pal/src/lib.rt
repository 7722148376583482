//! The kernel: trap frames, the user's registers while the kernel is entered, and the PAL calls
//! (Reference Manual, OSF/1 PALcode).
//!
//! - [`Kernel`] has a mode and a kernel stack of 4,096 bytes outside the address space. The last 48
//!   bytes of the stack are the frame of the last entry, six little-endian quadwords: PS, PC, GP,
//!   R16, R17 and R18. The user's stack pointer is saved apart.
//! - An arithmetic trap enters by [`Kernel::enter_arith`]. In kernel mode `user_reg` and
//!   `set_user_reg` are the user's registers: the live ones, with R16, R17, R18 and R29 from the
//!   frame and R30 from the saved pointer. `rti` makes them the live ones again.
//! - [`Kernel::call`] makes a PAL call. rdunique and wrunique move the unique value; bpt, bugchk and
//!   gentrap end the program by a signal; imb does nothing; callsys makes the system call of R0:
//!   1 is exit, 3 is read, 4 is write. An error's number is left in R0 with 1 in R19, and they are
//!   tried in this order: 78 for another number, 9 for a descriptor that isn't 0 for read or 1 for
//!   write, 14 for a range that has bytes and doesn't lie within one region that may be written for
//!   read, or read for write. Success leaves its value in R0 and 0 in R19. A read goes on until it
//!   has as many bytes as asked for, or the input has ended.
//! - [`PalEnd`] is how a call ended, [`Passed`] what it took or put, [`Fault`] the device that failed
//!   in it, and [`Summary`] the exception summary of an arithmetic trap.
//! - [`laws_of_calls`] does nothing: its contract is the laws of calls.
//!
//! `specs/Frame.antt` says what the bytes of a frame are, `specs/Kernel.antt` what a clause sees of
//! the kernel and what the user's registers are, `specs/Call.antt` what each call does,
//! `specs/Serve.antt` a system call in the parts in which the code makes it, `specs/Taken.antt` what
//! a read takes, `specs/Passed.antt` where that and what a write puts stand in memory, and
//! `specs/CallEffect.antt` how the code's answer stands to that, for devices that
//! tell their bytes and for others. `src/frame.rt` has the frame, `src/kernel.rt` entries and
//! returns, `src/call.rt` the PAL calls, `src/serve.rt` the system calls, and `src/take.rt` the loop
//! of a read.
#![tactic(auto)]

mod call;
mod fault;
mod frame;
mod kernel;
mod laws;
mod named;
mod pal_end;
mod serve;
mod summary;
mod take;

pub use fault::Fault;
pub use kernel::Kernel;
pub use laws::laws_of_calls;
pub use pal_end::{PalEnd, Passed};
pub use summary::Summary;
