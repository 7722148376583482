use alpha_image::Image;
use alpha_mem::Memory;
use alpha_pal::Kernel;
use alpha_words::{Completion, RegFile};

/// The sequential machine. All of its parts are open: a debugger looks at them, and the handler of a late trap
/// changes them.
#[derive(Debug, Drop)]
pub struct Machine {
    /// The program.
    pub image: Image,
    /// The memory: the code, the segments and the stack.
    pub memory: Memory,
    /// The kernel, in user mode between two steps.
    pub kernel: Kernel,
    /// The registers.
    pub regs: RegFile,
    /// The address of the word that runs next.
    pub pc: u64,
    /// The unique value of rdunique and wrunique.
    pub unique: u64,
    /// The number in the lock flag, an address divided by 16; `None` where the flag is clear.
    pub lock: Option<u64>,
    /// What an instruction that overflows leaves.
    pub completion: Completion,
    /// How many overflows were logged, modulo 2^64.
    pub overflows: u64,
    /// The address of the last logged overflow, 0 where there is none.
    pub last: u64,
}
