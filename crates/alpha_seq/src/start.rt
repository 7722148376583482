ghost use Rattle.std.specs.Prelude.{◌≡◌, ◌+◌, ◌<◌, ℕ, List, [], length, replicate, IfOk, OnOk};
ghost use Rattle.alpha_words.specs.Regs.{put};
ghost use Rattle.alpha_pal.specs.Kernel.{new_kernel};
ghost use Rattle.alpha_seq.specs.Start.{stack_end, start_memory, start};
ghost use Rattle.alpha_seq.specs.StartMemory.{memory_before};
ghost use Rattle.alpha_seq.specs.Machine.{program_of, state_of};

use crate::Machine;
use alpha_image::Image;
use alpha_mem::Memory;
use alpha_pal::Kernel;
use alpha_words::{Completion, NoMemory, Reg, RegFile};
use std::alloc::Global;

// Where the stack ends: no address of the program's world is above it.
const STACK_END: u64 = 1 << 30;

impl Machine {
    /// The machine in the state at the start: R27 is the entry address, R30 is 2^30 and all other
    /// registers are 0; the data bytes are the image's and all other bytes that may be written are 0.
    /// `completion` is what an instruction that overflows leaves. `NoMemory` where memory runs out.
    pub fn new(alloc: Global, image: Image, completion: Completion) -> Result<Machine, NoMemory>
        ensures program { IfOk result (λ m. program_of m ≡ record { image = image; completion = completion }) }
        ensures start { IfOk result (λ m. state_of m ≡ start (program_of m)) }
        ensures kernel { IfOk result (λ m. m.kernel ≡ new_kernel) }
    {
        let memory = start_memory(alloc, &image)?;
        let kernel = Kernel::new(alloc)?;
        let entry = image.entry();
        Ok(Machine {
            image,
            memory,
            kernel,
            regs: start_regs(entry),
            pc: entry,
            unique: 0,
            lock: None,
            completion,
            overflows: 0,
            last: 0,
        })
    }
}

// The code, the segments and the stack.
fn start_memory(alloc: Global, image: &Image) -> Result<Memory, NoMemory>
    ensures { IfOk result (λ memory. memory ≡ start_memory image.now) }
{
    let mut memory = Memory::empty(alloc);
    add_code(alloc, &mut memory, image)?;
    for n in 0..image.segments() {
        add_segment(&mut memory, image, n)?;
    }
    add_stack(&mut memory, image)?;
    Ok(memory)
}

// Adds the code.
fn add_code(alloc: Global, memory: &mut Memory, image: &Image) -> Result<(), NoMemory>
    requires { memory.old ≡ [] }
    ensures { OnOk result (memory.new ≡ memory_before image.now 0) }
{
    let code = image.code_bytes(alloc)?;
    memory.add(image.code_base(), code.as_slice(), 0, false)
}

// Adds the segment with this number, to the code and the segments before it.
fn add_segment(memory: &mut Memory, image: &Image, n: u32) -> Result<(), NoMemory>
    requires there { n < length image.now.segments }
    requires before { memory.old ≡ memory_before image.now n }
    ensures { OnOk result (memory.new ≡ memory_before image.now (n + 1)) }
{
    let segment = image.segment(n).unwrap();
    let bytes = image.segment_bytes(n).unwrap();
    memory.add(segment.base, bytes, segment.zeroed, true)
}

// Adds the stack, to the code and all segments.
fn add_stack(memory: &mut Memory, image: &Image) -> Result<(), NoMemory>
    requires { memory.old ≡ memory_before image.now (length image.now.segments) }
    ensures { OnOk result (memory.new ≡ start_memory image.now) }
{
    let size = u64::from(image.stack());
    memory.add(STACK_END - size, &[], size, true)
}

// All registers are 0 but for R27, the entry address, and R30, the end of the stack.
fn start_regs(entry: u64) -> RegFile
    ensures { result ≡ put (put (replicate 32 0) 27 entry) 30 stack_end }
{
    let mut regs = RegFile::zeroed();
    regs.set(Reg::new(27).unwrap(), entry);
    regs.set(Reg::new(30).unwrap(), STACK_END);
    regs
}
