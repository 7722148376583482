ghost use Rattle.std.specs.Prelude.{◌≡◌, ◌+◌, ◌≤◌, ◌<◌, ◌++◌, length, OnOk};
ghost use Rattle.std.specs.Io.KnownBytes.{Appends};
ghost use Rattle.alpha_io.specs.declared.line.TheConstants.{LINE_ROOM};
ghost use Rattle.alpha_io.specs.Faults.{HasCause};
ghost use Rattle.alpha_io.specs.Written.{WritesPrefix};
ghost use Rattle.alpha_words.specs.Regs.{reg};
ghost use Rattle.alpha_seq.specs.Notes.{overflow_line, register_line, register_lines, eight_registers};
ghost use Rattle.alpha_seq.specs.Notes.{sixteen_registers, barrier_line, barrier_lines, end_line};

use crate::End;
use alpha_io::{Failed, Line, Sink, write_whole};
use alpha_words::{Reg, RegFile};

/// Appends the line of a logged overflow, or on `Failed` a prefix of it: `overflow A`.
#[inline(never)]
pub fn write_overflow<K: Sink>(addr: u64, to: &mut K) -> Result<(), Failed>
    ensures written { OnOk result (Appends (K.written to.old) (K.written to.new)
        (overflow_line addr)) }
    ensures prefix { WritesPrefix (K.written to.old) (K.written to.new) (overflow_line addr) }
    ensures cause { HasCause (K.faults to.old) (K.faults to.new) result }
{
    write_whole(to, line_of_overflow(addr).as_bytes())
}

/// Appends the line of an end, or on `Failed` a prefix of it: `exit V`, `signal C at A`, `fetch A`,
/// `access A address B`, `align A address B` or `stop at A`, where A is the PC.
pub fn write_end<K: Sink>(end: &End, to: &mut K) -> Result<(), Failed>
    ensures written { OnOk result (Appends (K.written to.old) (K.written to.new)
        (end_line end.now)) }
    ensures prefix { WritesPrefix (K.written to.old) (K.written to.new) (end_line end.now) }
    ensures cause { HasCause (K.faults to.old) (K.faults to.new) result }
{
    write_whole(to, line_of_end(end).as_bytes())
}

// The line of a logged overflow.
#[tactic(auto, unfolding(crate::specs::Notes::overflow_line))]
fn line_of_overflow(addr: u64) -> Line
    ensures { result ≡ overflow_line addr }
{
    let mut line = Line::new();
    line.push(b"overflow ");
    line.push_hex(addr);
    line.end();
    line
}

/// The line of an end.
#[tactic(auto, unfolding(crate::specs::Notes::end_line))]
pub fn line_of_end(end: &End) -> Line
    ensures { result ≡ end_line end.now }
{
    let mut line = Line::new();
    match *end {
        End::Exit(value) => {
            line.push(b"exit ");
            line.push_decimal(value);
        }
        End::Signal { code, pc } => {
            line.push(b"signal ");
            line.push_decimal(u64::from(code));
            line.push(b" at ");
            line.push_hex(pc);
        }
        End::Fetch { pc } => {
            line.push(b"fetch ");
            line.push_hex(pc);
        }
        End::Access { pc, addr } => {
            line.push(b"access ");
            line.push_hex(pc);
            line.push(b" address ");
            line.push_hex(addr);
        }
        End::Align { pc, addr } => {
            line.push(b"align ");
            line.push_hex(pc);
            line.push(b" address ");
            line.push_hex(addr);
        }
        End::Overflow { pc } => {
            line.push(b"stop at ");
            line.push_hex(pc);
        }
    }
    line.end();
    line
}

/// Appends the registers in eight lines of four, or on `Failed` a prefix of them.
pub fn write_registers<K: Sink>(regs: &RegFile, to: &mut K) -> Result<(), Failed>
    ensures written { OnOk result (Appends (K.written to.old) (K.written to.new)
        (register_lines regs.now)) }
    ensures prefix { WritesPrefix (K.written to.old) (K.written to.new) (register_lines regs.now) }
    ensures cause { HasCause (K.faults to.old) (K.faults to.new) result }
{
    write_sixteen(regs, 0, to)?;
    write_sixteen(regs, 16, to)
}

/// Appends the lines of a barrier, or on `Failed` a prefix of them: `barrier A`, where A is the PC after it,
/// and the registers.
#[inline(never)]
pub fn write_barrier<K: Sink>(pc: u64, regs: &RegFile, to: &mut K) -> Result<(), Failed>
    ensures written { OnOk result (Appends (K.written to.old) (K.written to.new)
        (barrier_lines pc regs.now)) }
    ensures prefix { WritesPrefix (K.written to.old) (K.written to.new)
        (barrier_lines pc regs.now) }
    ensures cause { HasCause (K.faults to.old) (K.faults to.new) result }
{
    write_barrier_line(pc, to)?;
    write_registers(regs, to)
}

// Appends the line `barrier A`, or on `Failed` a prefix of it.
fn write_barrier_line<K: Sink>(pc: u64, to: &mut K) -> Result<(), Failed>
    ensures written { OnOk result
        (Appends (K.written to.old) (K.written to.new) (barrier_line pc)) }
    ensures prefix { WritesPrefix (K.written to.old) (K.written to.new) (barrier_line pc) }
    ensures cause { HasCause (K.faults to.old) (K.faults to.new) result }
{
    write_whole(to, line_of_barrier(pc).as_bytes())
}

// Appends sixteen registers from one on.
fn write_sixteen<K: Sink>(regs: &RegFile, first: u8, to: &mut K) -> Result<(), Failed>
    requires { first + 16 ≤ 32 }
    ensures written { OnOk result (Appends (K.written to.old) (K.written to.new)
        (sixteen_registers regs.now first)) }
    ensures prefix { WritesPrefix (K.written to.old) (K.written to.new)
        (sixteen_registers regs.now first) }
    ensures cause { HasCause (K.faults to.old) (K.faults to.new) result }
{
    write_eight(regs, first, to)?;
    write_eight(regs, first + 8, to)
}

// Appends eight registers from one on.
fn write_eight<K: Sink>(regs: &RegFile, first: u8, to: &mut K) -> Result<(), Failed>
    requires { first + 8 ≤ 32 }
    ensures written { OnOk result (Appends (K.written to.old) (K.written to.new)
        (eight_registers regs.now first)) }
    ensures prefix { WritesPrefix (K.written to.old) (K.written to.new)
        (eight_registers regs.now first) }
    ensures cause { HasCause (K.faults to.old) (K.faults to.new) result }
{
    let mut line = Line::new();
    push_four(&mut line, regs, first);
    push_four(&mut line, regs, first + 4);
    write_whole(to, line.as_bytes())
}

// Appends the line of four registers from one on.
#[tactic(auto, unfolding(crate::specs::Notes::register_line))]
fn push_four(line: &mut Line, regs: &RegFile, first: u8)
    requires there { first + 4 ≤ 32 }
    requires room { length line.old + 68 ≤ LINE_ROOM }
    ensures state { line.new ≡ line.old ++ register_line regs.now first }
    ensures size { length (register_line regs.now first) ≡ 68 }
{
    line.push_hex(register_value(regs, first));
    line.push(b" ");
    line.push_hex(register_value(regs, first + 1));
    line.push(b" ");
    line.push_hex(register_value(regs, first + 2));
    line.push(b" ");
    line.push_hex(register_value(regs, first + 3));
    line.end();
}

// The value of the register with this number.
fn register_value(regs: &RegFile, number: u8) -> u64
    requires { number < 32 }
    ensures { result ≡ reg regs.now number }
{
    regs.get(Reg::new(number).unwrap())
}

// `barrier A`.
#[tactic(auto, unfolding(crate::specs::Notes::barrier_line))]
fn line_of_barrier(pc: u64) -> Line
    ensures { result ≡ barrier_line pc }
{
    let mut line = Line::new();
    line.push(b"barrier ");
    line.push_hex(pc);
    line.end();
    line
}
