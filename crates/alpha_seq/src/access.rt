ghost use Rattle.std.specs.Prelude.{◌≡◌, ◌==◌, IfOk, IfErr, OnOk, if◌then◌else◌};
ghost use Rattle.std.specs.Int.{w32};
ghost use Rattle.std.specs.Result.{result_err};
ghost use Rattle.alpha_mem.specs.Size.{size_of};
ghost use Rattle.alpha_mem.specs.Block.{shapes};
ghost use Rattle.alpha_mem.specs.Fault.{fault_of};
ghost use Rattle.alpha_mem.specs.Intent.{Load};
ghost use Rattle.alpha_table.specs.Class.{load, store, load_locked, store_conditional, idle};
ghost use Rattle.alpha_table.specs.ClassOf.{class_of};
ghost use Rattle.alpha_table.specs.declared.form.Form.TheVariants.{Mem};
ghost use Rattle.alpha_values.specs.Numbers.{signed, register_of};
ghost use Rattle.alpha_seq.specs.Step.{fault_end, accessed, loaded};
ghost use Rattle.alpha_seq.specs.State.{Went};
ghost use Rattle.alpha_seq.specs.Machine.{state_of};
ghost use Rattle.alpha_seq.specs.Executed.{ExecutesWord, FaultEffect, IsSized, filled, row_access};

use crate::{End, Machine};
use alpha_mem::{MemFault, Size};
use alpha_table::{Extension, MemAccess, MemOp};
use alpha_values::access_address;
use alpha_words::Reg;

// The words with a displacement, which load, store or compute an address.
impl Machine {
    // An arm an operation, so that its row is known where it is executed.
    #[inline(always)]
    pub(crate) fn memory_word(
        &mut self,
        op: MemOp,
        ra: Reg,
        rb: Reg,
        disp: i16,
    ) -> Result<(), MemFault>
        ensures went { OnOk result (ExecutesWord Went (class_of (Mem op ra rb disp)) self.old self.new) }
        ensures fault { IfErr result (λ fault. FaultEffect fault (class_of (Mem op ra rb disp))
            (row_access op rb disp) self.old self.new) }
    {
        match op {
            MemOp::Lda => {
                self.address(MemOp::Lda, ra, rb, disp);
                Ok(())
            }
            MemOp::Ldah => {
                self.address(MemOp::Ldah, ra, rb, disp);
                Ok(())
            }
            MemOp::Ldbu => self.load(Extension::Zero, &memory_access(MemOp::Ldbu, rb, disp), ra),
            MemOp::Ldwu => self.load(Extension::Zero, &memory_access(MemOp::Ldwu, rb, disp), ra),
            MemOp::Ldl => self.load(Extension::Sign, &memory_access(MemOp::Ldl, rb, disp), ra),
            MemOp::Ldq => self.load(Extension::Zero, &memory_access(MemOp::Ldq, rb, disp), ra),
            MemOp::LdqU => self.load(Extension::Zero, &memory_access(MemOp::LdqU, rb, disp), ra),
            MemOp::Stb => self.store(&memory_access(MemOp::Stb, rb, disp), ra),
            MemOp::Stw => self.store(&memory_access(MemOp::Stw, rb, disp), ra),
            MemOp::Stl => self.store(&memory_access(MemOp::Stl, rb, disp), ra),
            MemOp::Stq => self.store(&memory_access(MemOp::Stq, rb, disp), ra),
            MemOp::StqU => self.store(&memory_access(MemOp::StqU, rb, disp), ra),
            MemOp::LdlL => {
                self.load_locked(Extension::Sign, &memory_access(MemOp::LdlL, rb, disp), ra)
            }
            MemOp::LdqL => {
                self.load_locked(Extension::Zero, &memory_access(MemOp::LdqL, rb, disp), ra)
            }
            MemOp::StlC => self.store_conditional(&memory_access(MemOp::StlC, rb, disp), ra),
            MemOp::StqC => self.store_conditional(&memory_access(MemOp::StqC, rb, disp), ra),
        }
    }

    // A load into R31 makes no access.
    #[inline(always)]
    fn load(&mut self, extension: Extension, at: &MemAccess, ra: Reg) -> Result<(), MemFault>
        requires { IsSized at.now.bytes }
        ensures went { let class = if ra == 31 then idle else load extension at.now ra in
            OnOk result (ExecutesWord Went class self.old self.new) }
        ensures fault { let class = if ra == 31 then idle else load extension at.now ra in
            IfErr result (λ fault. FaultEffect fault class at.now self.old self.new) }
    {
        if ra == Reg::ZERO {
            self.idle();
            return Ok(());
        }
        let addr = self.accessed_address(at);
        match self.read(extension, at, addr) {
            Ok(value) => {
                self.set(ra, value);
                Ok(())
            }
            Err(fault) => Err(fault),
        }
    }

    #[inline(always)]
    fn load_locked(&mut self, extension: Extension, at: &MemAccess, ra: Reg) -> Result<(), MemFault>
        requires { IsSized at.now.bytes }
        ensures went { OnOk result (ExecutesWord Went (load_locked extension at.now ra) self.old self.new) }
        ensures fault { IfErr result (λ fault. FaultEffect fault (load_locked extension at.now ra)
            at.now self.old self.new) }
    {
        let addr = self.accessed_address(at);
        match self.read(extension, at, addr) {
            Ok(value) => {
                self.set(ra, value);
                self.lock = Some(addr / 16);
                Ok(())
            }
            Err(fault) => Err(fault),
        }
    }

    #[inline(always)]
    fn store(&mut self, at: &MemAccess, ra: Reg) -> Result<(), MemFault>
        requires { IsSized at.now.bytes }
        ensures went { OnOk result (ExecutesWord Went (store at.now ra) self.old self.new) }
        ensures fault { IfErr result (λ fault. FaultEffect fault (store at.now ra) at.now
            self.old self.new) }
    {
        let addr = self.accessed_address(at);
        let value = self.regs.get(ra);
        match self.memory.store(addr, size(at.bytes), value) {
            Ok(()) => {
                self.advance();
                Ok(())
            }
            Err(fault) => Err(fault),
        }
    }

    // It stores where the lock flag has the number of its sixteen bytes, and faults alike where it doesn't.
    #[inline(always)]
    fn store_conditional(&mut self, at: &MemAccess, ra: Reg) -> Result<(), MemFault>
        requires { IsSized at.now.bytes }
        ensures went { OnOk result (ExecutesWord Went (store_conditional at.now ra) self.old self.new) }
        ensures fault { IfErr result
            (λ fault. FaultEffect fault (store_conditional at.now ra) at.now
            self.old self.new) }
    {
        let addr = self.accessed_address(at);
        let value = self.regs.get(ra);
        let succeeds = self.lock == Some(addr / 16);
        let stored = if succeeds {
            self.memory.store(addr, size(at.bytes), value)
        } else {
            self.memory.writable(addr, size(at.bytes))
        };
        match stored {
            Ok(()) => {
                self.set(ra, u64::from(succeeds));
                self.lock = None;
                Ok(())
            }
            Err(fault) => Err(fault),
        }
    }

    /// The address of an access (Architecture Handbook, section 4.2).
    #[inline(always)]
    pub fn accessed_address(&self, at: &MemAccess) -> u64
        ensures { result ≡ accessed at.now (state_of self.now) }
    {
        access_address(at, self.regs.get(at.base))
    }

    // What a load from an address puts into its register.
    #[tactic(auto, using(crate::proofs::LoadedValues::loaded_filled))]
    #[inline(always)]
    fn read(&self, extension: Extension, at: &MemAccess, addr: u64) -> Result<u64, MemFault>
        requires size { IsSized at.now.bytes }
        requires addr { addr ≡ accessed at.now (state_of self.now) }
        ensures fault { result_err result
            ≡ fault_of (shapes self.now.memory) Load addr at.now.bytes }
        ensures ok { IfOk result (λ v. v ≡ loaded extension at.now (state_of self.now)) }
    {
        match self.memory.load(addr, size(at.bytes)) {
            Ok(value) => Ok(extend(extension, value)),
            Err(fault) => Err(fault),
        }
    }
}

/// The access of a memory instruction (Architecture Handbook, section 4.2).
#[inline(always)]
pub fn memory_access(op: MemOp, rb: Reg, disp: i16) -> MemAccess
    ensures { result ≡ row_access op rb disp }
{
    let row = op.row();
    MemAccess {
        base: rb,
        disp,
        bytes: row.bytes,
        clears: row.clears,
    }
}

/// The size of so many bytes: 1, 2, 4 or 8.
#[inline(always)]
pub fn size(bytes: u8) -> Size
    requires { IsSized bytes }
    ensures { size_of result ≡ bytes }
{
    match bytes {
        1 => Size::B1,
        2 => Size::B2,
        4 => Size::B4,
        _ => Size::B8,
    }
}

// The end that the fault of an access brings.
#[inline(always)]
pub(crate) fn fault_end(fault: MemFault, pc: u64, addr: u64) -> End
    ensures { result ≡ fault_end fault pc addr }
{
    match fault {
        MemFault::Align => End::Align { pc, addr },
        MemFault::Region => End::Access { pc, addr },
    }
}

// A number as a load fills its register with it. Longwords alone are extended with the sign.
#[inline(always)]
pub(crate) fn extend(extension: Extension, number: u64) -> u64
    ensures { result ≡ filled extension number }
{
    match extension {
        Extension::Zero => number,
        Extension::Sign => sign_extend(number),
    }
}

// The longword in the low 32 bits, extended with its sign.
#[inline(always)]
fn sign_extend(number: u64) -> u64
    ensures { result ≡ register_of (signed w32 number) }
{
    i64::from(((number & 0xffff_ffff) as u32).cast_signed()).cast_unsigned()
}
