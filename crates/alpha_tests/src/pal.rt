use crate::common::reg;
use alpha_io::{MemorySource, NullSink, Sink, Source, TrickleSink};
use alpha_mem::Memory;
use alpha_pal::{Fault, Kernel, PalEnd, Passed, Summary};
use alpha_words::{NoMemory, PalCall, RegFile, RegSet};
use bitflags::Flags;
use std::alloc::Global;
use std::test::Fail;

// A kernel and a memory: sixteen bytes that may be read, and at once after them eight that may be
// written too.
#[derive(Drop)]
struct Bench {
    kernel: Kernel,
    mem: Memory,
    unique: u64,
}

impl Bench {
    fn new(alloc: Global) -> Result<Bench, NoMemory> {
        let kernel = Kernel::new(alloc)?;
        let mut mem = Memory::empty(alloc);
        mem.add(0x1_0000, b"0123", 12, false)?;
        mem.add(0x1_0010, b"abcd", 4, true)?;
        Ok(Bench {
            kernel,
            mem,
            unique: 5,
        })
    }

    // Makes the call in user mode, and answers its end, R0 and R19.
    fn call<S: Source, K: Sink>(
        &mut self,
        function: PalCall,
        request: [u64; 4],
        input: &mut S,
        out: &mut K,
    ) -> (Result<PalEnd, Fault>, u64, u64) {
        let mut regs = asking(request);
        if !self.kernel.is_user() {
            return (Ok(PalEnd::Signal(9)), 0, 0);
        }
        let end = self.kernel.call(
            function,
            0,
            &mut self.unique,
            &mut regs,
            &mut self.mem,
            input,
            out,
        );
        (end, regs.get(reg(0)), regs.get(reg(19)))
    }

    fn at(&self, addr: u64, len: u64) -> &[u8] {
        self.mem.bytes(addr, len).unwrap_or(&[])
    }
}

// What a read has taken that began at the bytes that may be written.
fn took(len: u64) -> Passed {
    Passed::Took {
        addr: 0x1_0010,
        len,
    }
}

// The registers that ask for a system call.
fn asking(request: [u64; 4]) -> RegFile {
    let [number, a0, a1, a2] = request;
    let mut regs = RegFile::zeroed();
    regs.set(reg(0), number);
    regs.set(reg(16), a0);
    regs.set(reg(17), a1);
    regs.set(reg(18), a2);
    regs
}

// R16, R17, R18, R29 and R30.
fn saved(regs: &RegFile) -> [u64; 5] {
    [
        regs.get(reg(16)),
        regs.get(reg(17)),
        regs.get(reg(18)),
        regs.get(reg(29)),
        regs.get(reg(30)),
    ]
}

#[test]
fn a_frame_saves_what_the_return_restores(rt: HostRuntime) -> Result<(), Fail> {
    let alloc = rt.alloc();
    let mut want = Vec::new(alloc);
    let quadwords: [u64; 6] = [8, 0x1_0008, 4, 1, 2, 3];
    for quadword in quadwords {
        want.extend_from_slice(&quadword.to_le_bytes())?;
    }
    let mut regs = asking([0, 1, 2, 3]);
    regs.set(reg(29), 4);
    regs.set(reg(30), 5);
    let mut kernel = Kernel::new(alloc)?;
    kernel.enter_arith(&mut regs, 0x1_0008, RegSet::of_bits(0x18));
    assert_eq!(rt; kernel.frame(), want.as_slice());
    assert_eq!(rt; saved(&regs), [64, 24, 3, 0, 4_048]);
    assert_eq!(rt; kernel.rti(&mut regs), 65_544);
    assert_eq!(rt; saved(&regs), [1, 2, 3, 4, 5]);
    Ok(())
}

#[test]
fn the_users_registers_are_in_the_frame(rt: HostRuntime) -> Result<(), Fail> {
    let mut regs = RegFile::zeroed();
    let mut kernel = Kernel::new(rt.alloc())?;
    kernel.enter_arith(&mut regs, 0x1_0008, RegSet::empty());
    kernel.set_user_reg(&mut regs, reg(16), 7);
    kernel.set_user_reg(&mut regs, reg(30), 8);
    kernel.set_pc(kernel.trap_pc() - 4);
    assert_eq!(rt; saved(&regs), [64, 0, 0, 0, 4_048]);
    assert_eq!(rt; kernel.user_reg(&regs, reg(16)), 7);
    assert_eq!(rt; kernel.rti(&mut regs), 0x1_0004);
    assert_eq!(rt; saved(&regs), [7, 0, 0, 0, 8]);
    Ok(())
}

#[test]
fn a_read_goes_on_over_short_takes(rt: HostRuntime) -> Result<(), Fail> {
    let alloc = rt.alloc();
    let mut bench = Bench::new(alloc)?;
    let mut input = MemorySource::new(b"vwxyz".to_vec(alloc)?, 2, Vec::new(alloc));
    for want in [4, 1, 0] {
        let request = [3, 0, 0x1_0010, 4];
        let got = bench.call(PalCall::Callsys, request, &mut input, &mut NullSink::new());
        assert_eq!(rt; got, (Ok(PalEnd::Goes(took(want))), want, 0));
    }
    assert_eq!(rt; bench.at(0x1_0010, 4), b"zwxy".as_slice());
    Ok(())
}

#[test]
fn a_take_that_fails_leaves_what_was_taken(rt: HostRuntime) -> Result<(), Fail> {
    let alloc = rt.alloc();
    let mut bench = Bench::new(alloc)?;
    let mut input = MemorySource::new(b"vwxyz".to_vec(alloc)?, 2, [1].to_vec(alloc)?);
    let request = [3, 0, 0x1_0010, 4];
    let got = bench.call(PalCall::Callsys, request, &mut input, &mut NullSink::new());
    assert_eq!(rt; got, (Err(Fault::Input), 3, 0));
    assert_eq!(rt; bench.at(0x1_0010, 4), b"vwcd".as_slice());
    let got = bench.call(PalCall::Callsys, request, &mut input, &mut NullSink::new());
    assert_eq!(rt; got, (Ok(PalEnd::Goes(took(3))), 3, 0));
    assert_eq!(rt; bench.at(0x1_0010, 4), b"xyzd".as_slice());
    Ok(())
}

#[test]
fn a_write_goes_on_over_short_puts(rt: HostRuntime) -> Result<(), Fail> {
    let alloc = rt.alloc();
    let mut bench = Bench::new(alloc)?;
    let mut input = MemorySource::new(Vec::new(alloc), 1, Vec::new(alloc));
    let mut out = TrickleSink::new(alloc, 9, [5].to_vec(alloc)?)?;
    let request = [4, 1, 0x1_0000, 4];
    let got = bench.call(PalCall::Callsys, request, &mut input, &mut out);
    let put = Passed::Put {
        addr: 0x1_0000,
        len: 4,
    };
    assert_eq!(rt; got, (Ok(PalEnd::Goes(put)), 4, 0));
    let got = bench.call(PalCall::Callsys, request, &mut input, &mut out);
    assert_eq!(rt; got, (Err(Fault::Output), 4, 0));
    assert_eq!(rt; out.bytes(), b"01230".as_slice());
    Ok(())
}

#[test]
fn errors_come_in_order(rt: HostRuntime) -> Result<(), Fail> {
    let alloc = rt.alloc();
    let mut bench = Bench::new(alloc)?;
    let mut input = MemorySource::new(b"vwxyz".to_vec(alloc)?, 2, Vec::new(alloc));
    for (request, value) in [
        ([0, 0, 0x1_0010, 4], 78),
        ([2, 7, 0, 4], 78),
        ([3, 1, 0x1_0010, 4], 9),
        ([4, 0, 0x1_0010, 4], 9),
        ([3, 2, 0, 4], 9),
        ([4, 2, 0, 4], 9),
        ([3, 0, 0x1_0000, 4], 14),
        ([4, 1, 0x1_0014, 5], 14),
        ([4, 1, 0x1_000c, 8], 14),
        ([3, 0, u64::MAX, u64::MAX], 14),
    ] {
        let got = bench.call(PalCall::Callsys, request, &mut input, &mut NullSink::new());
        let end = Ok(PalEnd::Goes(Passed::Nothing));
        assert_eq!(rt; got, (end, value, 1), "at {:?}", request);
    }
    let taken = Passed::Took { addr: 0, len: 0 };
    let put = Passed::Put { addr: 0, len: 0 };
    for (request, passed) in [([3, 0, 0, 0], taken), ([4, 1, 0, 0], put)] {
        let got = bench.call(PalCall::Callsys, request, &mut input, &mut NullSink::new());
        assert_eq!(rt; got, (Ok(PalEnd::Goes(passed)), 0, 0), "at {:?}", request);
    }
    Ok(())
}

#[test]
fn the_calls_without_devices(rt: HostRuntime) -> Result<(), Fail> {
    let alloc = rt.alloc();
    let mut bench = Bench::new(alloc)?;
    let mut input = MemorySource::new(Vec::new(alloc), 1, Vec::new(alloc));
    for (function, end, value) in [
        (PalCall::Imb, PalEnd::Goes(Passed::Nothing), 1),
        (PalCall::Callsys, PalEnd::Exit(6), 1),
        (PalCall::Bpt, PalEnd::Signal(0), 1),
        (PalCall::Bugchk, PalEnd::Signal(1), 1),
        (PalCall::Gentrap, PalEnd::Signal(2), 1),
        (PalCall::Rdunique, PalEnd::Goes(Passed::Nothing), 5),
        (PalCall::Wrunique, PalEnd::Goes(Passed::Nothing), 1),
        (PalCall::Rdunique, PalEnd::Goes(Passed::Nothing), 6),
    ] {
        let got = bench.call(function, [1, 6, 0, 0], &mut input, &mut NullSink::new());
        assert_eq!(rt; got, (Ok(end), value, 0));
    }
    Ok(())
}

#[test]
fn a_summary_has_named_bits(rt: HostRuntime) {
    assert_eq!(rt; Summary::from_name("IOV"), Some(Summary(64)));
    assert_eq!(rt; Summary::all().bits(), 127);
}
