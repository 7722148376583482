ghost use Rattle.std.specs.Prelude.{◌≡◌, false, IfOk};

use crate::common::reg;
use alpha_pal::Kernel;
use alpha_samples::sample;
use alpha_trap::{Lost, handle, scan_back};
use alpha_words::{Completion, NoMemory, RegFile, RegSet};
use std::alloc::Global;
use std::test::Fail;

// `lda $1,-1($31); srl $1,1,$1; bis $31,1,$2; addq/v $1,$2,$3; addq/v $1,$1,$4; trapb; xor $3,$4,$16;
// lda $0,1($31); callsys`: two overflows before a barrier, and an exit with what they leave.
const OVERFLOWS: [u32; 9] = [
    0x203f_ffff,
    0x4820_3681,
    0x47e0_3402,
    0x4022_0c03,
    0x4021_0c04,
    0x63ff_0000,
    0x4464_0810,
    0x201f_0001,
    0x0000_0083,
];

// addq/v $1,$2,$3; br $31,.+4; addq/v $1,$2,$4; addq/v $1,$2,$3; nop; addq/v $1,$2,$3
const TURN: [u32; 6] = [
    0x4022_0c03,
    0xc3e0_0000,
    0x4022_0c04,
    0x4022_0c03,
    0x47ff_041f,
    0x4022_0c03,
];

// lda $17,-1($31); srl $17,1,$17; addq/v $17,$30,$16; trapb; lda $0,1($31); callsys
const SAVED: [u32; 6] = [
    0x223f_ffff,
    0x4a20_3691,
    0x423e_0c10,
    0x63ff_0000,
    0x201f_0001,
    0x0000_0083,
];

// addq/v $1,$2,$r and trapb, for r = 3, 16, 17, 18, 29 and 30
const DESTINATIONS: [u32; 12] = [
    0x4022_0c03,
    0x63ff_0000,
    0x4022_0c10,
    0x63ff_0000,
    0x4022_0c11,
    0x63ff_0000,
    0x4022_0c12,
    0x63ff_0000,
    0x4022_0c1d,
    0x63ff_0000,
    0x4022_0c1e,
    0x63ff_0000,
];

// A kernel that was entered for a trap at an address with a mask.
fn entered(alloc: Global, regs: &mut RegFile, pc: u64, mask: u32) -> Result<Kernel, NoMemory>
    ensures { IfOk result (λ kernel. kernel.user ≡ false) }
{
    let mut kernel = Kernel::new(alloc)?;
    kernel.enter_arith(regs, pc, RegSet::of_bits(mask));
    Ok(kernel)
}

// Rn has the value n + 100, but for these registers.
fn registers(values: &[(u8, u64)]) -> RegFile {
    let mut regs = RegFile::zeroed();
    for n in 0..31 {
        regs.set(reg(n), u64::from(n) + 100);
    }
    for (n, value) in values {
        regs.set(reg(*n), *value);
    }
    regs
}

// Whether the registers are these.
fn are_same(left: &RegFile, right: &RegFile) -> bool {
    (0..32).all(|n| left.get(reg(n)) == right.get(reg(n)))
}

#[test]
fn the_scan_finds_the_greatest_place_that_fits(rt: HostRuntime) -> Result<(), Fail> {
    let sums = sample(rt.alloc(), &OVERFLOWS, 0)?;
    for (pc, mask, want) in [
        (0x1_0014, 0b1_1000, Some(3)),
        (0x1_0014, 0b1_0000, Some(4)),
        (0x1_0014, 0b10_0000, None),
        (0x1_0014, 0, None),
        (0x1_0018, 0b1_0000, None),
        (0x1_0028, 0b1_0000, None),
        (0x1_0010, 0b1000, Some(3)),
        (0x1_0010, 0b1_0000, None),
        (0x1_0012, 0b1000, None),
    ] {
        let found = scan_back(&sums, pc, RegSet::of_bits(mask));
        assert_eq!(rt; found, want, "at {pc:x} {mask:x}");
    }
    let turn = sample(rt.alloc(), &TURN, 0)?;
    for (pc, mask, want) in [
        (0x1_0018, 0b1000, Some(5)),
        (0x1_0018, 0b1_1000, Some(2)),
        (0x1_0014, 0b1000, Some(3)),
        (0x1_000c, 0b1000, None),
        (0x1_0004, 0b1000, Some(0)),
        (0x1_0000, 0b1000, None),
        (0x1_001c, 0b1000, None),
    ] {
        let found = scan_back(&turn, pc, RegSet::of_bits(mask));
        assert_eq!(rt; found, want, "at {pc:x} {mask:x}");
    }
    Ok(())
}

#[test]
fn sources_come_from_the_frame_and_the_value_goes_there(rt: HostRuntime) -> Result<(), Fail> {
    let saved = sample(rt.alloc(), &SAVED, 0)?;
    for (how, want, next) in [
        (
            Completion::Wrap,
            9_223_372_037_928_517_631_u64,
            0x1_000c_u64,
        ),
        (Completion::Saturate, 9_223_372_036_854_775_807, 0x1_000c),
        (Completion::Stop, 5, 0x1_0008),
    ] {
        let old = registers(&[(16, 5), (17, u64::MAX >> 1), (30, 1 << 30)]);
        let mut new = old;
        let mut kernel = entered(rt.alloc(), &mut new, 0x1_000c, 1 << 16)?;
        assert_eq!(rt; handle(&saved, &mut kernel, &mut new, how), Ok(next));
        assert!(rt; kernel.is_user());
        assert_eq!(rt;
            kernel.frame().get(24..32),
            Some(want.to_le_bytes().as_slice())
        );
        assert_eq!(rt;
            kernel.frame().get(8..16),
            Some(next.to_le_bytes().as_slice())
        );
        assert_eq!(rt; new.get(reg(16)), want);
        new.set(reg(16), 5);
        assert!(rt; are_same(&new, &old));
    }
    Ok(())
}

#[test]
fn each_destination_gets_its_value_alone(rt: HostRuntime) -> Result<(), Fail> {
    let destinations = sample(rt.alloc(), &DESTINATIONS, 0)?;
    let most = u64::MAX >> 1;
    for (n, pc) in [
        (3, 0x1_0004),
        (16, 0x1_000c),
        (17, 0x1_0014),
        (18, 0x1_001c),
        (29, 0x1_0024),
        (30, 0x1_002c),
    ] {
        for (how, other, want) in [
            (Completion::Wrap, 1, 1 << 63),
            (Completion::Saturate, 1, most),
            (Completion::Wrap, 0, most),
            (Completion::Saturate, 0, most),
        ] {
            let old = registers(&[(1, most), (2, other)]);
            let mut new = old;
            let mut kernel = entered(rt.alloc(), &mut new, pc, 1 << n)?;
            assert_eq!(rt; handle(&destinations, &mut kernel, &mut new, how), Ok(pc));
            assert_eq!(rt; new.get(reg(n)), want, "at {n}");
            new.set(reg(n), u64::from(n) + 100);
            assert!(rt; are_same(&new, &old), "at {n}");
        }
    }
    Ok(())
}

#[test]
fn a_return_after_a_lost_trap_gives_everything_back(rt: HostRuntime) -> Result<(), Fail> {
    let sums = sample(rt.alloc(), &OVERFLOWS, 0)?;
    for (pc, mask) in [(0x1_0014, 1 << 5), (0x1_0018, 1 << 4), (0x1_0014, 0)] {
        let old = registers(&[]);
        let mut new = old;
        let mut kernel = entered(rt.alloc(), &mut new, pc, mask)?;
        let lost = Lost {
            trap_pc: pc,
            mask: RegSet::of_bits(mask),
        };
        let end = handle(&sums, &mut kernel, &mut new, Completion::Wrap);
        assert_eq!(rt; end, Err(lost));
        assert!(rt; !kernel.is_user());
        if end.is_err() {
            assert_eq!(rt; kernel.rti(&mut new), pc);
        }
        assert!(rt; are_same(&new, &old));
    }
    Ok(())
}
