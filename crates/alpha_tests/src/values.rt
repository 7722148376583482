use alpha_table::{Cond, MemAccess, Op, TrapOp};
use alpha_values::*;
use alpha_words::{Completion, Level, Reg};

// Chosen results: sums, products and byte forms at their edges.
#[test]
fn results_at_the_edges(rt: HostRuntime) {
    let most = u64::MAX;
    for (op, a, b, want) in [
        (Op::Umulh, most, most, 0xffff_ffff_ffff_fffe),
        (Op::Extqh, 0x1234, 8, 0x1234),
        (Op::Insqh, 0x1234, 8, 0),
        (Op::Mskqh, 0x1234, 8, 0x1234),
        (Op::Inswl, 0x1234, 7, 0x3400_0000_0000_0000),
        (Op::Inswh, 0x1234, 7, 0x12),
        (Op::Mskwh, most, 7, 0xffff_ffff_ffff_ff00),
        (Op::Cmpbge, 0, 0x100, 253),
        (Op::Sra, 1 << 63, 63, most),
        (
            Op::AddlV,
            0xabcd_7fff_ffff,
            1 << 40 | 1,
            0xffff_ffff_8000_0000,
        ),
    ] {
        assert_eq!(rt; operate(op, a, b, 0), want, "at {op:?} {a:x} {b:x}");
    }
    assert!(rt; overflows(TrapOp::AddlV, 0xabcd_7fff_ffff, 1 << 40 | 1));
    assert!(rt; overflows(TrapOp::MulqV, 1 << 63, most));
}

#[test]
fn saturation_gives_the_nearest_bound(rt: HostRuntime) {
    for (op, a, b, want) in [
        (TrapOp::AddlV, 0x7fff_ffff, 1, 0x7fff_ffff),
        (TrapOp::AddlV, 0xabcd_7fff_ffff, 1 << 40 | 1, 0x7fff_ffff),
        (TrapOp::MulqV, 1 << 63, u64::MAX, 0x7fff_ffff_ffff_ffff),
        (TrapOp::SublV, 0x8000_0000, 1, 0xffff_ffff_8000_0000),
        (TrapOp::MullV, 0x1_0000, 0xffff_0000, 0xffff_ffff_8000_0000),
        (
            TrapOp::AddqV,
            0x7fff_ffff_ffff_ffff,
            1,
            0x7fff_ffff_ffff_ffff,
        ),
        (
            TrapOp::SubqV,
            0x8000_0000_0000_0000,
            1,
            0x8000_0000_0000_0000,
        ),
        (TrapOp::MulqV, 1 << 40, 1 << 40, 0x7fff_ffff_ffff_ffff),
        (TrapOp::AddlV, 2, 3, 5),
    ] {
        assert_eq!(rt;
            completed(op, a, b, Completion::Saturate),
            want,
            "at {op:?} {a:x} {b:x}"
        );
    }
}

#[test]
fn counts_at_their_ends(rt: HostRuntime) {
    for (b, ones, above, below) in [
        (0, 0, 64, 64),
        (1, 1, 63, 0),
        (1 << 63, 1, 0, 63),
        (240, 4, 56, 4),
        (u64::MAX, 64, 0, 0),
    ] {
        assert_eq!(rt;
            operate_at(Level::Two, Op::Ctpop, 0, b, 0),
            ones,
            "at {b:x}"
        );
        assert_eq!(rt;
            operate_at(Level::Two, Op::Ctlz, 0, b, 0),
            above,
            "at {b:x}"
        );
        assert_eq!(rt;
            operate_at(Level::Two, Op::Cttz, 0, b, 0),
            below,
            "at {b:x}"
        );
    }
}

#[test]
fn each_level_says_what_it_has(rt: HostRuntime) {
    assert_eq!(rt; operate_at(Level::One, Op::Amask, 0, 255, 0), 254);
    assert_eq!(rt; operate_at(Level::Two, Op::Amask, 0, 255, 0), 250);
    assert_eq!(rt; operate_at(Level::One, Op::Implver, 0, 1, 0), 1);
    assert_eq!(rt; operate_at(Level::Two, Op::Implver, 0, 1, 0), 2);
}

#[test]
fn stop_completes_as_wrap(rt: HostRuntime) {
    let most = 0x7fff_ffff_ffff_ffff;
    assert_eq!(rt;
        completed(TrapOp::AddqV, most, 1, Completion::Stop),
        1 << 63
    );
    assert_eq!(rt; completed(TrapOp::AddqV, 2, 3, Completion::Stop), 5);
}

#[test]
fn an_unaligned_access_begins_at_its_quadword(rt: HostRuntime) {
    let mut access = MemAccess {
        base: Reg::ZERO,
        disp: -1,
        bytes: 8,
        clears: true,
    };
    assert_eq!(rt; access_address(&access, 0x1_0010), 0x1_0008);
    assert_eq!(rt; access_address(&access, 0), 0xffff_ffff_ffff_fff8);
    access.clears = false;
    assert_eq!(rt; access_address(&access, 0x1_0010), 0x1_000f);
}

#[test]
fn conditions_and_addresses(rt: HostRuntime) {
    assert!(rt; taken(Cond::Lbc, 2));
    assert!(rt; taken(Cond::Lt, 1 << 63));
    assert!(rt; !taken(Cond::Gt, 0));
    assert_eq!(rt; address(0, -1), 0xffff_ffff_ffff_ffff);
    assert_eq!(rt; address(0xffff_ffff_ffff_fff8, 16), 8);
    assert_eq!(rt; high_address(0x1_0000, -1), 0);
    assert_eq!(rt; high_address(8, 0x7fff), 0x7fff_0008);
}
