use alpha_table::{
    BranchOp, ByteSpan, Cond, Extension, Form, Insn, InsnKind, JumpKind, MemOp, MemRole, Mnemonic,
    Op, OperandRule, Src, TrapOp, access, decode, encode, kind, level_of, sets, span, trap_op,
    uses,
};
use alpha_words::{Level, PalCall, Reg, Word};
use std::test::Fail;

/// Words that the Handbook and assemblers give, each of the instruction beside it.
#[test]
fn known_words_decode_and_encode(rt: HostRuntime) {
    for word in [
        0x63ff_0000, // trapb
        0x47ff_041f, // bis $31,$31,$31
        0x2ffe_0000, // ldq_u $31,0($30)
        0x6bfa_8001, // ret $31,($26),1
        0x47e0_3d80, // implver $0
        0x4022_0c03, // addq/v $1,$2,$3
        0x201f_0001, // lda $0,1($31)
        0x0000_0083, // callsys
        0x73e1_0602, // ctpop $1,$2
    ] {
        let again = decode(Word(word)).map(|insn| encode(&insn));
        assert_eq!(rt; again, Some(Word(word)), "{word:08x}");
    }
}

#[test]
fn words_outside_the_table(rt: HostRuntime) {
    for word in [
        0x4022_2c03, // addq/v with bit 13 set beside a register
        0x7020_0002, // sextb with Ra = 0
        0x47e0_5d80, // implver with the literal 2
        0x6000_0000, // trapb with zero register fields
        0x0000_0000, // PALcode function 0
        0x0000_009d, // one below rdunique
        0x6bfa_8000 | 1 << 26, // opcode 1b
        0x7021_0602, // ctpop with Ra = 1
        0x73e1_0622, // function 31, beside ctpop
    ] {
        assert!(rt; decode(Word(word)).is_none(), "{word:08x}");
    }
}

/// No count instruction takes a literal.
#[test]
fn words_of_level_two_with_a_literal_are_outside(rt: HostRuntime) {
    for function in [0x30, 0x32, 0x33] {
        for literal in 0..=255 {
            let word = 0x73e0_1002 | literal << 13 | function << 5;
            assert!(rt; decode(Word(word)).is_none(), "{word:08x}");
        }
    }
}

#[test]
fn names_and_what_they_stand_for(rt: HostRuntime) {
    for (name, mnemonic) in [
        (b"addq/v".as_slice(), Mnemonic::Operate(Op::AddqV)),
        (b"ctpop".as_slice(), Mnemonic::Operate(Op::Ctpop)),
        (b"zapnot".as_slice(), Mnemonic::Operate(Op::Zapnot)),
        (b"ldq_l".as_slice(), Mnemonic::Mem(MemOp::LdqL)),
        (b"bsr".as_slice(), Mnemonic::Branch(BranchOp::Bsr)),
        (
            b"jsr_coroutine".as_slice(),
            Mnemonic::Jump(JumpKind::JsrCoroutine),
        ),
        (b"fetch_m".as_slice(), Mnemonic::Fetch { modify: true }),
        (b"callsys".as_slice(), Mnemonic::Pal(PalCall::Callsys)),
    ] {
        assert_eq!(rt; Mnemonic::of(name), Some(mnemonic));
        assert!(rt; mnemonic.name() == name);
    }
    for name in [
        b"".as_slice(),
        b"addq/".as_slice(),
        b"ADDQ".as_slice(),
        b"aaa".as_slice(),
        b"nop".as_slice(),
        b"zzz".as_slice(),
    ] {
        assert!(rt; Mnemonic::of(name).is_none());
    }
}

#[test]
fn columns_that_depend_on_the_row_alone(rt: HostRuntime) -> Result<(), Fail> {
    assert_eq!(rt; MemOp::Ldwu.row().role, MemRole::Load(Extension::Zero));
    assert_eq!(rt;
        MemOp::LdlL.row().role,
        MemRole::LoadLocked(Extension::Sign)
    );
    assert_eq!(rt; BranchOp::Blbc.row().condition, Some(Cond::Lbc));
    assert_eq!(rt; BranchOp::Br.row().condition, None);
    assert_eq!(rt; Op::Implver.row().operands, OperandRule::Version);
    let count = decode(Word(0x73e1_0602)).ok_or("ctpop $1,$2")?;
    assert_eq!(rt; level_of(&count), Level::Two);
    assert_eq!(rt; count.form().mnemonic(), Mnemonic::Operate(Op::Ctpop));
    let sum = decode(Word(0x4022_0c03)).ok_or("addq/v $1,$2,$3")?;
    assert_eq!(rt; level_of(&sum), Level::One);
    Ok(())
}

#[test]
fn columns_of_a_move_a_store_and_a_trigger(rt: HostRuntime) -> Result<(), Fail> {
    let cmov = decode(Word(0x4485_04c6)).ok_or("cmovne $4,$5,$6")?;
    assert_eq!(rt; uses(&cmov).bits(), 1 << 4 | 1 << 5 | 1 << 6);
    assert_eq!(rt; sets(&cmov).map(|r| r.number()), Some(6));
    let store = decode(Word(0x3cc5_0008)).ok_or("stq_u $6,8($5)")?;
    assert_eq!(rt; kind(&store), InsnKind::Store);
    assert_eq!(rt; span(&store), Some(ByteSpan { low: 1, high: 16 }));
    assert_eq!(rt; access(&store).map(|found| found.base.number()), Some(5));
    let trigger = decode(Word(0x4022_0c03)).ok_or("addq/v $1,$2,$3")?;
    assert_eq!(rt; trap_op(&trigger), Some(TrapOp::AddqV));
    assert_eq!(rt; kind(&trigger), InsnKind::Trigger);
    Ok(())
}

#[test]
fn fields_outside_their_row(rt: HostRuntime) {
    let zero = Reg::ZERO;
    let jump = |hint| {
        Insn::of(Form::Jump {
            kind: JumpKind::Ret,
            ra: zero,
            rb: zero,
            hint,
        })
    };
    assert!(rt; jump(16_383).is_some());
    assert!(rt; jump(16_384).is_none());
    let implver = |n| {
        Insn::of(Form::Operate {
            op: Op::Implver,
            ra: zero,
            src: Src::Lit(n),
            rc: zero,
        })
    };
    assert!(rt; implver(1).is_some());
    assert!(rt; implver(0).is_none());
    let load = Insn::of(Form::Mem {
        op: MemOp::Ldq,
        ra: zero,
        rb: zero,
        disp: -32_768,
    });
    assert_eq!(rt; load.map(|insn| kind(&insn)), Some(InsnKind::Plain));
}
