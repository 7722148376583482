use alpha_words::{Level, Reg, RegFile, RegSet, Word};
use std::test::Fail;

#[test]
fn fields_of_words_of_each_format(rt: HostRuntime) {
    let add = Word(0x4022_0c03); // addq/v $1,$2,$3
    assert_eq!(rt;
        (add.opcode(), add.function(), add.zeros()),
        (0x10, 0x60, 0)
    );
    assert_eq!(rt;
        (add.ra().number(), add.rb().number(), add.rc().number()),
        (1, 2, 3)
    );
    let version = Word(0x47e0_3d80); // implver $0
    assert_eq!(rt; (version.is_literal(), version.literal()), (true, 1));
    assert_eq!(rt; Word(0xa43e_fff8).disp16(), -8); // ldq $1,-8($30)
    assert_eq!(rt; Word(0xc3ff_ffff).disp21(), -1); // br $31,.+0
    let back = Word(0x6bfa_8001); // ret $31,($26),1
    assert_eq!(rt; (back.kind(), back.hint()), (2, 1));
    assert_eq!(rt;
        (Word(0x63ff_4000).misc(), Word(0x0000_0083).pal()),
        (0x4000, 0x83)
    ); // mb, callsys
}

#[test]
fn registers_sets_and_files(rt: HostRuntime) -> Result<(), Fail> {
    let three = Reg::new(3).ok_or("R3")?;
    let set = RegSet::empty().with(three).with(Reg::ZERO);
    assert_eq!(rt;
        (set.bits(), set.has(three), set.has(Reg::ZERO)),
        (8, true, false)
    );
    assert_eq!(rt; set.without(three), RegSet::empty());
    assert_eq!(rt; RegSet::of_bits(0x8000_0009).difference(set).bits(), 1);
    assert!(rt; set.union(RegSet::of_bits(1)).covers(set) && set.meets(set));
    let mut file = RegFile::zeroed();
    file.set(three, 7);
    file.set(Reg::ZERO, 7);
    assert_eq!(rt; (file.get(three), file.get(Reg::ZERO)), (7, 0));
    Ok(())
}

#[test]
fn level_two_has_the_instructions_of_level_one(rt: HostRuntime) {
    assert_eq!(rt; (Level::of(2), Level::of(3)), (Some(Level::Two), None));
    assert!(rt; Level::Two.has(Level::One) && !Level::One.has(Level::Two));
}
