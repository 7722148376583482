//! A run over rows: what it leaves, and when it makes them.

use alpha_rows::RowMachine;
use alpha_samples::sample;
use alpha_seq::Machine;
use alpha_words::{Completion, Reg};
use std::test::Fail;

// `addq $1,1,$1; stq $1,-8($30); ldl $2,-8($30); mulq $2,$1,$3`, and a branch back to the first of them.
const LOOP: [u32; 5] = [
    0x4020_3401,
    0xb43e_fff8,
    0xa05e_fff8,
    0x4c41_0403,
    0xc3ff_fffb,
];

#[test]
fn rows_are_made_behind_sixty_four_steps_a_word(rt: HostRuntime) -> Result<(), Fail> {
    let alloc = rt.alloc();
    let image = sample(alloc, &LOOP, 0).ok().ok_or("image")?;
    let machine = Machine::new(alloc, image, Completion::Wrap)
        .ok()
        .ok_or("memory")?;
    let mut by_rows = RowMachine::new(alloc, machine);
    let by_words = by_rows.run_fast(1_000);
    let none = by_rows.run_fast(1_000 - by_words);
    let left = 1_000 - by_words - none;
    assert_eq!(rt; (by_words, none, by_rows.run_fast(left)), (320, 0, 680));
    let machine = by_rows.into_machine();
    let product = Reg::new(3).ok_or("register")?;
    assert_eq!(rt; (machine.pc, machine.regs.get(product)), (0x1_0000, 40_000));
    Ok(())
}
