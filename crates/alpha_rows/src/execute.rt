//! One row.

ghost use Rattle.std.specs.Prelude.{◌≡◌, ◌<◌, false, IsTrue, length};
ghost use Rattle.alpha_mem.specs.Memory.{IsMemory};
ghost use Rattle.alpha_image.specs.Parts.{IsImage};
ghost use Rattle.alpha_rows.specs.Rows.{IsRowAt, ExecutesRow};

use crate::effects::{
    branch, branch_always, branch_with_link, idle, jump, load, load_address, operate, store,
};
use crate::row::{Row, RowOp};
use crate::row_values::{rare_row_value, row_value};
use alpha_image::Image;
use alpha_mem::Region;
use alpha_table::{Cond, Extension, MemOp};
use alpha_words::{Level, RegFile};

/// Does what a row says, if the word there only goes on, and answers whether it did. One table has all arms but those
/// of the less common operate instructions, so that a row costs one jump by it.
#[inline(always)]
pub(crate) fn execute(
    image: &Image,
    level: Level,
    row: &Row,
    regions: &mut [Region],
    region_hint: &mut usize,
    regs: &mut RegFile,
    place: &mut u64,
) -> bool
    requires good { IsImage image.now }
    requires level { image.now.level ≡ level }
    requires row { IsRowAt image.now place.old row.now }
    requires memory { IsMemory regions.old }
    requires region_hint { region_hint.old < length regions.old }
    ensures went { IsTrue result → ExecutesRow image.now
        regs.old regions.old place.old regs.new regions.new place.new }
    ensures memory { IsMemory regions.new }
    ensures region_hint { region_hint.new < length regions.new }
    ensures regs { result ≡ false → regs.new ≡ regs.old }
    ensures regions { result ≡ false → regions.new ≡ regions.old }
    ensures place { result ≡ false → place.new ≡ place.old }
{
    // A common operate instruction. `row_value` is told which, so that no table is left of it.
    macro_rules! operated {
        ($op:ident) => {
            operate(row_value(level, RowOp::$op, row, regs), image, level, row, regs, place)
        };
    }
    let op = row.op;
    match op {
        RowOp::Leave => false,
        RowOp::Idle => idle(image, row, regs, place),
        RowOp::Lda => load_address(MemOp::Lda, image, row, regs, place),
        RowOp::Ldah => load_address(MemOp::Ldah, image, row, regs, place),
        RowOp::Ldbu => load(
            MemOp::Ldbu,
            Extension::Zero,
            image,
            row,
            regions,
            region_hint,
            regs,
            place,
        ),
        RowOp::Ldwu => load(
            MemOp::Ldwu,
            Extension::Zero,
            image,
            row,
            regions,
            region_hint,
            regs,
            place,
        ),
        RowOp::Ldl => load(
            MemOp::Ldl,
            Extension::Sign,
            image,
            row,
            regions,
            region_hint,
            regs,
            place,
        ),
        RowOp::Ldq => load(
            MemOp::Ldq,
            Extension::Zero,
            image,
            row,
            regions,
            region_hint,
            regs,
            place,
        ),
        RowOp::LdqU => load(
            MemOp::LdqU,
            Extension::Zero,
            image,
            row,
            regions,
            region_hint,
            regs,
            place,
        ),
        RowOp::Stb => store(MemOp::Stb, image, row, regions, region_hint, regs, place),
        RowOp::Stw => store(MemOp::Stw, image, row, regions, region_hint, regs, place),
        RowOp::Stl => store(MemOp::Stl, image, row, regions, region_hint, regs, place),
        RowOp::Stq => store(MemOp::Stq, image, row, regions, region_hint, regs, place),
        RowOp::StqU => store(MemOp::StqU, image, row, regions, region_hint, regs, place),
        RowOp::Blbc => branch(Cond::Lbc, image, row, regs, place),
        RowOp::Beq => branch(Cond::Eq, image, row, regs, place),
        RowOp::Blt => branch(Cond::Lt, image, row, regs, place),
        RowOp::Ble => branch(Cond::Le, image, row, regs, place),
        RowOp::Blbs => branch(Cond::Lbs, image, row, regs, place),
        RowOp::Bne => branch(Cond::Ne, image, row, regs, place),
        RowOp::Bge => branch(Cond::Ge, image, row, regs, place),
        RowOp::Bgt => branch(Cond::Gt, image, row, regs, place),
        RowOp::AddlReg => operated!(AddlReg),
        RowOp::AddlLit => operated!(AddlLit),
        RowOp::SublReg => operated!(SublReg),
        RowOp::SublLit => operated!(SublLit),
        RowOp::MullReg => operated!(MullReg),
        RowOp::MullLit => operated!(MullLit),
        RowOp::AddqReg => operated!(AddqReg),
        RowOp::AddqLit => operated!(AddqLit),
        RowOp::SubqReg => operated!(SubqReg),
        RowOp::SubqLit => operated!(SubqLit),
        RowOp::MulqReg => operated!(MulqReg),
        RowOp::MulqLit => operated!(MulqLit),
        RowOp::AddlVReg => operated!(AddlVReg),
        RowOp::AddlVLit => operated!(AddlVLit),
        RowOp::SublVReg => operated!(SublVReg),
        RowOp::SublVLit => operated!(SublVLit),
        RowOp::AddqVReg => operated!(AddqVReg),
        RowOp::AddqVLit => operated!(AddqVLit),
        RowOp::SubqVReg => operated!(SubqVReg),
        RowOp::SubqVLit => operated!(SubqVLit),
        RowOp::S4addqReg => operated!(S4addqReg),
        RowOp::S4addqLit => operated!(S4addqLit),
        RowOp::S8addqReg => operated!(S8addqReg),
        RowOp::S8addqLit => operated!(S8addqLit),
        RowOp::CmpeqReg => operated!(CmpeqReg),
        RowOp::CmpeqLit => operated!(CmpeqLit),
        RowOp::CmpltReg => operated!(CmpltReg),
        RowOp::CmpltLit => operated!(CmpltLit),
        RowOp::CmpleReg => operated!(CmpleReg),
        RowOp::CmpleLit => operated!(CmpleLit),
        RowOp::CmpultReg => operated!(CmpultReg),
        RowOp::CmpultLit => operated!(CmpultLit),
        RowOp::CmpuleReg => operated!(CmpuleReg),
        RowOp::CmpuleLit => operated!(CmpuleLit),
        RowOp::AndReg => operated!(AndReg),
        RowOp::AndLit => operated!(AndLit),
        RowOp::BisReg => operated!(BisReg),
        RowOp::BisLit => operated!(BisLit),
        RowOp::XorReg => operated!(XorReg),
        RowOp::XorLit => operated!(XorLit),
        RowOp::BicReg => operated!(BicReg),
        RowOp::BicLit => operated!(BicLit),
        RowOp::OrnotReg => operated!(OrnotReg),
        RowOp::OrnotLit => operated!(OrnotLit),
        RowOp::SllReg => operated!(SllReg),
        RowOp::SllLit => operated!(SllLit),
        RowOp::SrlReg => operated!(SrlReg),
        RowOp::SrlLit => operated!(SrlLit),
        RowOp::SraReg => operated!(SraReg),
        RowOp::SraLit => operated!(SraLit),
        RowOp::S4addlReg => operated!(S4addlReg),
        RowOp::S4addlLit => operated!(S4addlLit),
        RowOp::SextbReg => operated!(SextbReg),
        RowOp::SextbLit => operated!(SextbLit),
        RowOp::SextwReg => operated!(SextwReg),
        RowOp::SextwLit => operated!(SextwLit),
        RowOp::CmoveqReg => operated!(CmoveqReg),
        RowOp::CmoveqLit => operated!(CmoveqLit),
        RowOp::CmovneReg => operated!(CmovneReg),
        RowOp::CmovneLit => operated!(CmovneLit),
        RowOp::Branch => branch_always(image, row, regs, place),
        RowOp::BranchLink => branch_with_link(image, row, regs, place),
        RowOp::Jump => jump(image, row, regs, place),
        _ => operate(
            rare_row_value(level, op, row, regs),
            image,
            level,
            row,
            regs,
            place,
        ),
    }
}
