use super::{item, rewrite};
use alpha_text::{LineBuf, Statement};
use std::alloc::{AllocError, Global};
use std::test::Fail;

// The line with a comment behind it.
fn commented(alloc: Global, line: &[u8]) -> Result<Vec<u8>, AllocError> {
    let mut longer = line.to_vec(alloc)?;
    longer.extend_from_slice(b"# x")?;
    Ok(longer)
}

// Whether the instruction of a line, and of the same one with a comment, has this canonical line. It is empty where
// there is no instruction.
fn is_written(alloc: Global, line: &[u8], want: &[u8]) -> Result<bool, Fail> {
    let mut first = LineBuf::new();
    let mut second = LineBuf::new();
    rewrite(line, &mut first);
    rewrite(&commented(alloc, line)?, &mut second);
    Ok(first.bytes() == want && second.bytes() == want)
}

// Lines that are canonical.
static CANONICAL: [&[u8]; 21] = [
    b"bis $31,$31,$31",
    b"addq $1,255,$3",
    b"addq $1,0,$3",
    b"addq/v $1,$2,$3",
    b"addq $1,$2,$31",
    b"sextb $1,$2",
    b"sextb 255,$2",
    b"implver $3",
    b"ldq $1,-32768($30)",
    b"ldq $1,32767($30)",
    b"beq $1,.+0",
    b"beq $1,.-4",
    b"beq $1,.+4194304",
    b"beq $1,.-4194300",
    b"jsr $26,($27),16383",
    b"jsr_coroutine $26,($27),0",
    b"ret $31,($26),1",
    b"fetch 0($1)",
    b"fetch_m 0($31)",
    b"mb",
    b"callsys",
];

// Lines that are nearly canonical, each with the canonical line of its instruction.
static SPELLINGS: [(&[u8], &[u8]); 19] = [
    (b"addq $1,00,$3", b"addq $1,0,$3"),
    (b"addq $1,0xff,$3", b"addq $1,255,$3"),
    (b"addq  $1,$2,$3", b"addq $1,$2,$3"),
    (b"addq $1,$2,$3 ", b"addq $1,$2,$3"),
    (b"addq $1, $2,$3", b"addq $1,$2,$3"),
    (b"\taddq $1,$2,$3", b"addq $1,$2,$3"),
    (b"ldq $1,-0($30)", b"ldq $1,0($30)"),
    (b"ldq $1,-08($30)", b"ldq $1,-8($30)"),
    (b"beq $1,.-0", b"beq $1,.+0"),
    (b"beq $1,.+04", b"beq $1,.+4"),
    (b"fetch 00($1)", b"fetch 0($1)"),
    (b"mb ", b"mb"),
    (b"label_12: bis $1,$2,$3", b"bis $1,$2,$3"),
    (b"_: mb", b"mb"),
    (b"x:mb", b"mb"),
    (b"x:\t mb", b"mb"),
    (b"x.y:mb", b"mb"),
    (b"mov $1,$2", b"bis $31,$1,$2"),
    (b"ldq $1,8($sp)", b"ldq $1,8($30)"),
];

// Lines with no instruction.
static OTHERS: [&[u8]; 30] = [
    b"addq /v $1,$2,$3",
    b"addq/v/v $1,$2,$3",
    b"ADDQ $1,$2,$3",
    b"addq $1,$2,$32",
    b"addq $1,$2,$03",
    b"addq $1,$2,$310",
    b"addq $1,256,$3",
    b"addq $1,-1,$3",
    b"addq $1,$2",
    b"addq $1,$2,$3,",
    b"ctpop 1,$2",
    b"ldq $1,+8($30)",
    b"ldq $1,-32769($30)",
    b"ldq $1,32768($30)",
    b"beq $1,.+4194308",
    b"beq $1,.-4194304",
    b"beq $1,.+2",
    b"beq $1,.4",
    b"beq $1,",
    b"jsr $26,($27),16384",
    b"fetch 1($1)",
    b"mb $1",
    b"imbx",
    b"x :mb",
    b"1:mb",
    b"a/v: mb",
    b"x: y: mb",
    b"x:",
    b"ldq $1,99999999999($30)",
    b"bis $31,100000000,$31",
];

/// Lines that are read in one pass or nearly so, and the same ones with a comment, say the same.
#[test]
fn lines_near_canonical_ones(rt: HostRuntime) -> Result<(), Fail> {
    for line in &CANONICAL {
        assert!(rt; is_written(rt.alloc(), line, line)?, "{line:?}");
    }
    for (line, want) in &SPELLINGS {
        assert!(rt; is_written(rt.alloc(), line, want)?, "{line:?}");
    }
    for line in &OTHERS {
        assert!(rt; is_written(rt.alloc(), line, b"")?, "{line:?}");
    }
    Ok(())
}

// The label of a branch's target and its offset, if the line has one.
fn target(line: &[u8]) -> Option<(&[u8], i64)> {
    match item(line) {
        Ok(found) => match found.statement {
            Statement::Target { target, .. } => Some((target.label, target.offset)),
            _ => None,
        },
        Err(_) => None,
    }
}

// Branches, each with the label and the offset of its target, if it has one.
static BRANCHES: [(&[u8], Option<(&[u8], i64)>); 11] = [
    (b"br $31,label_13", Some((b"label_13", 0))),
    (b"a: beq $1,_x.y", Some((b"_x.y", 0))),
    (b"bsr $26,x+8", Some((b"x", 8))),
    (b"bsr $26,x-8", Some((b"x", -8))),
    (b"bsr x", Some((b"x", 0))),
    (b"beq $1, x", Some((b"x", 0))),
    (b"beq $1,1x", None),
    (b"beq $1,.x", None),
    (b"beq $1,x/v", None),
    (b"beq $1,x y", None),
    (b"beq x", None),
];

/// The same of branches to labels.
#[test]
fn branches_near_those_to_labels(rt: HostRuntime) -> Result<(), Fail> {
    for &(line, want) in &BRANCHES {
        let longer = commented(rt.alloc(), line)?;
        assert!(rt; target(line) == want, "{line:?}");
        assert!(rt; target(&longer) == want, "{line:?}");
    }
    Ok(())
}
