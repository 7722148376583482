mod bytes;
mod near_misses;

use alpha_quick::{read_insn, read_line};
use alpha_text::{Item, LineBuf, LineFault, LineFaultKind, Statement, write_line};

// The item of a line that is no longer than a line may be, by the quick reader.
fn item(line: &[u8]) -> Result<Item<'_>, LineFault> {
    let line = line.get(..1024).unwrap_or(line);
    read_line(line)
}

// Whether a line has this fault, or none.
fn has_fault(line: &[u8], want: Option<(LineFaultKind, u32)>) -> bool {
    match item(line) {
        Ok(_) => want.is_none(),
        Err(found) => want == Some((found.kind, found.column)),
    }
}

// Writes the canonical line of the instruction of a line, if it has one.
fn rewrite(line: &[u8], to: &mut LineBuf) {
    match item(line) {
        Ok(found) => match &found.statement {
            Statement::Code(insn) => write_line(insn, to),
            _ => {}
        },
        Err(_) => {}
    }
}

// Further spellings, each with the canonical line of its instruction.
static SPELLINGS: [(&[u8], &[u8]); 35] = [
    (b"nop", b"bis $31,$31,$31"),
    (b"unop", b"ldq_u $31,0($30)"),
    (b"mov $1,$2", b"bis $31,$1,$2"),
    (b"mov 255,$2", b"bis $31,255,$2"),
    (b"mov 256,$2", b"lda $2,256($31)"),
    (b"mov -1,$2", b"lda $2,-1($31)"),
    (b"mov -0,$1", b"bis $31,0,$1"),
    (b"clr $3", b"bis $31,$31,$3"),
    (b"not $1,$2", b"ornot $31,$1,$2"),
    (b"negl $1,$2", b"subl $31,$1,$2"),
    (b"negq $1,$2", b"subq $31,$1,$2"),
    (b"negl/v $1,$2", b"subl/v $31,$1,$2"),
    (b"negq/v $1,$2", b"subq/v $31,$1,$2"),
    (b"sextl $1,$2", b"addl $31,$1,$2"),
    (b"ret", b"ret $31,($26),1"),
    (b"ret $31,($26)", b"ret $31,($26),0"),
    (b"br .+8", b"br $31,.+8"),
    (b"bsr .-4", b"bsr $26,.-4"),
    (b"beq $t8,.-0", b"beq $22,.+0"),
    (b"beq $1,.+0x8", b"beq $1,.+8"),
    (b"beq $1,.+08", b"beq $1,.+8"),
    (b"beq $1,.+4194304", b"beq $1,.+4194304"),
    (b"beq $1,.-4194300", b"beq $1,.-4194300"),
    (b"lda $1,5", b"lda $1,5($31)"),
    (b"ldq $1,($30)", b"ldq $1,0($30)"),
    (b"ldq $v0,-8($sp)", b"ldq $0,-8($30)"),
    (b"jmp $31,($27)", b"jmp $31,($27),0"),
    (b"fetch ($1)", b"fetch 0($1)"),
    (b"call_pal 0x83", b"callsys"),
    (b"x: \ttrapb # label", b"trapb"),
    (b"addq/v $1 , 0xff , $3", b"addq/v $1,255,$3"),
    (b"sextb 255,$2", b"sextb 255,$2"),
    (b"implver $0", b"implver $0"),
    (b"ctpop $1,$2", b"ctpop $1,$2"),
    (b"lda $1,-32768($2)", b"lda $1,-32768($2)"),
];

/// Instructions are read in each of their spellings.
#[test]
fn spellings_of_instructions(rt: HostRuntime) {
    for (line, want) in &SPELLINGS {
        let mut to = LineBuf::new();
        rewrite(line, &mut to);
        assert!(rt; to.bytes() == *want, "{line:?}");
    }
}

// A line of each shape that programs write often, with an instruction and no label.
static PLAIN: [&[u8]; 24] = [
    b"ldq $1,8($30)",
    b"\tldq_u $1,-8($30)\t# first",
    b"stl $31,($16)",
    b"lda $sp,-64($sp)",
    b"beq $1,.+8",
    b"br $31,.-4",
    b"addq $1,$2,$3",
    b"addq/v $1,255,$3",
    b"mulq/v\t$1,$2,$3",
    b"sextb $1,$2",
    b"sextw 255,$2",
    b"ctpop $1,$2",
    b"implver $0",
    b"jmp $31,($27),0",
    b"jsr $26,($27)",
    b"ret $31,($26),1",
    b"ret",
    b"mov $1,$2",
    b"mov -1,$2",
    b"clr $3",
    b"negq/v $1,$2",
    b"  nop  ",
    b"trapb",
    b"callsys",
];

/// Such lines are read in one pass, and not left to the reader by tokens.
#[test]
fn plain_lines_are_read_in_one_pass(rt: HostRuntime) {
    for line in &PLAIN {
        assert!(rt; read_insn(line).is_ok(), "{line:?}");
    }
}

// What a directive that names no label says: its kind, its number and its bytes.
fn directive(line: &[u8]) -> Option<(&'static str, u64, &[u8])> {
    let none = b"".as_slice();
    match item(line) {
        Ok(found) => match found.statement {
            Statement::Level(level) => Some(("level", u64::from(level), none)),
            Statement::Segment(base) => Some(("segment", base, none)),
            Statement::CodeBase(base) => Some(("code base", base, none)),
            Statement::DataBase(base) => Some(("data base", base, none)),
            Statement::Stack(size) => Some(("stack", size, none)),
            Statement::EntryAt(at) => Some(("entry", at, none)),
            Statement::CodeSection => Some(("code", 0, none)),
            Statement::DataSection => Some(("data", 0, none)),
            Statement::Zero(count) => Some(("zero", u64::from(count), none)),
            Statement::Align(power) => Some(("align", u64::from(power), none)),
            Statement::Values { bytes, list } => Some(("values", u64::from(bytes), list)),
            Statement::Text(text) => Some(("text", 0, text)),
            _ => None,
        },
        Err(_) => None,
    }
}

// Directives at their bounds, each with what it says.
static DIRECTIVES: [(&[u8], (&str, u64, &[u8])); 14] = [
    (b".level 2", ("level", 2, b"")),
    (b".segment 0x10000000", ("segment", 0x1000_0000, b"")),
    (
        b".codebase 18446744073709551615",
        ("code base", u64::MAX, b""),
    ),
    (b".database 0", ("data base", 0, b"")),
    (b".stack 65536", ("stack", 65_536, b"")),
    (b".entry 4096", ("entry", 4096, b"")),
    (b".code", ("code", 0, b"")),
    (b".data", ("data", 0, b"")),
    (b".zero 16777216", ("zero", 16_777_216, b"")),
    (b".align 13", ("align", 13, b"")),
    (b".byte -128 , 0,255  # end", ("values", 1, b"-128 , 0,255")),
    (b".quad a+8,-1", ("values", 8, b"a+8,-1")),
    (b".ascii \"a\\n#\"", ("text", 0, b"a\\n#")),
    (b".ascii \"\"", ("text", 0, b"")),
];

/// Each directive at its bounds.
#[test]
fn statements_of_directives(rt: HostRuntime) {
    for &(line, want) in &DIRECTIVES {
        assert!(rt; directive(line) == Some(want), "{line:?}");
    }
}

/// A line may say nothing, and a label may stand alone.
#[test]
fn lines_without_a_statement(rt: HostRuntime) {
    for (line, want) in [
        (b"".as_slice(), None),
        (b" start: ".as_slice(), Some(b"start".as_slice())),
    ] {
        match item(line) {
            Ok(
                Item {
                    label,
                    statement: Statement::Empty,
                },
            ) => assert!(rt; label == want, "{line:?}"),
            _ => assert!(rt; false, "{line:?}"),
        }
    }
}
