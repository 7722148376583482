use alpha_table::{Form, Insn, Mnemonic, Op, OperandRule, Src, decode, encode, level_of, trap_op};
use alpha_values::{operate_at, overflows};
use alpha_words::{Reg, RegFile};

/// A measured result: the operands, what the destination had, the result, and for a `/V` row whether
/// it overflows.
#[derive(Drop)]
struct Measured {
    a: u64,
    b: u64,
    old: u64,
    result: u64,
    overflow: Option<bool>,
}

fn hexadecimal(field: Option<&str>) -> Option<u64> {
    u64::from_str_radix(field?, 16).ok()
}

fn row_of(fields: [Option<&str>; 5]) -> Option<Measured> {
    let [a, b, old, result, overflow] = fields;
    Some(Measured {
        a: hexadecimal(a)?,
        b: hexadecimal(b)?,
        old: hexadecimal(old)?,
        result: hexadecimal(result)?,
        overflow: match overflow? {
            "yes" => Some(true),
            "no" => Some(false),
            _ => None,
        },
    })
}

// The instruction on R1 and R2 with the destination R3, as far as its row allows them.
fn instruction(op: Op) -> Option<Insn> {
    let first = Reg::new(1)?;
    let second = Src::Reg(Reg::new(2)?);
    let (ra, src) = match op.row().operands {
        OperandRule::Any => (first, second),
        OperandRule::Unary | OperandRule::UnaryRegister => (Reg::ZERO, second),
        OperandRule::Version => (Reg::ZERO, Src::Lit(1)),
    };
    let rc = Reg::new(3)?;
    Insn::of(Form::Operate { op, ra, src, rc })
}

// Whether the word of the named instruction computes what was measured, at the least level that has
// it. Nothing where there is no such instruction.
fn agrees(name: &str, row: &Measured) -> Option<bool> {
    let Mnemonic::Operate(op) = Mnemonic::of(name.as_bytes())? else {
        return None;
    };
    let insn = decode(encode(&instruction(op)?))?;
    let Form::Operate { op, ra, src, rc } = insn.form() else {
        return None;
    };
    let mut regs = RegFile::zeroed();
    regs.set(Reg::new(1)?, row.a);
    regs.set(Reg::new(2)?, row.b);
    regs.set(Reg::new(3)?, row.old);
    let a = regs.get(ra);
    let b = match src {
        Src::Reg(rb) => regs.get(rb),
        Src::Lit(n) => u64::from(n),
    };
    let result = operate_at(level_of(&insn), op, a, b, regs.get(rc));
    let overflow = trap_op(&insn).map(|op| overflows(op, a, b));
    Some(result == row.result && overflow == row.overflow)
}

/// Each line has a name, Ra, Rb, what the destination had and the result in hexadecimal, and `yes`
/// or `no` for a `/V` row.
pub fn run(rt: &impl Print, text: &str) -> anyhow::Result<()> {
    let mut same = 0u64;
    for line in text.lines().filter(|line| !line.starts_with('#')) {
        let mut fields = line.split('\t');
        let name = fields.next().unwrap_or("");
        let row = row_of([
            fields.next(),
            fields.next(),
            fields.next(),
            fields.next(),
            fields.next(),
        ]);
        match row.and_then(|row| agrees(name, &row)) {
            Some(true) => same = same.saturating_add(1),
            Some(false) => println!(rt; "another result: {line}")?,
            None => println!(rt; "no instruction: {line}")?,
        }
    }
    println!(rt; "values: {same} results as measured")?;
    Ok(())
}
