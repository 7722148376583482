ghost use Rattle.std.specs.Prelude.{◌≡◌, ◌+◌, ◌≤◌, [], ◌++◌, length};
ghost use Rattle.alpha_text.specs.Canon.{spell, spelled, signed_words, distance_words, source_word, first_words};
ghost use Rattle.alpha_text.specs.Canon.{base_words, source_words, words_of, behind_name, canon};
ghost use Rattle.alpha_text.specs.Canon as words;

use alpha_io::Line;
use alpha_table::{Form, Insn, OperandRule, Src};
use alpha_words::Reg;
use std::marker::Model;

/// A line of source in the making, of at most 96 bytes. A clause sees its bytes. It takes no
/// memory.
#[derive(Drop)]
pub struct LineBuf {
    line: Line,
}

impl Model for LineBuf {
    ghost use Rattle.std.specs.Prelude.{◌≤◌, List, ℕ, length};

    ghost Value = { List ℕ };

    ghost view = { λ b. b.line };

    ghost invariant = { λ b. length b.line ≤ 96 };
}

impl LineBuf {
    /// The empty line.
    pub fn new() -> LineBuf
        ensures { result ≡ [] }
    {
        LineBuf { line: Line::new() }
    }

    /// The bytes so far.
    pub fn bytes(&self) -> &[u8]
        ensures value { result.now ≡ self.now }
        ensures bound { length self.now ≤ 96 }
    {
        self.line.as_bytes()
    }
}

// Appends a register.
fn push_reg(to: &mut Line, r: Reg)
    requires { length to.old + 21 ≤ 160 }
    ensures value { to.new ≡ to.old ++ spelled (words.reg r) }
    ensures size { length to.new ≤ length to.old + 21 }
{
    let n = r.number();
    if n < 10 {
        to.push(&[b'$', b'0' + n]);
    } else {
        to.push(&[b'$', b'0' + n / 10, b'0' + n % 10]);
    }
}

// Appends the words of a displacement in bytes.
fn push_signed(to: &mut Line, n: i16)
    requires { length to.old + 21 ≤ 160 }
    ensures value { to.new ≡ to.old ++ spell (signed_words n) }
    ensures size { length to.new ≤ length to.old + 21 }
{
    if n < 0 {
        to.push(b"-");
    }
    to.push_decimal(u64::from(n.unsigned_abs()));
}

// Appends the words of a distance of a branch with this displacement in words.
fn push_distance(to: &mut Line, disp: i32)
    requires { length to.old + 22 ≤ 160 }
    ensures value { to.new ≡ to.old ++ spell (distance_words disp) }
    ensures size { length to.new ≤ length to.old + 22 }
{
    let distance = 4 + 4 * i64::from(disp);
    to.push(if distance < 0 { b".-" } else { b".+" });
    to.push_decimal(distance.unsigned_abs());
}

// Appends the words of a base register.
fn push_base(to: &mut Line, rb: Reg)
    requires { length to.old + 23 ≤ 160 }
    ensures value { to.new ≡ to.old ++ spell (base_words rb) }
    ensures size { length to.new ≤ length to.old + 23 }
{
    to.push(b"(");
    push_reg(to, rb);
    to.push(b")");
}

// Appends the words of a register and a comma.
fn push_first(to: &mut Line, ra: Reg)
    requires { length to.old + 22 ≤ 160 }
    ensures value { to.new ≡ to.old ++ spell (first_words ra) }
    ensures size { length to.new ≤ length to.old + 22 }
{
    push_reg(to, ra);
    to.push(b",");
}

// Appends the word of a second source.
fn push_source(to: &mut Line, src: &Src)
    requires { length to.old + 21 ≤ 160 }
    ensures value { to.new ≡ to.old ++ spelled (source_word src.now) }
    ensures size { length to.new ≤ length to.old + 21 }
{
    match *src {
        Src::Reg(r) => push_reg(to, r),
        Src::Lit(n) => to.push_decimal(u64::from(n)),
    }
}

// Appends what an operate instruction has before its destination.
fn push_sources(to: &mut Line, rule: OperandRule, ra: Reg, src: &Src)
    requires { length to.old + 44 ≤ 160 }
    ensures value { to.new ≡ to.old ++ spell (source_words rule ra src.now) }
    ensures size { length to.new ≤ length to.old + 44 }
{
    match rule {
        OperandRule::Any => {
            push_first(to, ra);
            push_source(to, src);
            to.push(b",");
        }
        OperandRule::Unary | OperandRule::UnaryRegister => {
            push_source(to, src);
            to.push(b",");
        }
        OperandRule::Version => {}
    }
}

// Appends a space and the words of an instruction, if there are any.
fn push_words(to: &mut Line, form: &Form)
    requires { length to.old + 67 ≤ 160 }
    ensures value { to.new ≡ to.old ++ behind_name (words_of form.now) }
    ensures size { length to.new ≤ length to.old + 67 }
{
    match *form {
        Form::Mem { ra, rb, disp, .. } => {
            to.push(b" ");
            push_first(to, ra);
            push_signed(to, disp);
            push_base(to, rb);
        }
        Form::Branch { ra, disp, .. } => {
            to.push(b" ");
            push_first(to, ra);
            push_distance(to, disp);
        }
        Form::Jump { ra, rb, hint, .. } => {
            to.push(b" ");
            push_first(to, ra);
            push_base(to, rb);
            to.push(b",");
            to.push_decimal(u64::from(hint));
        }
        Form::Operate { op, ra, src, rc } => {
            to.push(b" ");
            push_sources(to, op.row().operands, ra, &src);
            push_reg(to, rc);
        }
        Form::Fetch { rb, .. } => {
            to.push(b" ");
            to.push_decimal(0);
            push_base(to, rb);
        }
        Form::Misc(_) | Form::Pal(_) => {}
    }
}

/// Leaves the canonical line of an instruction, without a line end.
#[tactic(auto, unfolding(crate::specs::Canon::canon))]
pub fn write_line(i: &Insn, to: &mut LineBuf)
    ensures { to.new ≡ canon i.now }
{
    let form = i.form();
    to.line = Line::new();
    to.line.push(form.mnemonic().name());
    push_words(&mut to.line, &form);
}
