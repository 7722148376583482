ghost use Rattle.std.specs.Prelude.{◌≡◌, map, IfSome};
ghost use Rattle.alpha_operands.specs.Names.{register_of, operator_of, registers, named, HasRow};

use alpha_words::Reg;

/// Which half of an address a displacement has.
#[derive(Clone, Copy, Debug, PartialEq, Eq)]
pub enum Half {
    /// `%hi`, the upper 16 bits, one more where the lower ones are negative.
    High,
    /// `%lo`, the lower 16 bits as a signed number.
    Low,
}

// A name and the number of its register.
struct Row {
    name: &'static [u8],
    number: u8,
}

macro_rules! rows {
    ($($name:literal $number:literal,)*) => {
        [$(Row { name: $name, number: $number },)*]
    };
}

static REGISTERS: [Row; 64] = rows! {
    b"$0" 0, b"$1" 1, b"$2" 2, b"$3" 3, b"$4" 4, b"$5" 5, b"$6" 6, b"$7" 7,
    b"$8" 8, b"$9" 9, b"$10" 10, b"$11" 11, b"$12" 12, b"$13" 13, b"$14" 14, b"$15" 15,
    b"$16" 16, b"$17" 17, b"$18" 18, b"$19" 19, b"$20" 20, b"$21" 21, b"$22" 22, b"$23" 23,
    b"$24" 24, b"$25" 25, b"$26" 26, b"$27" 27, b"$28" 28, b"$29" 29, b"$30" 30, b"$31" 31,
    b"$v0" 0,
    b"$t0" 1, b"$t1" 2, b"$t2" 3, b"$t3" 4, b"$t4" 5, b"$t5" 6, b"$t6" 7, b"$t7" 8,
    b"$s0" 9, b"$s1" 10, b"$s2" 11, b"$s3" 12, b"$s4" 13, b"$s5" 14, b"$fp" 15,
    b"$a0" 16, b"$a1" 17, b"$a2" 18, b"$a3" 19, b"$a4" 20, b"$a5" 21,
    b"$t8" 22, b"$t9" 23, b"$t10" 24, b"$t11" 25,
    b"$ra" 26, b"$pv" 27, b"$at" 28, b"$gp" 29, b"$sp" 30, b"$zero" 31,
};

// The number beside a name.
fn find_number(rows: &[Row], name: &[u8]) -> Option<u8>
    ensures { result ≡ named (map (λ r. (r.name.now, r.number)) rows.now) name.now }
{
    for row in rows {
        if row.name == name {
            return Some(row.number);
        }
    }
    None
}

// The number of the row at a place, where that is the row of a name.
fn number_at(rows: &[Row], place: usize, name: &[u8]) -> Option<u8>
    ensures { IfSome result (λ n. HasRow (map (λ r. (r.name.now, r.number)) rows.now) name.now n) }
{
    match rows.get(place) {
        Some(row) if row.name == name => Some(row.number),
        _ => None,
    }
}

// Where the row of a name stands that is that of a register.
fn place_of(name: &[u8]) -> usize {
    match name {
        [_, n @ b'0'..=b'9'] => usize::from(*n - b'0'),
        [_, m @ b'1'..=b'3', n @ b'0'..=b'9'] => usize::from(10 * (*m - b'0') + (*n - b'0')),
        [_, b'v', _] => 32,
        [_, b't', n @ b'0'..=b'7'] => 33 + usize::from(*n - b'0'),
        [_, b's', n @ b'0'..=b'5'] => 41 + usize::from(*n - b'0'),
        [_, b'f', _] => 47,
        [_, b'a', n @ b'0'..=b'5'] => 48 + usize::from(*n - b'0'),
        [_, b't', n @ b'8'..=b'9'] => 54 + usize::from(*n - b'8'),
        [_, b't', _, n @ b'0'..=b'1'] => 56 + usize::from(*n - b'0'),
        [_, b'r', _] => 58,
        [_, b'p', _] => 59,
        [_, b'a', _] => 60,
        [_, b'g', _] => 61,
        [_, b's', _] => 62,
        _ => 63,
    }
}

// The number of the register of a name. Its row is where it should be, or nowhere.
fn register_number(name: &[u8]) -> Option<u8>
    ensures { result ≡ named registers name.now }
{
    match number_at(&REGISTERS, place_of(name), name) {
        Some(number) => Some(number),
        None => find_number(&REGISTERS, name),
    }
}

/// The register of a name, with its `$`. `None` exactly where there is none of that name.
#[tactic(auto, unfolding(crate::specs::Names::register_of))]
pub fn register(name: &[u8]) -> Option<Reg>
    ensures { result ≡ register_of name.now }
{
    Reg::new(register_number(name)?)
}

/// The half of an address that an operator names, with its `%`. `None` exactly where there is none of that name.
pub fn operator(name: &[u8]) -> Option<Half>
    ensures { result ≡ operator_of name.now }
{
    if name == b"%hi".as_slice() {
        Some(Half::High)
    } else if name == b"%lo".as_slice() {
        Some(Half::Low)
    } else {
        None
    }
}
