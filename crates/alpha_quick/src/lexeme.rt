ghost use Rattle.std.specs.Prelude.{◌≡◌, ◌<◌, ◌++◌, true, IsTrue, length};
ghost use Rattle.std.specs.List.{list_all};
ghost use Rattle.alpha_token.specs.Bytes.{goes_on_label, is_label, goes_on_name};
ghost use Rattle.alpha_text.specs.SuffixWords.{BeginsWithout};
ghost use Rattle.alpha_quick.specs.Keys.{key_of, IsKeyed};
ghost use Rattle.alpha_quick.specs.Parts.{class_of, are_classes};

use crate::key::NameKey;
use alpha_token::begins_label;

// For each byte, 1 where it goes on a label, and otherwise 0.
static CLASSES: [u8; 256] = [
    0, 0, 0, 0, 0, 0, 0, 0, 0, 0, 0, 0, 0, 0, 0, 0, 0, 0, 0, 0, 0, 0, 0, 0, 0, 0, 0, 0, 0, 0, 0, 0,
    0, 0, 0, 0, 0, 0, 0, 0, 0, 0, 0, 0, 0, 0, 1, 0, 1, 1, 1, 1, 1, 1, 1, 1, 1, 1, 0, 0, 0, 0, 0, 0,
    0, 1, 1, 1, 1, 1, 1, 1, 1, 1, 1, 1, 1, 1, 1, 1, 1, 1, 1, 1, 1, 1, 1, 1, 1, 1, 1, 0, 0, 0, 0, 1,
    0, 1, 1, 1, 1, 1, 1, 1, 1, 1, 1, 1, 1, 1, 1, 1, 1, 1, 1, 1, 1, 1, 1, 1, 1, 1, 1, 0, 0, 0, 0, 0,
    0, 0, 0, 0, 0, 0, 0, 0, 0, 0, 0, 0, 0, 0, 0, 0, 0, 0, 0, 0, 0, 0, 0, 0, 0, 0, 0, 0, 0, 0, 0, 0,
    0, 0, 0, 0, 0, 0, 0, 0, 0, 0, 0, 0, 0, 0, 0, 0, 0, 0, 0, 0, 0, 0, 0, 0, 0, 0, 0, 0, 0, 0, 0, 0,
    0, 0, 0, 0, 0, 0, 0, 0, 0, 0, 0, 0, 0, 0, 0, 0, 0, 0, 0, 0, 0, 0, 0, 0, 0, 0, 0, 0, 0, 0, 0, 0,
    0, 0, 0, 0, 0, 0, 0, 0, 0, 0, 0, 0, 0, 0, 0, 0, 0, 0, 0, 0, 0, 0, 0, 0, 0, 0, 0, 0, 0, 0, 0, 0,
];

// The class of a byte, by a table of the classes from that of 0 on.
#[inline(always)]
fn class_in(classes: &[u8], byte: u8) -> u8
    requires classes { IsTrue (are_classes 0 classes.now) }
    requires inside { byte < length classes.now }
    ensures { result ≡ class_of byte }
{
    classes[usize::from(byte)]
}

// Whether a byte goes on a label.
#[inline(always)]
fn goes_on_label(byte: u8) -> bool
    ensures { result ≡ goes_on_label byte }
{
    class_in(&CLASSES, byte) != 0
}

/// A line that is cut behind its first bytes.
#[derive(Clone, Copy)]
pub(crate) struct Lexeme<'a> {
    /// These bytes.
    pub name: &'a [u8],
    /// Their key.
    pub key: NameKey,
    /// What stands behind them.
    pub rest: &'a [u8],
}

impl<'a> Lexeme<'a> {
    /// The line that is cut behind its first bytes that go on a label.
    #[inline(always)]
    pub(crate) fn of(line: &'a [u8]) -> Lexeme<'a>
        ensures line { line.now ≡ result.name.now ++ result.rest.now }
        ensures name { list_all goes_on_label result.name.now ≡ true }
        ensures key { result.key.0 ≡ key_of result.name.now }
    {
        let mut n = 0;
        let mut key = NameKey::EMPTY;
        while n < line.len() {
            let byte = line[n];
            if !goes_on_label(byte) {
                break;
            }
            key = key.with_byte(byte);
            n += 1;
        }
        let (name, rest) = line.split_at(n);
        Lexeme { name, key, rest }
    }

    /// Whether its bytes, which go on a label, are one.
    #[inline(always)]
    pub(crate) fn is_label(&self) -> bool
        requires { list_all goes_on_label self.now.name.now ≡ true }
        ensures { result ≡ is_label self.now.name.now }
    {
        match self.name {
            [first, ..] => begins_label(*first),
            [] => false,
        }
    }

    /// The front of a line with `/v`, if that stands behind it.
    #[inline(always)]
    pub(crate) fn with_trap(&self, line: &'a [u8]) -> Lexeme<'a>
        requires line { line.now ≡ self.now.name.now ++ self.now.rest.now }
        requires key { IsKeyed self.now.name.now self.now.key.0 }
        ensures line { line.now ≡ result.name.now ++ result.rest.now }
        ensures key { IsKeyed result.name.now result.key.0 }
    {
        match self.rest {
            [b'/', b'v', ..] => {
                let (name, rest) = line.split_at(self.name.len() + 2);
                let key = self.key.with_byte(b'/').with_byte(b'v');
                Lexeme { name, key, rest }
            }
            _ => *self,
        }
    }
}

/// Whether nothing goes on a name here.
#[inline(always)]
pub(crate) fn ends_name(s: &[u8]) -> bool
    ensures { IsTrue result → BeginsWithout goes_on_name s.now }
{
    match s {
        [first, ..] => !goes_on_label(*first) && *first != b'/',
        [] => true,
    }
}
