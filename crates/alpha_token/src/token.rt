ghost use Rattle.std.specs.Prelude.{◌≡◌, ◌≤◌, IfSome, length, drop};
ghost use Prim.Native.Nat.{suc};
ghost use Rattle.std.specs.List.{prefix_len};
ghost use Rattle.alpha_token.specs.Bytes.{is_blank};
ghost use Rattle.std.specs.Option.{option_map};
ghost use Rattle.alpha_token.specs.Quoted.{quoted_len};
ghost use Rattle.alpha_token.specs.declared.token.TokenKind.TheVariants.{Text};
ghost use Rattle.alpha_token.specs.Tokens.{token_at, name_kind, if_any, Reads, Joins};

use crate::bytes::{
    alphanumeric_len, begins_name, blanks_len, bytes_from, first_bytes, letters_len, name_len,
};
use crate::numeral::number_more;
use crate::quoted::quoted_len;

/// What a token is by its form.
#[derive(Clone, Copy, Debug, PartialEq, Eq)]
pub enum TokenKind {
    /// A letter, `_` or `.`, and then letters, digits, `_`, `.` and `/`.
    Name,
    /// `.` alone, the address of this instruction.
    Dot,
    /// `$` with letters or digits.
    Register,
    /// Decimal digits, or `0x` and hexadecimal digits.
    Number,
    /// `%` and letters.
    Operator,
    /// A string in double quotes.
    Text,
    /// `,`
    Comma,
    /// `(`
    Open,
    /// `)`
    Close,
    /// `:`
    Colon,
    /// `+`
    Plus,
    /// `-`
    Minus,
}

/// A token of a line.
#[derive(Clone, Copy, Debug)]
pub struct Token<'a> {
    /// What it is by its form.
    pub kind: TokenKind,
    /// The token's bytes, a string's with its quotes.
    pub text: &'a [u8],
    /// The bytes behind it, to the end of the line.
    pub rest: &'a [u8],
}

/// What stands at the front of a line.
#[derive(Clone, Copy, Debug)]
pub enum Step<'a> {
    /// The line ends here, or its comment begins: so many bytes are left.
    End(usize),
    /// A byte stands here that begins no token: so many bytes are left.
    Bad(usize),
    /// A token stands here, the longest that its first byte begins.
    Token(Token<'a>),
}

// The kind of a name that begins with a byte and has so many more.
fn name_kind(first: u8, more: usize) -> TokenKind
    ensures { result ≡ name_kind first more }
{
    if first == b'.' && more == 0 {
        TokenKind::Dot
    } else {
        TokenKind::Name
    }
}

// A token whose kind needs a further byte or more.
fn if_any(kind: TokenKind, more: usize) -> Option<(TokenKind, usize)>
    ensures { result ≡ if_any kind more }
{
    if more == 0 { None } else { Some((kind, more)) }
}

// A string, whose opening quote stands before `rest`.
#[inline(never)]
fn text_at(rest: &[u8]) -> Option<(TokenKind, usize)>
    ensures value { result ≡ option_map (λ n. (Text, suc n)) (quoted_len 0 rest.now) }
    ensures within { IfSome result (λ found. found.1 ≤ length rest.now) }
{
    quoted_len(rest).map(|n| (TokenKind::Text, n + 1))
}

// The kind of the longest token that a byte begins, and how many further bytes it has.
#[tactic(auto, unfolding(crate::specs::Tokens::token_at))]
#[inline(always)]
fn token_at(first: u8, rest: &[u8]) -> Option<(TokenKind, usize)>
    ensures value { result ≡ token_at first rest.now }
    ensures within { IfSome result (λ found. found.1 ≤ length rest.now) }
{
    match first {
        b',' => Some((TokenKind::Comma, 0)),
        b'(' => Some((TokenKind::Open, 0)),
        b')' => Some((TokenKind::Close, 0)),
        b':' => Some((TokenKind::Colon, 0)),
        b'+' => Some((TokenKind::Plus, 0)),
        b'-' => Some((TokenKind::Minus, 0)),
        b'$' => if_any(TokenKind::Register, alphanumeric_len(rest)),
        b'%' => if_any(TokenKind::Operator, letters_len(rest)),
        b'"' => text_at(rest),
        b'0'..=b'9' => Some((TokenKind::Number, number_more(first, rest))),
        _ if begins_name(first) => {
            let more = name_len(rest);
            Some((name_kind(first, more), more))
        }
        _ => None,
    }
}

// What stands at the front of a line that begins with no blank.
#[inline(always)]
fn next_behind_blanks(line: &[u8]) -> Step<'_>
    requires { prefix_len is_blank line.now ≡ 0 }
    ensures reads { Reads line.now result }
    ensures joins { Joins line.now result }
{
    let [first, ..] = line else {
        return Step::End(0);
    };
    if *first == b'#' {
        return Step::End(line.len());
    }
    let rest = bytes_from(line, 1);
    match token_at(*first, rest) {
        None => Step::Bad(line.len()),
        Some((kind, more)) => Step::Token(Token {
            kind,
            text: first_bytes(line, 1 + more),
            rest: bytes_from(rest, more),
        }),
    }
}

/// The line behind the blanks at its front, which are spaces and tabs.
pub fn without_blanks(line: &[u8]) -> &[u8]
    ensures value { result.now ≡ drop (prefix_len is_blank line.now) line.now }
    ensures size { length result.now ≤ length line.now }
{
    bytes_from(line, blanks_len(line))
}

/// What stands at the front of a line, behind blanks.
#[inline(always)]
pub fn next(line: &[u8]) -> Step<'_>
    ensures reads { Reads line.now result }
    ensures joins { Joins line.now result }
{
    next_behind_blanks(bytes_from(line, blanks_len(line)))
}
