ghost use Rattle.std.specs.Prelude.{◌≡◌, ◌≤◌, ◌∷◌, [], not, length, if◌then◌else◌};
ghost use Rattle.std.specs.List.{prefix_len};
ghost use Rattle.alpha_token.specs.Bytes.{is_blank};
ghost use Rattle.alpha_debug.specs.Command.{words, has_bytes, number_in};

use alpha_token::{Step, TokenKind, is_blank, next, number, without_blanks};

/// The first word of a line and what stands behind it; no bytes where the line has no word.
pub(crate) fn first_word(line: &[u8]) -> (&[u8], &[u8])
    ensures { words line.now
        ≡ (if has_bytes result.0.now then result.0.now ∷ words result.1.now else []) }
{
    let line = without_blanks(line);
    let len = word_len(line);
    line.split_at(len)
}

// How many bytes at the front are no blanks.
fn word_len(line: &[u8]) -> usize
    ensures value { result ≡ prefix_len (λ b. not (is_blank b)) line.now }
    ensures within { result ≤ length line.now }
{
    line.iter().take_while(|b| !is_blank(**b)).count()
}

/// The number that a word is, below 2^64; `None` where it is none.
pub(crate) fn number_in(word: &[u8]) -> Option<u64>
    ensures { result ≡ number_in word.now }
{
    match next(word) {
        Step::Token(token) if token.kind == TokenKind::Number && token.rest.is_empty() => {
            number(token.text)
        }
        _ => None,
    }
}
