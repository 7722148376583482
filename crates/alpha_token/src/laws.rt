ghost use Rattle.std.specs.Prelude.{◌≡◌, List, ℕ};
ghost use Rattle.alpha_token.specs.declared.token.TokenKind.TheVariants.{Text};
ghost use Rattle.alpha_token.specs.Tokens.{tokens, Next};
ghost use Rattle.alpha_token.specs.Quoted.{IsString, IsTextOf};

/// The law of strings. What stands between the quotes of a string is read to its end: the first
/// byte, the first byte of the rest, and so on, until nothing is left. A text has one list of bytes.
pub fn laws_of_strings()
    ensures string { (line : List ℕ) (t : _) (more : _) → tokens line ≡ Next t more → t.kind ≡ Text
        → IsString t.text }
    ensures one { (text bs cs : List ℕ) → IsTextOf text bs → IsTextOf text cs → bs ≡ cs }
{}
