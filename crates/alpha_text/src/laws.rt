ghost use Rattle.std.specs.Prelude.{◌≡◌, ◌↔◌, ◌++◌, ◌∷◌, [], length, List, ℕ, None, Ok, Err};
ghost use Rattle.alpha_table.specs.Row.{IsInsn};
ghost use Rattle.alpha_token.specs.Quoted.{IsText};
ghost use Rattle.alpha_token.specs.Tokens.{tokens};
ghost use Rattle.alpha_operands.specs.Values.{IsWholeList};
ghost use Rattle.alpha_text.specs.Statements.{code, values, text};
ghost use Rattle.alpha_text.specs.Canon.{canon};
ghost use Rattle.alpha_text.specs.Grammar.{IsLine, IsFirstFault, LineHasFault};
ghost use Rattle.alpha_text.specs.References.{IsWell};
ghost use Rattle.alpha_text.specs.Reading.{read};

/// The laws of lines. What is read is what the line grammar says, so a line says one thing at most.
/// The fault that is read is the first of all that the line has: no other stands before it, or at
/// its column and is of a lesser kind. A line that says something has no fault. The canonical line of an instruction
/// reads back as that instruction without a label, and different instructions have different canonical lines. A line
/// that reads with a carriage return behind it reads the same without.
pub fn laws_of_lines()
    ensures grammar { (line : List ℕ) (l : _) → (read line ≡ Ok l) ↔ IsLine (tokens line) l }
    ensures fault { (line : List ℕ) (f : _) → read line ≡ Err f → IsFirstFault line f }
    ensures faultless { (line : List ℕ) (l f : _) → IsLine (tokens line) l
        → ¬ LineHasFault (tokens line) f }
    ensures reads_back { (i : _) → IsInsn i
        → read (canon i) ≡ Ok (record { label = None; statement = code i }) }
    ensures returned { (line : List ℕ) (l : _) → read (line ++ 13 ∷ []) ≡ Ok l → read line ≡ Ok l }
    ensures different { (i j : _) → IsInsn i → IsInsn j → canon i ≡ canon j → i ≡ j }
{}

/// The laws of an item's list and text. [`next_value`](crate::next_value) with the size of the list
/// gives a first value of it, then the first of the rest, and so on, until the list is empty, and
/// so does [`next_byte`](crate::next_byte) with the bytes of the text. Neither gives `None` before.
pub fn laws_of_items()
    ensures list { (line : List ℕ) (l : _) (n : ℕ) (list : List ℕ) → read line ≡ Ok l
        → l.statement ≡ values n list → IsWholeList n list }
    ensures text { (line : List ℕ) (l : _) (t : List ℕ) → read line ≡ Ok l → l.statement ≡ text t
        → IsText t }
{}

/// The law of a line's labels. The label that a line defines, and each that it names, is a whole one: a
/// letter or `_`, and then letters, digits, `_` and `.`; it is no longer than the line. What is added
/// to an address lies from -(2^31 - 1) to 2^31 - 1. An instruction that an address is put into has
/// displacement 0 until then.
pub fn laws_of_references()
    ensures { (line : List ℕ) (l : _) → read line ≡ Ok l → IsWell (length line) l }
{}
