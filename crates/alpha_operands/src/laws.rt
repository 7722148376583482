ghost use Rattle.std.specs.Prelude.{◌≡◌, ◌↔◌, [], ℕ, List, Ok, Err, Some, None};
ghost use Rattle.alpha_token.specs.Tokens.{tokens};
ghost use Rattle.alpha_token.specs.Quoted.{IsText};
ghost use Rattle.alpha_operands.specs.declared.number.Sign.TheVariants.{Plus};
ghost use Rattle.alpha_operands.specs.Shapes.{patterns};
ghost use Rattle.alpha_operands.specs.Walk.{operands};
ghost use Rattle.alpha_operands.specs.Grammar.{AreOperands, FirstFault, HasFault};
ghost use Rattle.alpha_operands.specs.Values.{next_of, AreValuesOf, IsReadAsList, IsWholeList, IsOfSize};

/// The laws of operands. What is read is what some pattern spells, and each line has one meaning
/// at most. Where no pattern spells a line, its first fault is read: of all that it has, the one
/// at the least column, and at one column of the least kind. A line with operands has no fault.
pub fn laws_of_operands()
    ensures grammar { (s : _) (line : List ℕ) (o : _) → (operands (patterns s) (tokens line) ≡ Ok o)
        ↔ AreOperands (patterns s) (tokens line) o }
    ensures fault { (s : _) (line : List ℕ) (f : _) → operands (patterns s) (tokens line) ≡ Err f
        → FirstFault (patterns s) (tokens line) f }
    ensures faultless { (s : _) (line : List ℕ) (o f : _) → AreOperands (patterns s) (tokens line) o
        → ¬ HasFault (patterns s) [] Plus (tokens line) f }
{}

/// The laws of lists and texts. What was read as a list of values of a size is read to its end by
/// [`next_value`](crate::next_value), a value after the other, and so is the text of a string by
/// [`next_byte`](alpha_token::next_byte). A list has one row of values, each of its size, and a list
/// that is empty has none.
pub fn laws_of_lists()
    ensures values { (bytes : ℕ) (list behind : List ℕ) → IsReadAsList bytes list behind
        → IsWholeList bytes list }
    ensures end { (bytes : ℕ) → next_of bytes [] ≡ None }
    ensures one { (bytes : ℕ) (list : List ℕ) (vs ws : _) → AreValuesOf bytes list vs
        → AreValuesOf bytes list ws → vs ≡ ws }
    ensures sized { (bytes : ℕ) (list : List ℕ) (v : _) → next_of bytes list ≡ Some v
        → IsOfSize bytes v.0 }
    ensures text { (s : _) (line t : List ℕ) (o : _) → operands (patterns s) (tokens line) ≡ Ok o
        → o.text ≡ Some t → IsText t }
{}
