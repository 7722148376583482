ghost use Rattle.std.specs.Prelude.{◌≡◌, ◌+◌, ℕ, List, [], length, map, Some, None};
ghost use Rattle.std.specs.List.{AllByRecursion};
ghost use Rattle.std.specs.Str.Lines.{lines};
ghost use Rattle.alpha_token.specs.Quoted.{IsTextOf};
ghost use Rattle.alpha_token.specs.Tokens.{tokens};
ghost use Rattle.alpha_operands.specs.Values.{Listed, AreValuesOf};
ghost use Rattle.alpha_text.specs.Statements.{values, text};
ghost use Rattle.alpha_text.specs.Grammar.{IsLine, IsFirstFault};
ghost use Rattle.alpha_asm.specs.Statement.{cells, cell_of};
ghost use Rattle.alpha_asm.specs.Statement.{number as cell};
ghost use Rattle.alpha_asm.specs.Assembled.{item_at, refused, first_refused};
ghost use Rattle.alpha_asm.specs.declared.fault.AsmFault.TheVariants as faults;

/// The laws of what a source says. Its definition reads lines, lists and texts by functions; these
/// laws say by the relations of the line grammar what they read. The values of data of a list are those
/// that the list is read as to its end, and the bytes of a text likewise. Where no line of a source is
/// refused, each is a line of the grammar and says its item. A line that is refused as no line of source
/// has the number of lines so far and one, and its first fault.
pub fn laws_of_sources()
    ensures values { (bytes : ℕ) (list : List ℕ) (all : List Listed) → AreValuesOf bytes list all
        → cells (values bytes list) ≡ map (cell_of bytes) all }
    ensures text { (string all : List ℕ) → IsTextOf string all
        → cells (text string) ≡ map (cell 1) all }
    ensures lines { (kind : _) (source : List ℕ) → first_refused kind [] (lines source) ≡ None
        → AllByRecursion (λ line. IsLine (tokens line) (item_at line)) (lines source) }
    ensures fault { (kind is : _) (line : List ℕ) (n : ℕ) (f : _)
        → refused kind is line ≡ Some (faults.Line n f)
        → (n ≡ length is + 1) × IsFirstFault line f }
{}
