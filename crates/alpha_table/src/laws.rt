ghost use Rattle.std.specs.Prelude.{◌≡◌, ℕ, ◌^◌, ◌<◌, ◌≤◌, ◌↔◌, Some, List, slice_get, IsSomeAnd};
ghost use Rattle.std.specs.Option.{option_map, option_and_then};
ghost use Rattle.alpha_words.specs.Levels.{level_number};
ghost use Rattle.alpha_table.specs.Row.{Row, IsInsn};
ghost use Rattle.alpha_table.specs.Decoded.{decoded};
ghost use Rattle.alpha_table.specs.Encoded.{encoded};
ghost use Rattle.alpha_table.specs.Names.{name_of};
ghost use Rattle.alpha_table.specs.ClassOf.{class_of};
ghost use Rattle.alpha_table.specs.Words.{class_in, level_in};
ghost use Rattle.alpha_table.specs.Code.{class_at};
ghost use Rattle.alpha_table.specs.Columns.{level_of};

/// The laws of the table. An instruction has exactly one word of 32 bits; a word has one
/// instruction at most, whose fields are within its row, and that is the one that look-ups in the
/// rows find. So [`decode`](crate::decode) and [`encode`](crate::encode) undo each other.
/// Call it in a body whose proof needs one of them.
pub fn laws_of_the_table()
    ensures some_word { (i : _) → IsInsn i → (w : ℕ) × (w < 2 ^ 32) × Row w i }
    ensures encoded { (i : _) → IsInsn i → (encoded i < 2 ^ 32) × Row (encoded i) i }
    ensures one_word { (v w : ℕ) (i : _) → v < 2 ^ 32 → w < 2 ^ 32 → Row v i → Row w i → v ≡ w }
    ensures one_instruction { (w : ℕ) (i j : _) → Row w i → Row w j → i ≡ j }
    ensures within { (w : ℕ) (i : _) → Row w i → IsInsn i }
    ensures looked_up { (w : ℕ) (i : _) → Row w i ↔ (decoded w ≡ Some i) }
{}

/// No two rows have one name. Call it in a body whose proof needs one of them.
pub fn laws_of_names()
    ensures { (m n : _) → name_of m ≡ name_of n → m ≡ n }
{}

/// The class that the tables of `specs/Words.antt` give a word, by which the machines and the checker
/// go, is that of the instruction which [`decode`](crate::decode) finds, and none where there is
/// none; and so is its least level. Call it in a body whose proof needs one of them.
pub fn laws_of_classes()
    ensures word { (w : ℕ) → class_in w ≡ option_map class_of (decoded w) }
    ensures place { (code : List ℕ) (k : ℕ)
        → class_at code k ≡ option_map class_of (option_and_then decoded (slice_get code k)) }
    ensures level { (i : _) → level_in (class_of i) ≡ level_of i }
    ensures at_level { (level : _) (w : ℕ)
        → IsSomeAnd (class_in w) (λ class. level_number (level_in class) ≤ level_number level)
        ↔ IsSomeAnd (decoded w) (λ i. level_number (level_of i) ≤ level_number level) }
{}
