ghost use Rattle.std.specs.Prelude.{◌≡◌, ℕ, ◌+◌, ◌-◌, ◌%◌, ◌^◌, ◌<◌, ◌≤◌, ◌⊎◌, Bool, List, [], ◌∷◌, ◌++◌, length};
ghost use Rattle.std.specs.Prelude.{slice_index, None, IsTrue};
ghost use Rattle.alpha_words.specs.Digits.{little, low_bytes};
ghost use Rattle.alpha_mem.specs.Intent.{Intent, Load, Store};
ghost use Rattle.alpha_mem.specs.Block.{Block, Shape, shapes, within, block};
ghost use Rattle.alpha_mem.specs.Fault.{each_within, fault_of};
ghost use Rattle.alpha_mem.specs.Memory.{bytes_at, byte_at, write_bytes, IsFree, IsLayout, IsMemory};

/// The laws of writes: they leave each block where it lies, and change exactly the bytes that
/// they name. Two that follow one another are one, and what was written is read back.
/// Call it in a body whose proof needs one of them.
pub fn laws_of_writes()
    ensures shapes { (m : List Block) (a : ℕ) (xs : List ℕ)
        → shapes (write_bytes m a xs) ≡ shapes m }
    ensures good { (m : List Block) (a : ℕ) (xs : List ℕ) → IsMemory m
        → ((k : ℕ) → slice_index xs k < 256) → IsMemory (write_bytes m a xs) }
    ensures outside { (m : List Block) (a : ℕ) (xs : List ℕ) (x : ℕ)
        → (x < a) ⊎ (a + length xs ≤ x) → byte_at (write_bytes m a xs) x ≡ byte_at m x }
    ensures inside { (m : List Block) (a : ℕ) (xs : List ℕ) (x : ℕ) → IsLayout (shapes m)
        → IsTrue (within (shapes m) Load a (length xs)) → a ≤ x → x < a + length xs
        → byte_at (write_bytes m a xs) x ≡ slice_index xs (x - a) }
    ensures joined { (m : List Block) (a : ℕ) (xs ys : List ℕ) → IsLayout (shapes m)
        → IsTrue (within (shapes m) Load a (length (xs ++ ys)))
        → write_bytes (write_bytes m a xs) (a + length xs) ys ≡ write_bytes m a (xs ++ ys) }
    ensures read_back { (m : List Block) (a : ℕ) (xs : List ℕ) → IsLayout (shapes m)
        → IsTrue (within (shapes m) Load a (length xs))
        → bytes_at (write_bytes m a xs) a (length xs) ≡ xs }
{}

/// The laws of reads: a memory is where its blocks lie and its bytes, and a range is its bytes one at
/// a time. Call it in a body whose proof needs one of them.
pub fn laws_of_reads()
    ensures same { (m n : List Block) → shapes m ≡ shapes n → IsLayout (shapes m)
        → ((x : ℕ) → byte_at m x ≡ byte_at n x) → m ≡ n }
    ensures each { (m : List Block) (a n k : ℕ) → IsLayout (shapes m)
        → IsTrue (within (shapes m) Load a n) → k < n
        → slice_index (bytes_at m a n) k ≡ byte_at m (a + k) }
    ensures sized { (m : List Block) (a n : ℕ) → IsTrue (within (shapes m) Load a n)
        → length (bytes_at m a n) ≡ n }
    ensures agreeing { (m n : List Block) (a k : ℕ) → shapes m ≡ shapes n → IsLayout (shapes m)
        → IsTrue (within (shapes m) Load a k)
        → ((x : ℕ) → a ≤ x → x < a + k → byte_at m x ≡ byte_at n x)
        → bytes_at m a k ≡ bytes_at n a k }
{}

/// The laws of numbers: n bytes of memory read as a number below 256 ^ n, and the n lowest bytes of a
/// number are n bytes, which read as the number modulo 256 ^ n. Call it in a body whose proof needs one of them.
pub fn laws_of_numbers()
    ensures read { (m : List Block) (a n : ℕ) → IsMemory m → IsTrue (within (shapes m) Load a n)
        → little (bytes_at m a n) < 256 ^ n }
    ensures sized { (n v : ℕ) → length (low_bytes n v) ≡ n }
    ensures read_back { (n v : ℕ) → little (low_bytes n v) ≡ v % 256 ^ n }
{}

/// The laws of accesses of n bytes: an aligned one whose bytes all lie in blocks has them in one
/// block, if n divides 16, as the size of each load and store does. So one without a fault lies in
/// one block. It ends at or below 2 ^ 30, whatever n is. Call it in a body whose proof needs one of them.
pub fn laws_of_accesses()
    ensures one_block { (ss : List Shape) (intent : Intent) (a n : ℕ) → IsLayout ss
        → 16 % n ≡ 0 → a % n ≡ 0 → each_within ss intent a n ≡ within ss intent a n }
    ensures granted { (ss : List Shape) (intent : Intent) (a n : ℕ) → IsLayout ss
        → 16 % n ≡ 0 → fault_of ss intent a n ≡ None → IsTrue (within ss intent a n) }
    ensures below { (ss : List Shape) (intent : Intent) (a n : ℕ) → IsLayout ss
        → fault_of ss intent a n ≡ None → a + n ≤ 2 ^ 30 }
{}

/// The laws of ranges within one block: a store's are a load's too, each part of one is one, and one
/// of some bytes ends at or below 2 ^ 30. Call it in a body whose proof needs one of them.
pub fn laws_of_ranges()
    ensures readable { (ss : List Shape) (a n : ℕ) → IsTrue (within ss Store a n)
        → IsTrue (within ss Load a n) }
    ensures part { (ss : List Shape) (intent : Intent) (a n b k : ℕ)
        → IsTrue (within ss intent a n) → a ≤ b → b + k ≤ a + n → IsTrue (within ss intent b k) }
    ensures below { (ss : List Shape) (intent : Intent) (a n : ℕ) → IsLayout ss → 0 < n
        → IsTrue (within ss intent a n) → a + n ≤ 2 ^ 30 }
{}

/// The law of adding: addresses that are free and that a new block doesn't take stay free.
/// Call it in a body whose proof needs one of them.
pub fn laws_of_adding()
    ensures { (m : List Block) (first : ℕ) (xs : List ℕ) (zeroed : ℕ) (writable : Bool) (a n : ℕ)
        → IsFree (shapes m) a n → (a + n ≤ first) ⊎ (first + length xs + zeroed ≤ a)
        → IsFree (shapes (m ++ block first xs zeroed writable ∷ [])) a n }
{}
