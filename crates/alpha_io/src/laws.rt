ghost use Rattle.std.specs.Prelude.{◌≡◌, ◌⊎◌, ℕ, ◌<◌, ◌≤◌, List, [], ◌++◌, length, Option, Some};
ghost use Rattle.std.specs.Prelude.{IsOkAnd, IsErrOf};
ghost use Rattle.std.specs.Io.KnownBytes.{Appends, Keeps};
ghost use Rattle.alpha_io.specs.Faults.{Faulted, NoFault, next_count};
ghost use Rattle.alpha_io.specs.Files.{Files, HasFile, Lacks, KeepsFiles, KeepsOtherFiles};
ghost use Rattle.alpha_io.specs.ReadWhole.{ReadCause, Reading};
ghost use Rattle.alpha_io.specs.SinkChange.{SinkChange, Puts, WritesPartly, HasFailed, HasNoFault};
ghost use Rattle.alpha_io.specs.Written.{WritesPrefix};

use crate::ReadFault;

/// The laws of a count of faults over calls in a row: one that rose stays risen, from wherever one
/// looks before, and is not calm. One that doesn't fall is calm over two calls exactly where it is
/// over each.
pub fn laws_of_counts()
    ensures next { (before : ℕ) → Faulted before (next_count before) }
    ensures later { (before middle now : ℕ) → Faulted before middle → middle ≤ now → Faulted before now }
    ensures earlier { (before middle now : ℕ) → before ≤ middle → Faulted middle now
        → Faulted before now }
    ensures apart { (before now : ℕ) → Faulted before now → NoFault before now → ⊥ }
    ensures one_of_two { (before now : ℕ) → now ≡ before → ¬ Faulted before now → NoFault before now }
    ensures first { (before middle now : ℕ) → before ≤ middle → middle ≤ now
        → NoFault before now → NoFault before middle }
    ensures second { (before middle now : ℕ) → before ≤ middle → middle ≤ now
        → NoFault before now → NoFault middle now }
    ensures both { (before middle now : ℕ) → NoFault before middle → NoFault middle now
        → NoFault before now }
{}

/// The laws of written prefixes: none and all of some bytes are prefixes of them, and a prefix of
/// more bytes begins with a prefix of the first. Bytes that are told show which prefix it is.
pub fn laws_of_prefixes()
    ensures none { (old new : Option (List ℕ)) (bytes : List ℕ) → Keeps old new
        → WritesPrefix old new bytes }
    ensures all { (old new : Option (List ℕ)) (bytes : List ℕ) → Appends old new bytes
        → WritesPrefix old new bytes }
    ensures after { (a b c : Option (List ℕ)) (xs ys : List ℕ) → Appends a b xs
        → WritesPrefix b c ys → WritesPrefix a c (xs ++ ys) }
    ensures more { (a b : Option (List ℕ)) (xs ys : List ℕ) → WritesPrefix a b xs
        → WritesPrefix a b (xs ++ ys) }
    ensures told { (xs : List ℕ) (new : Option (List ℕ)) (bytes : List ℕ)
        → (p : WritesPrefix (Some xs) new bytes) → new ≡ Some (xs ++ p.done) }
{}

/// The laws of one sink over calls in a row: what was written whole, and then whole or in part, was
/// written whole or in part together. A sink that failed isn't calm.
pub fn laws_of_sinks()
    ensures none { (old : Option (List ℕ)) (count : ℕ)
        → Puts (record { old = old; new = old; before = count; now = count }) [] }
    ensures whole { (old middle new : Option (List ℕ)) (before between now : ℕ) (xs ys : List ℕ)
        → Puts (record { old = old; new = middle; before = before; now = between }) xs
        → Puts (record { old = middle; new = new; before = between; now = now }) ys
        → Puts (record { old = old; new = new; before = before; now = now }) (xs ++ ys) }
    ensures part { (old middle new : Option (List ℕ)) (before between now : ℕ) (xs ys : List ℕ)
        → Puts (record { old = old; new = middle; before = before; now = between }) xs
        → WritesPartly (record { old = middle; new = new; before = between; now = now }) ys
        → WritesPartly (record { old = old; new = new; before = before; now = now }) (xs ++ ys) }
    ensures front { (s : SinkChange) (xs ys : List ℕ) → Puts s xs → WritesPartly s (xs ++ ys) }
    ensures more { (s : SinkChange) (xs ys : List ℕ) → WritesPartly s xs → WritesPartly s (xs ++ ys) }
    ensures apart { (s : SinkChange) → HasFailed s → HasNoFault s → ⊥ }
{}

/// The laws of a shelf's files over calls in a row: that all files stayed is an equivalence, and
/// what was told of a file after such calls was so before them.
pub fn laws_of_files()
    ensures same { (a : Files) → KeepsFiles a a }
    ensures joined { (a b c : Files) → KeepsFiles a b → KeepsFiles b c → KeepsFiles a c }
    ensures turned { (a b : Files) → KeepsFiles a b → KeepsFiles b a }
    ensures others { (a b : Files) (name : List ℕ) → KeepsFiles a b → KeepsOtherFiles a b name }
    ensures there { (a b : Files) (name bytes : List ℕ) → KeepsFiles a b
        → HasFile b name bytes → HasFile a name bytes }
    ensures missing { (a b : Files) (name : List ℕ) → KeepsFiles a b → Lacks b name
        → Lacks a name }
    ensures apart { (a : Files) (name bytes : List ℕ) → Lacks a name → HasFile a name bytes → ⊥ }
{}

/// The laws of what `read_whole` answers where files are told and no fault was counted: the file
/// where it is there within the limit, and else its refusal, each exactly in its case but for want
/// of memory.
pub fn laws_of_reading()
    ensures missing { (a : Files) (name : List ℕ) (limit before now : ℕ) (answer : Reading)
        → Lacks a name → ReadCause a name limit before now answer
        → IsErrOf answer ReadFault.Shelf ⊎ IsErrOf answer ReadFault.NoMemory }
    ensures within { (files : List ℕ → Option (List ℕ)) (name file : List ℕ)
        (limit before now : ℕ) (answer : Reading) → files name ≡ Some file → length file ≤ limit
        → NoFault before now → ReadCause (Some files) name limit before now answer
        → IsOkAnd answer (λ v. v.items ≡ file) ⊎ IsErrOf answer ReadFault.NoMemory }
    ensures past { (files : List ℕ → Option (List ℕ)) (name file : List ℕ)
        (limit before now : ℕ) (answer : Reading) → files name ≡ Some file → limit < length file
        → NoFault before now → ReadCause (Some files) name limit before now answer
        → IsErrOf answer ReadFault.TooLarge ⊎ IsErrOf answer ReadFault.NoMemory }
{}
