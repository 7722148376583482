ghost use Rattle.std.specs.Prelude.{◌≡◌, ℕ, ℤ, pos, ◌-ℤ◌, ◌+◌, ◌*◌, ◌/◌, ◌%◌, ◌^◌, ◌<◌, ◌≤◌, ◌↔◌, Some, false};
ghost use Rattle.std.specs.Prelude.{FitsSigned, bit_and, bit_or, bit_xor};
ghost use Rattle.std.specs.Int.{w16};
ghost use Rattle.alpha_words.specs.declared.Completion.TheVariants.{Wrap, Stop};
ghost use Rattle.alpha_table.specs.declared.op.Op.TheVariants.{Addq, Subq, Mulq};
ghost use Rattle.alpha_table.specs.declared.columns.MemAccess.{MemAccess};
ghost use Rattle.alpha_table.specs.Op.{trap_of};
ghost use Rattle.alpha_values.specs.Numbers.{register_of};
ghost use Rattle.alpha_values.specs.TrapOp.{size_of, exact, Overflows, completed_of};
ghost use Rattle.alpha_values.specs.Address.{address_of, high_address_of, access_address, Covers, AccessesMeet};
ghost use Rattle.alpha_values.specs.InSpan.{IsInSpan};
ghost use Rattle.alpha_words.specs.Digits.{digits};
ghost use Rattle.alpha_values.specs.Bits.{bits_of};
ghost use Rattle.alpha_values.specs.Op.{complement, extracted_low, extracted_high, inserted, byte_mask, zapped};
ghost use Rattle.alpha_values.specs.Op.{result_of};
ghost use Rattle.alpha_values.specs.Lists.{inverted, and_of, or_of, xor_of, bytes_from, bytes_above, low_placed};
ghost use Rattle.alpha_values.specs.Lists.{high_placed, cleared, low_cleared, high_cleared, on_lists};

/// The laws of results: each fits a register. Quadword sums, differences and products are those of
/// the unsigned operands modulo 2^64. Call it in a body whose proof needs one of them.
pub fn laws_of_results()
    ensures bound { (level : _) (op : _) (a b old : ℕ) → a < 2 ^ 64 → b < 2 ^ 64 → old < 2 ^ 64
        → result_of level op a b old < 2 ^ 64 }
    ensures sum { (level : _) (a b old : ℕ) → result_of level Addq a b old ≡ (a + b) % 2 ^ 64 }
    ensures difference { (level : _) (a b old : ℕ)
        → result_of level Subq a b old ≡ register_of (pos a -ℤ pos b) }
    ensures product { (level : _) (a b old : ℕ) → result_of level Mulq a b old ≡ a * b % 2 ^ 64 }
{}

/// The laws of completion: an instruction overflows exactly where its exact result lies outside the
/// signed range of its size. Each completed value fits a register. Completed by wrap or stop it is
/// the result of [`operate_at`](crate::operate_at), and without an overflow it is the exact result.
/// Call it in a body whose proof needs one of them.
pub fn laws_of_completion()
    ensures range { (op : _) (a b : ℕ)
        → Overflows op a b ↔ ¬ FitsSigned (size_of op) (exact op a b) }
    ensures bound { (op : _) (a b : ℕ) (completion : _) → completed_of op a b completion < 2 ^ 64 }
    ensures wrap { (level : _) (row : _) (op : _) (a b old : ℕ) → trap_of row ≡ Some op
        → completed_of op a b Wrap ≡ result_of level row a b old }
    ensures stop { (op : _) (a b : ℕ) → completed_of op a b Stop ≡ completed_of op a b Wrap }
    ensures exact { (op : _) (a b : ℕ) (completion : _) → ¬ Overflows op a b
        → completed_of op a b completion ≡ register_of (exact op a b) }
{}

/// The laws of lists: of registers, logic is what it does to each bit, and the byte forms, which shift
/// and clear by a number of marks, are what they do to a list of bytes; so the result of each operate
/// instruction may be read either way. Call it in a body whose proof needs one of them.
pub fn laws_of_lists()
    ensures conjunction { (a b : ℕ) → a < 2 ^ 64 → b < 2 ^ 64
        → bit_and a b ≡ and_of (bits_of a) (bits_of b) }
    ensures disjunction { (a b : ℕ) → a < 2 ^ 64 → b < 2 ^ 64
        → bit_or a b ≡ or_of (bits_of a) (bits_of b) }
    ensures exclusion { (a b : ℕ) → a < 2 ^ 64 → b < 2 ^ 64
        → bit_xor a b ≡ xor_of (bits_of a) (bits_of b) }
    ensures complements { (a : ℕ) → a < 2 ^ 64
        → bits_of (complement a) ≡ inverted (bits_of a) }
    ensures extracts_low { (size a b : ℕ) → a < 2 ^ 64
        → extracted_low size a b ≡ bytes_from size a b }
    ensures extracts_high { (size a b : ℕ) → size ≤ 8 → a < 2 ^ 64
        → extracted_high size a b ≡ bytes_above size a b }
    ensures inserts_low { (size a b : ℕ) → size ≤ 8
        → inserted size a b % 2 ^ 64 ≡ low_placed size a b }
    ensures inserts_high { (size a b : ℕ) → size ≤ 8
        → inserted size a b / 2 ^ 64 ≡ high_placed size a b }
    ensures masks_low { (size a b : ℕ) → size ≤ 8
        → zapped a (byte_mask size b) ≡ low_cleared size a b }
    ensures masks_high { (size a b : ℕ) → size ≤ 8
        → zapped a (byte_mask size b / 2 ^ 8) ≡ high_cleared size a b }
    ensures zaps { (a b : ℕ) → zapped a b ≡ cleared (digits 2 8 b) a }
    ensures zaps_not { (a b : ℕ) → b < 2 ^ 64
        → zapped a (complement b) ≡ cleared (inverted (digits 2 8 b)) a }
    ensures results { (level : _) (op : _) (a b old : ℕ) → a < 2 ^ 64 → b < 2 ^ 64
        → result_of level op a b old ≡ on_lists level op a b old }
{}

/// The laws of addresses: each fits a register. Of two accesses by one base that both lie in memory,
/// below 2 ^ 30, the spans meet where both touch a byte; and where their spans meet they touch one,
/// if neither clears bits of its address. Spans meet where they have a byte in common.
/// Call it in a body whose proof needs one of them.
pub fn laws_of_addresses()
    ensures bound { (base : ℕ) (disp : ℤ) → address_of base disp < 2 ^ 64 }
    ensures high_bound { (base : ℕ) (disp : ℤ) → high_address_of base disp < 2 ^ 64 }
    ensures access_bound { (c : MemAccess) (base : ℕ) → access_address c base < 2 ^ 64 }
    ensures meets { (a b : MemAccess) (base y : ℕ) → base < 2 ^ 64
        → FitsSigned w16 a.disp → FitsSigned w16 b.disp
        → access_address a base + a.bytes ≤ 2 ^ 30 → access_address b base + b.bytes ≤ 2 ^ 30
        → Covers a base y → Covers b base y → AccessesMeet a b }
    ensures touches { (a b : MemAccess) (base : ℕ) → base < 2 ^ 64
        → FitsSigned w16 a.disp → FitsSigned w16 b.disp → 0 < a.bytes → 0 < b.bytes
        → access_address a base + a.bytes ≤ 2 ^ 30 → access_address b base + b.bytes ≤ 2 ^ 30
        → a.clears ≡ false → b.clears ≡ false → AccessesMeet a b
        → (y : ℕ) × Covers a base y × Covers b base y }
    ensures common { (a b : MemAccess) → 0 < a.bytes → 0 < b.bytes
        → (AccessesMeet a b ↔ ((distance : ℤ) × IsInSpan a distance × IsInSpan b distance)) }
{}
