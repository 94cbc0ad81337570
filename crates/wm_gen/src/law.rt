// Laws of the workload: the contract of each function is the law, and it does nothing.
ghost use Rattle.std.specs.Prelude.{ℕ, pos, ◌≤◌, List, length};
ghost use Rattle.wm_ast.specs.Number.{IsSigned, IsUnsigned};
ghost use Rattle.wm_valid.specs.Checked.{IsTyped};
ghost use Rattle.wm_gen.specs.Shortest.{signed, unsigned};
ghost use Rattle.wm_gen.specs.Workload.{workload};

/// Law: the workload is valid and in the profile, its functions are low, and its numbers lie in their ranges.
pub fn workload_is_typed()
    ensures { (number size : ℕ) → 1 ≤ size → size ≤ 1000 → IsTyped (workload number size) }
{}

/// Law: no bytes that spell a number are fewer than those of its shortest spelling.
pub fn numbers_are_shortest()
    ensures unsigned_ones { (bits n : ℕ) (bytes : List ℕ)
        → IsUnsigned bits bytes n → length (unsigned n) ≤ length bytes }
    ensures signed_ones { (bits n : ℕ) (bytes : List ℕ)
        → IsSigned bits bytes (pos n) → length (signed n) ≤ length bytes }
{}
