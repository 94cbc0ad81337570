// Laws of the operations, which the crates above cite: the contract of each function is the law, and it does nothing.
ghost use Rattle.std.specs.Prelude.{◌≡◌, ◌≤◌, ℕ, true};
ghost use Rattle.wm_ast.specs.declared.operation.NumOp.{NumOp};
ghost use Rattle.cc_line.specs.Fit.{place_fits};
ghost use Rattle.cc_line.specs.Item.{items_fit, items_most};
ghost use Rattle.cc_line.specs.Routine.{PerformsOne, PerformsTwoStanding};
ghost use Rattle.cc_text.specs.Short.{items_short};
ghost use Rattle.cc_bits.specs.Operation.{is_binary, is_unary, most, op_items};

/// Law: the items of an operation, on any places and whatever stands in them, do what the operation answers. Any of the
/// places may be the same. Those of two operands need what stands while a pack runs.
pub fn operations_perform()
    ensures unary { (op : NumOp) → is_unary op ≡ true → (a : ℕ) → (b : ℕ) → (r : ℕ)
        → PerformsOne op (op_items op a b r) a r }
    ensures binary { (op : NumOp) → is_binary op ≡ true → (a : ℕ) → (b : ℕ) → (r : ℕ)
        → PerformsTwoStanding op (op_items op a b r) a b r }
{}

/// Law: the items of every operation fit where the numbers of the places are ints.
pub fn operations_fit()
    ensures { (op : NumOp) → (a : ℕ) → (b : ℕ) → (r : ℕ) → place_fits a ≡ true → place_fits b ≡ true
        → place_fits r ≡ true → items_fit (op_items op a b r) ≡ true }
{}

/// Law: no operation weighs more than the table says, which is at most 450.
pub fn operations_are_light()
    ensures most { (op : NumOp) → (a : ℕ) → (b : ℕ) → (r : ℕ) → items_most (op_items op a b r) ≤ most op }
    ensures light { (op : NumOp) → most op ≤ 450 }
{}

/// Law: the items of every operation are short on any places: under every namespace files of them can be kept.
pub fn items_are_short()
    ensures { (op : NumOp) → (a : ℕ) → (b : ℕ) → (r : ℕ) → items_short (op_items op a b r) ≡ true }
{}
