// Laws of the operations, which the crates above cite: the contract of each function is the law, and it does nothing.
ghost use Rattle.std.specs.Prelude.{◌≡◌, ◌≤◌, ◌+◌, ℕ, true};
ghost use Rattle.wm_ast.specs.declared.operation.NumOp.{NumOp};
ghost use Rattle.wm_ast.specs.Operator.{operator_of};
ghost use Rattle.cc_line.specs.Fit.{place_fits};
ghost use Rattle.cc_line.specs.Item.{items_fit, items_most};
ghost use Rattle.cc_line.specs.Routine.{PerformsFromStanding};
ghost use Rattle.cc_text.specs.Short.{items_short};
ghost use Rattle.cc_bits64.specs.Operation.{is_own, op_items, op_most};

/// Law: the items of an operation, on any places and whatever stands in them, do what the operation
/// answers, where constants and tables stand.
pub fn operations_perform()
    ensures { (op : NumOp) → is_own (operator_of op) ≡ true → (a : ℕ) → PerformsFromStanding op (op_items op a) a }
{}

/// Law: the items of every operation fit where the numbers of the places are ints.
pub fn operations_fit()
    ensures { (op : NumOp) → (a : ℕ) → place_fits (a + 3) ≡ true → items_fit (op_items op a) ≡ true }
{}

/// Law: no operation weighs more than the table says.
pub fn operations_are_light()
    ensures { (op : NumOp) → (a : ℕ) → items_most (op_items op a) ≤ op_most op }
{}

/// Law: the items of every operation are short on any places: under every namespace files of them can be kept.
pub fn items_are_short()
    ensures { (op : NumOp) → (a : ℕ) → items_short (op_items op a) ≡ true }
{}
