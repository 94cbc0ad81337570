// Laws of the operations, which the crates above cite: the contract of each function is the law, and it does nothing.
ghost use Rattle.std.specs.Prelude.{◌≡◌, ◌≤◌, ◌+◌, ℕ, true};
ghost use Rattle.wm_ast.specs.declared.operation.NumOp.{NumOp};
ghost use Rattle.wm_ast.specs.Operator.{operator_of};
ghost use Rattle.cc_line.specs.Fit.{place_fits};
ghost use Rattle.cc_line.specs.Item.{items_fit, items_most};
ghost use Rattle.cc_line.specs.Routine.{PerformsFrom};
ghost use Rattle.cc_text.specs.Short.{items_short};
ghost use Rattle.cc_i64.specs.Operation.{is_own, op_items, op_most};

/// Law: the items of each operation do it, from any place on: of operands that stand there one behind the other they make the
/// value that the operation answers, from the same place on.
pub fn operations_perform()
    ensures { (op : NumOp) → is_own (operator_of op) ≡ true → (a : ℕ) → PerformsFrom op (op_items op a) a }
{}

/// Law: on places below 2^31 the items of each operation are lines under every namespace.
pub fn operations_fit()
    ensures { (op : NumOp) → (a : ℕ) → place_fits (a + 3) ≡ true → items_fit (op_items op a) ≡ true }
{}

/// Law: no operation weighs more than the table says, and none more than 23.
pub fn operations_weigh_at_most()
    ensures most { (op : NumOp) → (a : ℕ) → items_most (op_items op a) ≤ op_most op }
    ensures little { (op : NumOp) → op_most op ≤ 23 }
{}

/// Law: the items of every operation are short on any places: under every namespace files of them can be kept.
pub fn items_are_short()
    ensures { (op : NumOp) → (a : ℕ) → items_short (op_items op a) ≡ true }
{}
