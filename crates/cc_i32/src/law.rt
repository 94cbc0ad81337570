// Laws of the operations, which the crates above cite: the contract of each function is the law, and it does nothing.
ghost use Rattle.std.specs.Prelude.{◌≡◌, ◌≤◌, ℕ, true};
ghost use Rattle.wm_ast.specs.declared.operation.NumOp.{NumOp};
ghost use Rattle.wm_ast.specs.Operator.{operator_of};
ghost use Rattle.cc_line.specs.Fit.{place_fits};
ghost use Rattle.cc_line.specs.Item.{items_fit, items_most};
ghost use Rattle.cc_line.specs.Routine.{PerformsOne, PerformsTwo};
ghost use Rattle.cc_text.specs.Short.{items_short};
ghost use Rattle.cc_i32.specs.Operation.{op_items, op_most, takes_one, takes_two};

/// Law: the items of each operation do it, on all places, any of which may be one: from operands in their places they
/// make the value that the operation answers, in the result's place, or record its trap and end.
pub fn operations_perform()
    ensures two { (op : NumOp) → takes_two (operator_of op) ≡ true → (a : ℕ) → (b : ℕ) → (r : ℕ)
        → PerformsTwo op (op_items op a b r) a b r }
    ensures one { (op : NumOp) → takes_one (operator_of op) ≡ true → (a : ℕ) → (b : ℕ) → (r : ℕ)
        → PerformsOne op (op_items op a b r) a r }
{}

/// Law: on places below 2^31 the items of each operation are lines under every namespace.
pub fn operations_fit()
    ensures { (op : NumOp) → (a : ℕ) → (b : ℕ) → (r : ℕ) → place_fits a ≡ true → place_fits b ≡ true
        → place_fits r ≡ true → items_fit (op_items op a b r) ≡ true }
{}

/// Law: no operation weighs more than the table says, and none more than 34.
pub fn operations_weigh_at_most()
    ensures most { (op : NumOp) → (a : ℕ) → (b : ℕ) → (r : ℕ) → items_most (op_items op a b r) ≤ op_most op }
    ensures little { (op : NumOp) → op_most op ≤ 34 }
{}

/// Law: the items of every operation are short on any places: under every namespace files of them can be kept.
pub fn items_are_short()
    ensures { (op : NumOp) → (a : ℕ) → (b : ℕ) → (r : ℕ) → items_short (op_items op a b r) ≡ true }
{}
