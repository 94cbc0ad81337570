// Laws of the pieces, which the crates above cite: the contract of each function is the law, and it does nothing.
ghost use Rattle.std.specs.Prelude.{◌≡◌, ◌≤◌, ◌+◌, ◌++◌, ◌∷◌, [], ℕ, suc, ℤ, List, Some, true, length};
ghost use Rattle.mc_nbt.specs.Word.{is_long};
ghost use Rattle.mc_nbt.specs.declared.value.Kind.TheVariants as kinds;
ghost use Rattle.mc_nbt.specs.declared.value.Value.TheVariants as values;
ghost use Rattle.wm_ast.specs.Apply.{apply};
ghost use Rattle.wm_ast.specs.Operator.{divides, operator_of};
ghost use Rattle.wm_ast.specs.declared.answer.Answer.{Answer};
ghost use Rattle.wm_ast.specs.declared.operation.NumOp.{NumOp};
ghost use Rattle.wm_ast.specs.declared.operator.BinaryOp.{BinaryOp};
ghost use Rattle.wm_ast.specs.declared.operator.Operator.TheVariants.{Binary};
ghost use Rattle.cc_line.specs.Fit.{place_fits};
ghost use Rattle.cc_line.specs.Item.{items_fit, items_most};
ghost use Rattle.cc_line.specs.Key.{is_work};
ghost use Rattle.cc_line.specs.Routine.{AreAt, Gives, value_ints};
ghost use Rattle.cc_text.specs.Short.{items_short};
ghost use Rattle.cc_line.specs.State.{State};
ghost use Rattle.cc_div64.specs.Division.{begin_items, begin_most, end_items, end_most, turns_items};
ghost use Rattle.cc_div64.specs.Law.{Begins, Divides, Dividing};

/// Law: from operands in the places from one on, whatever else stands, the beginning records the trap that the
/// operation answers, and ends; or where it answers a value, it leads to a division in pieces with this answer, and
/// leaves all places as they were.
pub fn divisions_begin()
    ensures { (op : NumOp) → (d : BinaryOp) → operator_of op ≡ Binary kinds.I64 d → divides d ≡ true → (a : ℕ)
        → (s : State) → (x : ℤ) → (y : ℤ) → (o : Answer) → is_long x ≡ true → is_long y ≡ true
        → AreAt s a (value_ints (values.I64 x) ++ value_ints (values.I64 y))
        → apply op (values.I64 x ∷ (values.I64 y ∷ [])) ≡ Some o → Begins d a s o }
{}

/// Law: where turns are to be run so many times more, a run of them leads to where they are to be run once less, and
/// leaves all places as they were.
pub fn divisions_go_on()
    ensures { (d : BinaryOp) → (z : ℤ) → (left : ℕ) → (s : State) → Dividing d z (suc left) s
        → Divides turns_items s d z left }
{}

/// Law: where no turns are left, the end puts the answer into the places from one on.
pub fn divisions_end()
    ensures { (d : BinaryOp) → divides d ≡ true → (z : ℤ) → (a : ℕ) → (s : State) → a + 2 ≤ length s.places
        → Dividing d z 0 s → Gives (end_items d a) s a (value_ints (values.I64 z)) }
{}

/// Law: a division in pieces stands in scratch scores of routines alone: where these are the same, it is.
pub fn divisions_stay()
    ensures { (d : BinaryOp) → (z : ℤ) → (left : ℕ) → (s : State) → (t : State)
        → ((h : List ℕ) → is_work h ≡ true → t.scores h ≡ s.scores h) → Dividing d z left s → Dividing d z left t }
{}

/// Law: on places below 2^31 the items are lines under every namespace.
pub fn divisions_fit()
    ensures begin { (d : BinaryOp) → (a : ℕ) → place_fits (a + 3) ≡ true → items_fit (begin_items d a) ≡ true }
    ensures turns { items_fit turns_items ≡ true }
    ensures ends { (d : BinaryOp) → (a : ℕ) → place_fits (a + 1) ≡ true → items_fit (end_items d a) ≡ true }
{}

/// Law: a beginning and an end weigh at most what the tables say, none more than 87 and 13, and eight turns at most 233.
pub fn divisions_weigh_at_most()
    ensures begin { (d : BinaryOp) → (a : ℕ) → items_most (begin_items d a) ≤ 87 }
    ensures each_begin { (d : BinaryOp) → (a : ℕ) → items_most (begin_items d a) ≤ begin_most d }
    ensures turns { items_most turns_items ≤ 233 }
    ensures ends { (d : BinaryOp) → (a : ℕ) → items_most (end_items d a) ≤ 13 }
    ensures each_end { (d : BinaryOp) → (a : ℕ) → items_most (end_items d a) ≤ end_most d }
{}

/// Law: the items are short on any places: under every namespace files of them can be kept.
pub fn items_are_short()
    ensures begin { (d : BinaryOp) → (a : ℕ) → items_short (begin_items d a) ≡ true }
    ensures turns { items_short turns_items ≡ true }
    ensures ends { (d : BinaryOp) → (a : ℕ) → items_short (end_items d a) ≡ true }
{}
