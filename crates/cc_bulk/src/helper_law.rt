// The law of the helpers that items call: the contract of the function is the law, and it does nothing.
ghost use Rattle.std.specs.Prelude.{[], Bool, ℕ};
ghost use Rattle.cc_text.specs.Tables.{ItemsNamed};
ghost use Rattle.cc_bulk.specs.Copy.{copy_byte_items};
ghost use Rattle.cc_bulk.specs.Fill.{fill_byte_items, reach_items};
ghost use Rattle.cc_bulk.specs.Grow.{grow_items, grower_items};
ghost use Rattle.cc_mem.specs.Helpers.{helpers};

/// Law: of what fills and copies, each helper that a byte's items call, and each that those call, has a name of the
/// list of accesses, and the lines of this name. The test of the bytes, and what grows, call no helper.
pub fn helpers_are_named()
    ensures fills { (sure : Bool) → (p : ℕ) → (q : ℕ) → (r : ℕ) → ItemsNamed helpers (fill_byte_items sure p q r) }
    ensures copies { (sure : Bool) → (p : ℕ) → (q : ℕ) → (r : ℕ) → ItemsNamed helpers (copy_byte_items sure p q r) }
    ensures reaches { (a : ℕ) → (n : ℕ) → ItemsNamed [] (reach_items a n) }
    ensures grows { (most : ℕ) → (r : ℕ) → ItemsNamed [] (grow_items most r) }
    ensures grower { ItemsNamed [] grower_items }
{}
