// The law of growing, filling and copying in files, which the crates above cite: the function's contract is the law,
// and it does nothing.
ghost use Rattle.std.specs.Prelude.{◌≡◌, ℕ, Bool, true};
ghost use Rattle.cc_text.specs.Short.{items_short};
ghost use Rattle.cc_bulk.specs.Copy.{copy_byte_items};
ghost use Rattle.cc_bulk.specs.Fill.{fill_byte_items, reach_items};
ghost use Rattle.cc_bulk.specs.Grow.{grow_items, grower_items};

/// Law: the items of what grows, fills and copies are short on any places: under every namespace files of them can be
/// kept.
pub fn items_are_short()
    ensures grows { (most : ℕ) → (a : ℕ) → items_short (grow_items most a) ≡ true }
    ensures grower { items_short grower_items ≡ true }
    ensures reaches { (a : ℕ) → (n : ℕ) → items_short (reach_items a n) ≡ true }
    ensures fills { (sure : Bool) → (p : ℕ) → (q : ℕ) → (r : ℕ) → items_short (fill_byte_items sure p q r) ≡ true }
    ensures copies { (sure : Bool) → (p : ℕ) → (q : ℕ) → (r : ℕ) → items_short (copy_byte_items sure p q r) ≡ true }
{}
