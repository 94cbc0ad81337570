// Laws of items in files, which the crates above cite: the contract of each function is the law, and it does nothing.
ghost use Rattle.std.specs.Prelude.{◌≡◌, ◌≤◌, List, ℕ, true};
ghost use Rattle.mc_cmd.specs.Word.{is_namespace};
ghost use Rattle.mc_cmd.specs.declared.TheConstants.{PIECE};
ghost use Rattle.mc_cmd.specs.Lines.{IsShort};
ghost use Rattle.cc_line.specs.Item.{Items, items_fit, items_helpers, items_most, items_texts};
ghost use Rattle.cc_text.specs.Short.{AllShort, items_short};

/// Law: under every namespace the lines of items that fit, are short and weigh no more than a piece may, can be kept in
/// a file and read back from it, and so can those of each of their helpers.
pub fn short_items_are_kept_in_files()
    ensures lines { (ns : List ℕ) → is_namespace ns ≡ true → (xs : Items) → items_fit xs ≡ true
        → items_short xs ≡ true → items_most xs ≤ PIECE → IsShort (items_texts ns xs) }
    ensures helpers { (ns : List ℕ) → is_namespace ns ≡ true → (xs : Items) → items_fit xs ≡ true
        → items_short xs ≡ true → items_most xs ≤ PIECE → AllShort (items_helpers ns xs) }
{}
