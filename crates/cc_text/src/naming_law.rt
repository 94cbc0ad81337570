// The law of helpers by their names: the contract of the function is the law, and it does nothing.
ghost use Rattle.std.specs.Prelude.{◌++◌, ◌≡◌, ◌≤◌, List, length, true, ℕ};
ghost use Rattle.cc_line.specs.Helpers.{AreOne, each_once};
ghost use Rattle.cc_line.specs.Item.{Helper};
ghost use Rattle.cc_text.specs.Tables.{AreNamed, IsWithin, NamedHelper, all_begin, unlike};

/// Law: where each helper has a name of a list, and the lines of this name, no two of one name have different lines,
/// and each once they are at most as many as the list has names. Two lists whose names begin otherwise are both within
/// the two of them joined.
pub fn named_helpers_are_few()
    ensures one { (all : List NamedHelper) → (ns : List ℕ) → (hs : List Helper) → AreNamed all ns hs → AreOne hs }
    ensures few { (all : List NamedHelper) → (ns : List ℕ) → (hs : List Helper) → AreNamed all ns hs
        → length (each_once hs) ≤ length all }
    ensures front { (gs : List NamedHelper) → (hs : List NamedHelper) → IsWithin gs (gs ++ hs) }
    ensures back { (p : List ℕ) → (q : List ℕ) → (gs : List NamedHelper) → (hs : List NamedHelper)
        → unlike p q ≡ true → all_begin p gs ≡ true → all_begin q hs ≡ true → IsWithin hs (gs ++ hs) }
{}
