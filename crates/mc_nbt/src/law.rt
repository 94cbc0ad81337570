// Laws of the trees, which the crates above cite: the contract of each function is the law, and it does nothing.
ghost use Rattle.std.specs.Prelude.{◌≡◌, ◌++◌, ◌∷◌, [], List, ℕ, ℤ, Some, None, true, ◌+◌, ◌<◌, ◌≤◌, length, max, suc, pos, negsuc, option_and_then};
ghost use Rattle.std.specs.List.{list_all, remove as remove_item};
ghost use Rattle.mc_nbt.specs.Beginning.{IsAnswered};
ghost use Rattle.mc_nbt.specs.Path.{Apart, Outlives, is_part};
ghost use Rattle.mc_nbt.specs.Shape.{IsTree, is_shaped};
ghost use Rattle.mc_nbt.specs.Spelling.{Spells};
ghost use Rattle.mc_nbt.specs.Tree.{Tree, Part, depth, index_of, key, list_of, place, put_back, select, set, set_at, append, append_at, remove, remove_at};
ghost use Rattle.mc_nbt.specs.steps.Reading.{read_text};

/// Law: after a value is set at a path, the path selects it.
pub fn set_is_selected()
    ensures { (p : Part) → (ps : List Part) → (v : Tree) → (t : Tree) → (u : Tree)
        → set_at p ps v t ≡ Some u
        → select u (p ∷ ps) ≡ Some v }
{}

/// Law: a value that is set at a path where it stands already leaves the tree as it is.
pub fn set_of_what_is_there()
    ensures { (p : Part) → (ps : List Part) → (v : Tree) → (t : Tree)
        → select t (p ∷ ps) ≡ Some v
        → set_at p ps v t ≡ Some t }
{}

/// Law: a path that parts from the one at which a value is set selects what it selected before.
pub fn set_leaves_others_alone()
    ensures { (p : Part) → (ps : List Part) → (q : Part) → (qs : List Part) → (v : Tree) → (t : Tree)
        → (u : Tree)
        → Apart (p ∷ ps) (q ∷ qs)
        → set_at p ps v t ≡ Some u
        → select u (q ∷ qs) ≡ select t (q ∷ qs) }
{}

/// Law: what is appended at a path is the last element there.
pub fn appended_is_last()
    ensures { (p : Part) → (ps : List Part) → (v : Tree) → (t : Tree) → (u : Tree)
        → append_at p ps v t ≡ Some u
        → select u ((p ∷ ps) ++ place (negsuc 0) ∷ []) ≡ Some v }
{}

/// Law: a path that parts from the one at which a value is appended selects what it selected before.
pub fn append_leaves_others_alone()
    ensures { (p : Part) → (ps : List Part) → (q : Part) → (qs : List Part) → (v : Tree) → (t : Tree)
        → (u : Tree)
        → Apart (p ∷ ps) (q ∷ qs)
        → append_at p ps v t ≡ Some u
        → select u (q ∷ qs) ≡ select t (q ∷ qs) }
{}

/// Law: what is appended stands behind the elements that the list had; where nothing stood, it is the only one.
/// What stood at a place from the front, or inside of it, stands there still.
pub fn append_leaves_elements_alone()
    ensures list { (p : Part) → (ps : List Part) → (v : Tree) → (ts : List Tree) → (t : Tree) → (u : Tree)
        → append_at p ps v t ≡ Some u
        → select t (p ∷ ps) ≡ Some (list_of ts)
        → select u (p ∷ ps) ≡ Some (list_of (ts ++ v ∷ [])) }
    ensures nothing { (p : Part) → (ps : List Part) → (v : Tree) → (t : Tree) → (u : Tree)
        → append_at p ps v t ≡ Some u
        → select t (p ∷ ps) ≡ None
        → select u (p ∷ ps) ≡ Some (list_of (v ∷ [])) }
    ensures places { (p : Part) → (ps : List Part) → (v : Tree) → (w : Tree) → (j : ℕ) → (qs : List Part) → (t : Tree)
        → (u : Tree)
        → append_at p ps v t ≡ Some u
        → select t ((p ∷ ps) ++ place (pos j) ∷ qs) ≡ Some w
        → select u ((p ∷ ps) ++ place (pos j) ∷ qs) ≡ Some w }
{}

/// Law: a path that outlives the one that is removed selects what it selected before.
pub fn remove_leaves_others_alone()
    ensures { (ps : List Part) → (qs : List Part) → (t : Tree) → (u : Tree)
        → Outlives ps qs
        → remove t ps ≡ Some u
        → select u qs ≡ select t qs }
{}

/// Law: a key that is removed selects nothing afterwards.
pub fn removed_key_is_gone()
    ensures { (ps : List Part) → (k : List ℕ) → (t : Tree) → (u : Tree)
        → is_shaped t ≡ true
        → remove t (ps ++ key k ∷ []) ≡ Some u
        → select u (ps ++ key k ∷ []) ≡ None }
{}

/// Law: the removal of an element leaves the other elements of its list in their order: those before it at their
/// places, those behind it one place further to the front. The removal of the last one leaves the list without it.
pub fn removed_element_is_left_out()
    ensures list { (ps : List Part) → (i : ℤ) → (m : ℕ) → (ts : List Tree) → (t : Tree) → (u : Tree)
        → select t ps ≡ Some (list_of ts)
        → index_of (length ts) i ≡ Some m
        → remove t (ps ++ place i ∷ []) ≡ Some u
        → select u ps ≡ Some (list_of (remove_item ts m)) }
    ensures last { (ps : List Part) → (ts : List Tree) → (v : Tree) → (t : Tree) → (u : Tree)
        → select t ps ≡ Some (list_of (ts ++ v ∷ []))
        → remove t (ps ++ place (negsuc 0) ∷ []) ≡ Some u
        → select u ps ≡ Some (list_of ts) }
    ensures before { (ps : List Part) → (i : ℤ) → (m : ℕ) → (ts : List Tree) → (j : ℕ) → (qs : List Part) → (t : Tree)
        → (u : Tree)
        → select t ps ≡ Some (list_of ts)
        → index_of (length ts) i ≡ Some m
        → remove t (ps ++ place i ∷ []) ≡ Some u
        → j < m
        → select u (ps ++ place (pos j) ∷ qs) ≡ select t (ps ++ place (pos j) ∷ qs) }
    ensures behind { (ps : List Part) → (i : ℤ) → (m : ℕ) → (ts : List Tree) → (j : ℕ) → (qs : List Part) → (t : Tree)
        → (u : Tree)
        → select t ps ≡ Some (list_of ts)
        → index_of (length ts) i ≡ Some m
        → remove t (ps ++ place i ∷ []) ≡ Some u
        → m ≤ j
        → select u (ps ++ place (pos j) ∷ qs) ≡ select t (ps ++ place (pos (suc j)) ∷ qs) }
{}

/// Law: a change below a path is the change of what stands there, put back.
pub fn change_below_is_change_there()
    ensures set { (p : Part) → (ps : List Part) → (q : Part) → (qs : List Part) → (v : Tree) → (t : Tree)
        → (u : Tree)
        → select t (p ∷ ps) ≡ Some u
        → set_at p (ps ++ q ∷ qs) v t ≡ option_and_then (put_back t (p ∷ ps)) (set_at q qs v u) }
    ensures append { (p : Part) → (ps : List Part) → (q : Part) → (qs : List Part) → (v : Tree) → (t : Tree)
        → (u : Tree)
        → select t (p ∷ ps) ≡ Some u
        → append_at p (ps ++ q ∷ qs) v t ≡ option_and_then (put_back t (p ∷ ps)) (append_at q qs v u) }
    ensures remove { (p : Part) → (ps : List Part) → (q : Part) → (qs : List Part) → (t : Tree) → (u : Tree)
        → select t (p ∷ ps) ≡ Some u
        → remove_at p (ps ++ q ∷ qs) t ≡ option_and_then (put_back t (p ∷ ps)) (remove_at q qs u) }
{}

/// Law: where something stands any tree can be put back, and stands there then. A path that parts from it selects
/// what it selected before. The tree is at most as deep as it was, or as what is put back makes it.
pub fn what_is_put_back_stands_there()
    ensures there { (ps : List Part) → (t : Tree) → (u : Tree) → (v : Tree)
        → select t ps ≡ Some u
        → (w : Tree) × (put_back t ps v ≡ Some w) }
    ensures selected { (ps : List Part) → (t : Tree) → (v : Tree) → (w : Tree)
        → put_back t ps v ≡ Some w
        → select w ps ≡ Some v }
    ensures others { (v : Tree) → (ps : List Part) → (qs : List Part)
        → Apart ps qs
        → (t : Tree) → (w : Tree)
        → put_back t ps v ≡ Some w
        → select w qs ≡ select t qs }
    ensures deep { (ps : List Part) → (t : Tree) → (v : Tree) → (w : Tree)
        → put_back t ps v ≡ Some w
        → depth w ≤ max (depth t) (length ps + depth v) }
{}

/// Law: the commands `set`, `append` and `remove` leave a tree that may stand in a storage.
pub fn changes_leave_trees()
    ensures set { (p : Part) → (ps : List Part) → (v : Tree) → (t : Tree) → (u : Tree)
        → IsTree t
        → IsTree v
        → list_all is_part (p ∷ ps) ≡ true
        → set t (p ∷ ps) v ≡ Some u
        → IsTree u }
    ensures append { (p : Part) → (ps : List Part) → (v : Tree) → (t : Tree) → (u : Tree)
        → IsTree t
        → IsTree v
        → list_all is_part (p ∷ ps) ≡ true
        → append t (p ∷ ps) v ≡ Some u
        → IsTree u }
    ensures remove { (p : Part) → (ps : List Part) → (t : Tree) → (u : Tree)
        → IsTree t
        → remove t (p ∷ ps) ≡ Some u
        → IsTree u }
{}

/// Law: a tree in which a value is set is at least as deep as the value at the end of its path, and at most that
/// or as deep as it was.
pub fn set_is_so_deep()
    ensures least { (p : Part) → (ps : List Part) → (v : Tree) → (t : Tree) → (u : Tree)
        → set_at p ps v t ≡ Some u
        → length (p ∷ ps) + depth v ≤ depth u }
    ensures most { (p : Part) → (ps : List Part) → (v : Tree) → (t : Tree) → (u : Tree)
        → set_at p ps v t ≡ Some u
        → depth u ≤ max (depth t) (length (p ∷ ps) + depth v) }
{}

/// Law: a text spells at most one tree.
pub fn text_spells_one_tree()
    ensures { (text : List ℕ) → (t : Tree) → (u : Tree) → Spells text t → Spells text u → t ≡ u }
{}

/// Law: the reader of spellings answers rightly, whatever the text: the tree that it spells, and how deep that is;
/// or, where it spells none, how many of its bytes begin a spelling.
pub fn reader_answers_rightly()
    ensures { (text : List ℕ) → IsAnswered text (read_text text) }
{}
