// The laws of several programs: the contract of each function is the law, and it does nothing.
ghost use Rattle.std.specs.Prelude.{◌≡◌, ◌<◌, List, ℕ, Some, length, map, slice_get};
ghost use Rattle.mc_cmd.specs.Pack as alone;
ghost use Rattle.mc_cmd.specs.Pack.{IsBudget, Pack};
ghost use Rattle.mc_cmd.specs.Packing.{Written, pack_view};
ghost use Rattle.mc_together.specs.Programs.{MayLiveTogether};
ghost use Rattle.mc_together.specs.Share.{IsSharedBudget, share_of, sum_shares};
ghost use Rattle.mc_together.specs.Together.{ArePrograms, Event, IsAsAlone, Lawful, own};

/// Law: in a world with several tidy packs of different namespaces, each answers as it does alone under the events that
/// fall to it, with its shares of the budgets; and its chains use the same weight, and are cut alike. These events are
/// lawful for it.
pub fn each_pack_answers_as_alone()
    ensures alone { (ps : List Pack) → ArePrograms ps → (es : List Event) → Lawful ps es
        → (k : ℕ) → (p : Pack) → slice_get ps k ≡ Some p → IsAsAlone ps es k p }
    ensures lawful { (ps : List Pack) → (es : List Event) → (k : ℕ) → (p : Pack) → Lawful ps es
        → slice_get ps k ≡ Some p → alone.Lawful p.index (own (length ps) k es) }
{}

/// Law: packs whose lines are tidy and whose namespaces differ may live together.
pub fn tidy_packs_may_live_together()
    ensures { (ws : List Written) → MayLiveTogether ws → ArePrograms (map pack_view ws) }
{}

/// Law: the shares of a budget sum to it, and each is a budget by itself.
pub fn shares_sum_to_the_budget()
    ensures sum { (b : ℕ) → (n : ℕ) → (t : ℕ) → 0 < n → sum_shares b n t n ≡ b }
    ensures share { (b : ℕ) → (n : ℕ) → (t : ℕ) → (i : ℕ) → 0 < n → IsSharedBudget n b → IsBudget (share_of b n t i) }
{}
