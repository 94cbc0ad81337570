// Laws of lines, which the crates above cite: the contract of each function is the law, and it does nothing.
ghost use Rattle.std.specs.Prelude.{codes, ◌≡◌, ◌∷◌, [], ◌≤◌, ◌<◌, ◌+◌, ◌&&◌, not, map, pos, ℕ, ℤ, List, Some, false};
ghost use Rattle.std.specs.Prelude.{true, length};
ghost use Rattle.mc_cmd.specs.Chain.{Functions};
ghost use Rattle.mc_cmd.specs.Tidy.{Tidy};
ghost use Rattle.mc_cmd.specs.Word.{is_namespace};
ghost use Rattle.mc_cmd.specs.World.{World, or_zero};
ghost use Rattle.mc_nbt.specs.Tree.{key, list_of};
ghost use Rattle.mc_nbt.specs.Word.{is_int};
ghost use Rattle.cc_line.specs.Blocks.{constant_steps, copy_steps, less_unsigned, less_unsigned_steps};
ghost use Rattle.cc_line.specs.Core.{CoreMakes, CoreMakesOne, Makes, MakesOne, Replaced, Straight, core_on};
ghost use Rattle.cc_line.specs.Core.{core_on_one, on_one, on_two};
ghost use Rattle.cc_line.specs.Fit.{place_fits, spot_fits, steps_fit};
ghost use Rattle.cc_line.specs.Place.{Spot, score_places};
ghost use Rattle.cc_line.specs.Routine.{Gives};
ghost use Rattle.cc_line.specs.Within.{items_within, steps_within};
ghost use Rattle.cc_line.specs.Item.{AllTidy, HasAll, Items, ItemsReady, items_fit, items_helpers, items_most};
ghost use Rattle.cc_line.specs.Item.{items_texts, join, run_items, steps_items};
ghost use Rattle.cc_line.specs.Key.{PieceId, body_piece, id_tree, key_args, key_below, key_fail, key_follows, key_next};
ghost use Rattle.cc_line.specs.Key.{key_state, key_templates, score_trap};
ghost use Rattle.cc_line.specs.Plain.{StepsPlain};
ghost use Rattle.cc_line.specs.Running.{Begins, Below, FollowingPiece, HasTemplates, Kept, NextPiece, NoFrame};
ghost use Rattle.cc_line.specs.Running.{below_tree, is_int_of, is_starting, kept_at, slot_of, template, trapped};
ghost use Rattle.cc_line.specs.Sight.{Does, Shows, in_io, in_rest};
ghost use Rattle.cc_line.specs.State.{State, ints, is_frame, place_at, seen};
ghost use Rattle.cc_line.specs.Step.{Ready, Step, flow, more, run_steps, steps_texts, steps_weight};
ghost use Rattle.cc_line.specs.Under.{under};

/// Law: what the lines of items do is what the items do, under every namespace and in every pack that has their
/// helpers: they lead from each world that shows a state to one that shows where the items lead, with at most the
/// weight that these use, and nothing outside the namespace differs then.
pub fn lines_do_what_items_do()
    ensures { (functions : Functions) → (ns : List ℕ) → is_namespace ns ≡ true → (xs : Items) → (s : State)
        → items_fit xs ≡ true → HasAll functions ns (items_helpers ns xs) → ItemsReady xs s
        → Does functions ns (items_texts ns xs) (seen s) (run_items xs s).used (run_items xs s).stopped
        (seen (run_items xs s).state) }
{}

/// Law: on no way do items weigh more than the most that they weigh.
pub fn items_weigh_at_most()
    ensures { (xs : Items) → (s : State) → (run_items xs s).used ≤ items_most xs }
{}

/// Law: the lines of items that fit, and those of their helpers, are tidy under every namespace. So each is a line.
pub fn lines_of_items_are_tidy()
    ensures lines { (ns : List ℕ) → is_namespace ns ≡ true → (xs : Items) → items_fit xs ≡ true
        → Tidy ns (items_texts ns xs) }
    ensures helpers { (ns : List ℕ) → is_namespace ns ≡ true → (xs : Items) → items_fit xs ≡ true
        → AllTidy ns (items_helpers ns xs) }
{}

/// Law: steps as items lead where the steps do. Steps, and items without helpers that are filled, that name only
/// places that stand, and neither open one nor make or take back a list of places, find what they need. Items that lead
/// on, and then others, lead where these do.
pub fn steps_are_items()
    ensures run { (xs : List Step) → (s : State) → run_items (steps_items xs) s ≡ run_steps xs s }
    ensures ready { (xs : List Step) → (s : State) → Ready xs s → ItemsReady (steps_items xs) s }
    ensures within_steps { (n : ℕ) → (xs : List Step) → (s : State) → n ≤ length s.places → steps_within n xs ≡ true
        → Ready xs s }
    ensures within_items { (n : ℕ) → (xs : Items) → (s : State) → n ≤ length s.places → items_within n xs ≡ true
        → ItemsReady xs s }
    ensures joined { (xs : Items) → (ys : Items) → (s : State) → (t : State) → (k : ℕ)
        → run_items xs s ≡ flow false t k → ItemsReady xs s → ItemsReady ys t
        → ItemsReady (join xs ys) s × (run_items (join xs ys) s ≡ more k (run_items ys t)) }
{}

/// Law: a core that is proved on its own scratch scores does the same on any spots.
pub fn cores_run_on_any_spots()
    ensures two { (xs : List Step) → (a : ℤ) → (b : ℤ) → (z : ℤ) → CoreMakes xs a b z → Makes (core_on xs) a b z }
    ensures one { (xs : List Step) → (a : ℤ) → (z : ℤ) → CoreMakesOne xs a z → MakesOne (core_on_one xs) a z }
{}

/// Law: a core on places, wherever they are and whichever of them are one, puts its result in the one that is wanted,
/// and nothing else differs then but scratch scores of routines.
pub fn cores_run_on_any_places()
    ensures two { (core : Spot → Spot → List Step) → (x : ℤ) → (y : ℤ) → (z : ℤ) → (a : ℕ) → (b : ℕ) → (r : ℕ)
        → (s : State) → Makes core x y z → a < length s.places → b < length s.places → r < length s.places
        → place_at s a ≡ x → place_at s b ≡ y → Gives (steps_items (on_two a b r core)) s r (z ∷ []) }
    ensures one { (core : Spot → List Step) → (x : ℤ) → (z : ℤ) → (a : ℕ) → (r : ℕ) → (s : State) → MakesOne core x z
        → a < length s.places → r < length s.places → place_at s a ≡ x
        → Gives (steps_items (on_one a r core)) s r (z ∷ []) }
{}

/// Law: a core on places fits where it fits on spots. It weighs at most 6 more there with two operands, and 4 more with
/// one.
pub fn cores_fit_on_places()
    ensures two { (core : Spot → Spot → List Step) → (a : ℕ) → (b : ℕ) → (r : ℕ) → ((x : Spot) → (y : Spot)
        → spot_fits x ≡ true → spot_fits y ≡ true → steps_fit (core x y) ≡ true) → place_fits a ≡ true
        → place_fits b ≡ true → place_fits r ≡ true → items_fit (steps_items (on_two a b r core)) ≡ true }
    ensures one { (core : Spot → List Step) → (a : ℕ) → (r : ℕ) → ((x : Spot) → spot_fits x ≡ true
        → steps_fit (core x) ≡ true) → place_fits a ≡ true → place_fits r ≡ true
        → items_fit (steps_items (on_one a r core)) ≡ true }
    ensures most_of_two { (core : Spot → Spot → List Step) → (a : ℕ) → (b : ℕ) → (r : ℕ) → (n : ℕ) → ((x : Spot)
        → (y : Spot) → steps_weight (core x y) ≡ n) → items_most (steps_items (on_two a b r core)) ≤ n + 6 }
    ensures most_of_one { (core : Spot → List Step) → (a : ℕ) → (r : ℕ) → (n : ℕ) → ((x : Spot)
        → steps_weight (core x) ≡ n) → items_most (steps_items (on_one a r core)) ≤ n + 4 }
{}

/// Law: in a world that shows a state, the places of the innermost frame are the state's, a key of the pack's own
/// storage holds what it holds in the state, and the recorded trap is the state's.
pub fn running_packs_show_states()
    ensures slots { (ns : List ℕ) → (w : World) → (s : State) → (i : ℕ) → Shows ns w (seen s) → i < length s.places
        → slot_of w ns i ≡ Some (place_at s i) }
    ensures keys { (ns : List ℕ) → (w : World) → (s : State) → (k : List ℕ) → Shows ns w (seen s)
        → is_frame in_rest k ≡ false → kept_at w ns (key k ∷ []) ≡ s.keys in_rest k }
    ensures trap { (ns : List ℕ) → (w : World) → (s : State) → Shows ns w (seen s)
        → trapped w ns ≡ or_zero (s.scores score_trap) }
{}

/// Law: where a world shows a state, what stands under the state's keys tells the frames below, the next piece, the one
/// that follows a routine in pieces, whether the job is instantiation, the templates of new frames, that no frame
/// stands, and that a call begins.
pub fn running_packs_keep_their_job()
    ensures below { (ns : List ℕ) → (w : World) → (s : State) → (bs : List Kept) → Shows ns w (seen s)
        → s.keys in_rest key_below ≡ Some (below_tree bs) → Below w ns bs }
    ensures next { (ns : List ℕ) → (w : World) → (s : State) → (i : PieceId) → Shows ns w (seen s)
        → s.keys in_rest key_next ≡ Some (id_tree i) → NextPiece w ns i }
    ensures following { (ns : List ℕ) → (w : World) → (s : State) → (i : PieceId) → Shows ns w (seen s)
        → s.keys in_rest key_follows ≡ Some (id_tree i) → FollowingPiece w ns i }
    ensures starting { (ns : List ℕ) → (w : World) → (s : State) → Shows ns w (seen s)
        → is_starting w ns ≡ is_int_of 4 (s.keys in_rest key_fail) && not (is_int_of 0 (s.keys in_io key_state)) }
    ensures templates { (ns : List ℕ) → (w : World) → (s : State) → (sizes : List ℕ) → Shows ns w (seen s)
        → s.keys in_rest key_templates ≡ Some (list_of (map template sizes)) → HasTemplates w ns sizes }
    ensures no_frame { (ns : List ℕ) → (w : World) → (s : State) → Shows ns w (seen s)
        → s.keys in_rest key_below ≡ Some (below_tree []) → length s.places ≤ score_places → NoFrame w ns }
    ensures begins { (ns : List ℕ) → (w : World) → (s : State) → (f : ℕ) → (args : List ℤ) → Shows ns w (seen s)
        → s.keys in_rest key_below ≡ Some (below_tree []) → length s.places ≤ score_places
        → or_zero (s.scores score_trap) ≡ pos 0 → s.keys in_rest key_next ≡ Some (id_tree (body_piece f 0))
        → s.keys in_rest key_args ≡ Some (ints args) → Begins w ns f args }
{}

/// Law: what the first blocks leave in a place. Nothing else differs then but scratch scores of routines.
pub fn blocks_make_places()
    ensures constant { (s : State) → (i : ℕ) → (z : ℤ) → i < length s.places
        → (t : State) × Straight (constant_steps i z) s t × Replaced s t i (z ∷ []) }
    ensures copy { (s : State) → (i : ℕ) → (j : ℕ) → i < length s.places → j < length s.places
        → (t : State) × Straight (copy_steps i j) s t × Replaced s t j (place_at s i ∷ []) }
    ensures less { (s : State) → (i : ℕ) → (j : ℕ) → (r : ℕ) → is_int (place_at s i) ≡ true
        → is_int (place_at s j) ≡ true → i < length s.places → j < length s.places → r < length s.places
        → (t : State) × Straight (less_unsigned_steps i j r) s t
        × Replaced s t r (less_unsigned (place_at s i) (place_at s j) ∷ []) }
{}

/// Law: the lines of steps under the namespace `x`, renamed to another, are the lines of the steps under that one.
pub fn lines_are_renamed()
    ensures { (ns : List ℕ) → (xs : List Step) → StepsPlain xs
        → under ns (steps_texts (codes "x") xs) ≡ steps_texts ns xs }
{}
