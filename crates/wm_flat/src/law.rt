// Laws of the machine, which the crates above cite: the contract of each function is the law, and it does nothing.
ghost use Rattle.std.specs.Prelude.{◌≡◌, ◌<◌, ◌≤◌, ◌+◌, ℕ, suc, List, reverse};
ghost use Rattle.mc_nbt.specs.declared.value.Value.{Value};
ghost use Rattle.wm_ast.specs.declared.answer.TrapKind.{TrapKind};
ghost use Rattle.wm_ast.specs.declared.module.Module.{Module};
ghost use Rattle.wm_ast.specs.After.{after, IsNext, Outcome, Ends, Traps, HasOutcome};
ghost use Rattle.wm_ast.specs.Configuration.{Config};
ghost use Rattle.wm_ast.specs.Instance.{call_config, first_config, first_store};
ghost use Rattle.wm_ast.specs.Step.{Next, Ended, Trapped};
ghost use Rattle.wm_ast.specs.Store.{Store};
ghost use Rattle.wm_flat.specs.Flat.{Level, Activation, Flat, running, over, fails, none, call_flat, config_of, first_flat, jump, move};
ghost use Rattle.wm_flat.specs.Operands.{IsCarried};
ghost use Rattle.wm_flat.specs.Runs.{State, config, moved, Leads, Stage};
ghost use Rattle.wm_flat.specs.Steps.{IsStuck, Steps};

/// Law: each move is just the steps of the reduction that it tells. A constant is no step, a branch that is taken on a
/// condition or by a table and a call through the table are two, and everything else is one. Where an activation has no
/// move the reduction comes to a term for which it has no rule.
pub fn moves_agree()
    ensures steps { (m : Module) (s : Store) (c : Flat) → Steps m s (config_of s c) (move m s c) }
    ensures stuck { (m : Module) (s : Store) (cs : List Activation) (a : Activation)
        → move m s (running cs a) ≡ none
        → IsStuck m (config_of s (running cs a)) }
{}

/// Law: what moves tell of the reduction, where by moves of `n` steps in all the state `c` leads to the state `d`.
pub fn runs_agree()
    // While an activation goes on, its term is what the reduction has come to.
    ensures stands_at { (m : Module) (n : ℕ) (c : State) (s : Store) (cs : List Activation) (a : Activation)
        → Leads m n c (record { store = s; flat = running cs a })
        → after m (config c) n ≡ Next (config_of s (running cs a)) }
    // Where the reduction doesn't go on after `i` steps, the machine has made fewer there.
    ensures open_at { (m : Module) (n i : ℕ) (c : State) (s : Store) (cs : List Activation) (a : Activation)
        → Leads m n c (record { store = s; flat = running cs a })
        → (¬ IsNext (after m (config c) i))
        → n < i }
    // At the end the reduction has ended with the same results and the same store, and stays so.
    ensures ends { (m : Module) (n j : ℕ) (c d : State) (vs : List Value)
        → Leads m n c d
        → moved m d ≡ over vs
        → after m (config c) (n + j) ≡ Ended (reverse vs) d.store }
    // At a trap the reduction traps, and stays so.
    ensures trap_after { (m : Module) (n i j : ℕ) (k : TrapKind) (c d : State)
        → Leads m n c d
        → moved m d ≡ fails i k
        → after m (config c) (n + i + suc j) ≡ Trapped k d.store }
    // Before a trap it goes on.
    ensures trap_open { (m : Module) (n i j : ℕ) (k : TrapKind) (c d : State)
        → Leads m n c d
        → moved m d ≡ fails i k
        → j ≤ n + i
        → IsNext (after m (config c) j) }
{}

/// Law: at most one thing becomes of a configuration, and the last move tells it.
pub fn outcome_is_one()
    ensures one { (m : Module) (c : Config) (x y : Outcome) → HasOutcome m c x → HasOutcome m c y → x ≡ y }
    ensures end { (m : Module) (n : ℕ) (c d : State) (vs : List Value)
        → Leads m n c d
        → moved m d ≡ over vs
        → HasOutcome m (config c) (Ends (reverse vs) d.store) }
    ensures trap { (m : Module) (n i : ℕ) (k : TrapKind) (c d : State)
        → Leads m n c d
        → moved m d ≡ fails i k
        → HasOutcome m (config c) (Traps k d.store) }
{}

/// Law: the machine begins where a program and where a call of a function begin.
pub fn beginnings_agree()
    ensures program { (m : Module) → config_of (first_store m) (first_flat m.start) ≡ first_config m }
    ensures call { (s : Store) (f : ℕ) (arguments : List Value)
        → config_of s (call_flat f arguments) ≡ call_config s f arguments }
{}

/// Law: for each number of steps there is a state to which moves lead within it, and whose next move reaches past it or is
/// the last one.
pub fn each_count_is_reached()
    ensures { (m : Module) (c : State) (n : ℕ) → Stage m c n }
{}

/// Law: a branch leaves the operands under its target, and over them as many of its own as the target takes.
pub fn branches_keep_operands()
    ensures { (m : Module) (s : Store) (cs : List Activation) (a : Activation) (n l : ℕ) (vs : List Value) (lvs : List Level)
        → IsCarried vs lvs (jump m s cs a n l vs lvs) }
{}
