// Calls under way, and what instructions of control make of them (4.4.5 to 4.4.7).
ghost use Rattle.std.specs.Int.{w32};
ghost use Rattle.std.specs.Prelude.{FitsSigned, ◌≡◌, ◌≤◌, take, drop, [], ◌∷◌, Some, None, IfOk, OnOk, MatchOption, length};
ghost use Rattle.wm_ast.specs.declared.module.Module.{Module as AnyModule};
ghost use Rattle.wm_ast.specs.Code.{Code, nil, block, loop, if_else, br, br_if, br_table, return, call, call_indirect};
ghost use Rattle.wm_ast.specs.Configuration.{after_values, items_of};
ghost use Rattle.wm_ast.specs.Step.{arity, top, chosen};
ghost use Rattle.wm_ast.specs.Store.{Store, Callee};
ghost use Rattle.wm_ast.specs.View.{code_of};
ghost use Rattle.wm_flat.specs.Flat.{Activation as FlatActivation, running};
ghost use Rattle.wm_reduce.specs.TermView.{seen, seen_calls};
ghost use Rattle.wm_reduce.specs.steps.Seen.{StepsTo, ready, at_end, Shows, begun, IsEntered};
ghost use Rattle.wm_reduce.specs.steps.Values.{first_i32, IsCarried, IsReady};
ghost use Rattle.mc_nbt.specs.declared.value.Value.TheVariants.{I32};

use crate::function::{Function, Target, add_zeros, find_function, find_target};
use crate::stack::Stack;
use mc_nbt::{Memory, Value};
use std::alloc::Global;
use wm_ast::{Instr, MAX_FRAMES, Module, TrapKind, U32s, ValType};

/// A loop: what it gives, and its body.
#[derive(Clone, Copy)]
pub(crate) struct LoopStart<'a> {
    pub(crate) ty: Option<ValType>,
    pub(crate) body: &'a [Instr],
}

/// Where a branch to a block goes on: behind it, with what it gives, or at the loop itself.
#[derive(Clone, Copy)]
pub(crate) enum Label<'a> {
    Behind(Option<ValType>),
    Again(LoopStart<'a>),
}

/// A block that the next instruction stands in, what stands behind it, and the operands under it in its sequence.
#[derive(Drop)]
pub(crate) struct Block<'a> {
    pub(crate) label: Label<'a>,
    pub(crate) rest: &'a [Instr],
    pub(crate) values: Stack<Value>,
}

/// An instruction that a step left in the place of another one.
#[derive(Clone, Copy)]
pub(crate) enum Pending<'a> {
    Branch(u32),
    Call(u32),
    Again(LoopStart<'a>),
}

/// A call that hasn't returned. What it does next is what is pending, and then what is left of its sequence.
#[derive(Drop)]
pub(crate) struct Activation<'a> {
    pub(crate) func: u32,
    pub(crate) gives: Option<ValType>,
    pub(crate) pending: Option<Pending<'a>>,
    pub(crate) code: &'a [Instr],
    pub(crate) locals: Vec<Value>,
    pub(crate) blocks: Stack<Block<'a>>,
    pub(crate) values: Stack<Value>,
}

/// The calls under way: one that goes on, and its callers.
#[derive(Drop)]
pub(crate) struct Calls<'a> {
    pub(crate) callers: Stack<Activation<'a>>,
    pub(crate) current: Activation<'a>,
}

/// What is under reduction: calls under way, or results.
#[derive(Drop)]
pub(crate) enum Term<'a> {
    Running(Calls<'a>),
    Finished(Stack<Value>),
}

/// What a step comes to. Where no rule fits it is stuck, which no valid module is.
#[derive(Drop)]
pub(crate) enum Outcome<'a> {
    Next(Term<'a>),
    Trapped(TrapKind),
    Stuck,
}

/// Takes a number of the type i32 from the top. Where there is none the operands may be fewer.
pub(crate) fn pop_i32(values: &mut Stack<Value>) -> Option<i32>
    ensures { MatchOption result (first_i32 values.old ≡ None) (λ n. (values.old ≡ I32 n ∷ values.new) × FitsSigned w32 n) }
{
    match values.pop() {
        Some(Value::I32(number)) => Some(number),
        _ => None,
    }
}

// Puts the values that a branch or a return takes along on top of others. Gives false exactly where there are too few.
fn carry(
    mut values: Stack<Value>,
    gives: Option<ValType>,
    under: &mut Stack<Value>,
) -> Result<bool, Memory>
    ensures { IfOk result (λ there. IsCarried there (top (arity gives) values) under.old under.new) }
{
    match gives {
        None => Ok(true),
        Some(_) => match values.pop() {
            None => Ok(false),
            Some(value) => {
                under.push(value)?;
                Ok(true)
            }
        },
    }
}

/// The constants at the start of a sequence are operands. Gives what stands behind them.
pub(crate) fn skip_constants<'a>(
    code: &'a [Instr],
    values: &mut Stack<Value>,
) -> Result<&'a [Instr], Memory>
    ensures same { IfOk result (λ rest. after_values values.new (items_of (code_of rest.now)) ≡ after_values values.old (items_of (code_of code.now))) }
    ensures ready { IfOk result (λ rest. IsReady (code_of rest.now)) }
{
    let mut rest = code;
    while let [Instr::Const(value), others @ ..] = rest {
        values.push(*value)?;
        rest = others;
    }
    Ok(rest)
}

// Results go to the caller, or outside where there is none.
fn hand_over<'a>(
    mut callers: Stack<Activation<'a>>,
    results: Stack<Value>,
) -> Result<Outcome<'a>, Memory>
    ensures { IfOk result (λ o. (m : AnyModule) (s : Store) (a : FlatActivation)
        → a.code ≡ nil → a.levels ≡ [] → a.values ≡ results
        → StepsTo m s (running (seen_calls callers.entry) a) o s) }
{
    match callers.pop() {
        None => Ok(Outcome::Next(Term::Finished(results))),
        Some(mut caller) => {
            caller.values.push_all(results)?;
            Ok(Outcome::Next(Term::Running(Calls {
                callers,
                current: caller,
            })))
        }
    }
}

impl<'a> Calls<'a> {
    // Goes on with these instructions.
    pub(crate) fn go_on(self, pending: Option<Pending<'a>>, code: &'a [Instr]) -> Calls<'a>
        ensures { result ≡ record self.entry { current = record self.entry.current { pending = pending.entry; code = code.entry } } }
    {
        let Calls { callers, current } = self;
        let Activation {
            func,
            gives,
            locals,
            blocks,
            values,
            ..
        } = current;
        let current = Activation {
            func,
            gives,
            pending,
            code,
            locals,
            blocks,
            values,
        };
        Calls { callers, current }
    }

    // Goes into a block, in whose place these instructions stand.
    fn enter(
        self,
        alloc: Global,
        label: Label<'a>,
        body: &'a [Instr],
        rest: &'a [Instr],
    ) -> Result<Calls<'a>, Memory>
        ensures { IfOk result (λ c. IsEntered self.entry label.entry body.entry rest.entry c) }
    {
        let Calls { callers, current } = self;
        let Activation {
            func,
            gives,
            locals,
            mut blocks,
            values,
            ..
        } = current;
        blocks.push(Block {
            label,
            rest,
            values,
        })?;
        let current = Activation {
            func,
            gives,
            pending: None,
            code: body,
            locals,
            blocks,
            values: Stack::new(alloc),
        };
        Ok(Calls { callers, current })
    }

    // `block`, and an arm of an `if` (4.4.5.3, 4.4.5.5).
    pub(crate) fn block(
        self,
        alloc: Global,
        ty: Option<ValType>,
        body: &'a [Instr],
        rest: &'a [Instr],
    ) -> Result<Outcome<'a>, Memory>
        ensures { IfOk result (λ o. (m : AnyModule) (s : Store)
            → StepsTo m s (ready self.entry (block ty (code_of body.now)) (code_of rest.now)) o s) }
    {
        let entered = self.enter(alloc, Label::Behind(ty), body, rest)?;
        Ok(Outcome::Next(Term::Running(entered)))
    }

    // `loop` (4.4.5.4).
    pub(crate) fn start_loop(
        self,
        alloc: Global,
        start: LoopStart<'a>,
        rest: &'a [Instr],
    ) -> Result<Outcome<'a>, Memory>
        ensures { IfOk result (λ o. (m : AnyModule) (s : Store)
            → StepsTo m s (ready self.entry (loop start.entry.ty (code_of start.entry.body.now)) (code_of rest.now)) o s) }
    {
        let entered = self.enter(alloc, Label::Again(start), start.body, rest)?;
        Ok(Outcome::Next(Term::Running(entered)))
    }

    // `if` (4.4.5.5).
    pub(crate) fn choose(
        mut self,
        alloc: Global,
        ty: Option<ValType>,
        yes: &'a [Instr],
        no: &'a [Instr],
        rest: &'a [Instr],
    ) -> Result<Outcome<'a>, Memory>
        ensures { IfOk result (λ o. (m : AnyModule) (s : Store)
            → StepsTo m s (ready self.entry (if_else ty (code_of yes.now) (code_of no.now)) (code_of rest.now)) o s) }
    {
        let Some(condition) = pop_i32(&mut self.current.values) else {
            return Ok(Outcome::Stuck);
        };
        if condition == 0 {
            let second = self.enter(alloc, Label::Behind(ty), no, rest)?;
            return Ok(Outcome::Next(Term::Running(second)));
        }
        let first = self.enter(alloc, Label::Behind(ty), yes, rest)?;
        Ok(Outcome::Next(Term::Running(first)))
    }

    // `br` (4.4.5.6).
    pub(crate) fn branch(self, label: u32) -> Result<Outcome<'a>, Memory>
        ensures { IfOk result (λ o. (m : AnyModule) (s : Store) (is : Code) → StepsTo m s (ready self.entry (br label) is) o s) }
    {
        let Calls { callers, current } = self;
        let Activation {
            func,
            gives,
            locals,
            mut blocks,
            values,
            ..
        } = current;
        blocks.drop_top(label as usize);
        let Some(block) = blocks.pop() else {
            return Ok(Outcome::Stuck);
        };
        let Block {
            label,
            rest,
            values: mut under,
        } = block;
        match label {
            Label::Behind(ty) => {
                if !carry(values, ty, &mut under)? {
                    return Ok(Outcome::Stuck);
                }
                let current = Activation {
                    func,
                    gives,
                    pending: None,
                    code: rest,
                    locals,
                    blocks,
                    values: under,
                };
                Ok(Outcome::Next(Term::Running(Calls { callers, current })))
            }
            Label::Again(start) => {
                let current = Activation {
                    func,
                    gives,
                    pending: Some(Pending::Again(start)),
                    code: rest,
                    locals,
                    blocks,
                    values: under,
                };
                Ok(Outcome::Next(Term::Running(Calls { callers, current })))
            }
        }
    }

    // `br_if` (4.4.5.7). The branch is a step of its own.
    pub(crate) fn branch_if(mut self, label: u32, rest: &'a [Instr]) -> Outcome<'a>
        ensures { (m : AnyModule) (s : Store) → StepsTo m s (ready self.entry (br_if label) (code_of rest.now)) result s }
    {
        let Some(condition) = pop_i32(&mut self.current.values) else {
            return Outcome::Stuck;
        };
        if condition == 0 {
            return Outcome::Next(Term::Running(self.go_on(None, rest)));
        }
        let taken = self.go_on(Some(Pending::Branch(label)), rest);
        Outcome::Next(Term::Running(taken))
    }

    // `br_table` (4.4.5.8). The branch is a step of its own.
    pub(crate) fn branch_table(
        mut self,
        labels: &[u32],
        last: u32,
        rest: &'a [Instr],
    ) -> Outcome<'a>
        ensures { (m : AnyModule) (s : Store)
            → StepsTo m s (ready self.entry (br_table labels.now last) (code_of rest.now)) result s }
    {
        let Some(index) = pop_i32(&mut self.current.values) else {
            return Outcome::Stuck;
        };
        Outcome::Next(Term::Running(self.go_on(
            Some(Pending::Branch(chosen(labels, last, index))),
            rest,
        )))
    }

    // `return` (4.4.5.9).
    pub(crate) fn leave_frame(self, alloc: Global) -> Result<Outcome<'a>, Memory>
        ensures { IfOk result (λ o. (m : AnyModule) (s : Store) (is : Code) → StepsTo m s (ready self.entry return is) o s) }
    {
        let Calls {
            mut callers,
            current,
        } = self;
        let Activation { gives, values, .. } = current;
        match callers.pop() {
            None => {
                let mut results = Stack::new(alloc);
                if !carry(values, gives, &mut results)? {
                    return Ok(Outcome::Stuck);
                }
                Ok(Outcome::Next(Term::Finished(results)))
            }
            Some(mut caller) => {
                if !carry(values, gives, &mut caller.values)? {
                    return Ok(Outcome::Stuck);
                }
                Ok(Outcome::Next(Term::Running(Calls {
                    callers,
                    current: caller,
                })))
            }
        }
    }

    // The end of a sequence: of a block, or of a function (4.4.6.2, 4.4.7.2).
    pub(crate) fn leave(self) -> Result<Outcome<'a>, Memory>
        ensures { IfOk result (λ o. (m : AnyModule) (s : Store) → StepsTo m s (at_end self.entry) o s) }
    {
        let Calls { callers, current } = self;
        let Activation {
            func,
            gives,
            locals,
            mut blocks,
            values,
            ..
        } = current;
        match blocks.pop() {
            None => hand_over(callers, values),
            Some(block) => {
                let Block {
                    rest,
                    values: mut under,
                    ..
                } = block;
                under.push_all(values)?;
                let current = Activation {
                    func,
                    gives,
                    pending: None,
                    code: rest,
                    locals,
                    blocks,
                    values: under,
                };
                Ok(Outcome::Next(Term::Running(Calls { callers, current })))
            }
        }
    }

    // `call` (4.4.5.10, 4.4.7.1).
    pub(crate) fn call(
        mut self,
        alloc: Global,
        m: &'a Module,
        index: u32,
        rest: &'a [Instr],
    ) -> Result<Outcome<'a>, Memory>
        ensures { IfOk result (λ o. (s : Store) → StepsTo m.now s (ready self.entry (call index) (code_of rest.now)) o s) }
    {
        let Some(function) = find_function(m, index) else {
            return Ok(Outcome::Stuck);
        };
        if self.callers.len() >= MAX_FRAMES as usize - 1 {
            return Ok(Outcome::Trapped(TrapKind::StackExhausted));
        }
        if self.current.values.len() < function.takes {
            return Ok(Outcome::Stuck);
        }
        let Calls {
            mut callers,
            current: mut caller,
        } = self.go_on(None, rest);
        let called = open(alloc, index, function, &mut caller.values)?;
        callers.push(caller)?;
        Ok(Outcome::Next(Term::Running(Calls {
            callers,
            current: called,
        })))
    }

    // `call_indirect` (4.4.5.11). The call is a step of its own.
    pub(crate) fn call_indirect(
        mut self,
        m: &'a Module,
        table: &[Option<u32>],
        ty: u32,
        rest: &'a [Instr],
    ) -> Outcome<'a>
        ensures { (s : Store) → s.table ≡ table.now → StepsTo m.now s (ready self.entry (call_indirect ty) (code_of rest.now)) result s }
    {
        let Some(index) = pop_i32(&mut self.current.values) else {
            return Outcome::Stuck;
        };
        match find_target(m, table, ty, index.cast_unsigned()) {
            Target::Function(func) => {
                Outcome::Next(Term::Running(self.go_on(Some(Pending::Call(func)), rest)))
            }
            Target::Refused(trap) => Outcome::Trapped(trap),
            Target::Unknown => Outcome::Stuck,
        }
    }
}

// The label of a `br_table`: the one at the index, and else the default.
fn chosen(labels: &[u32], last: u32, index: i32) -> u32
    ensures { result ≡ chosen labels.now last index }
{
    match labels.get(index.cast_unsigned() as usize) {
        None => last,
        Some(label) => *label,
    }
}

/// The activation of a function over its arguments, which it takes from the top.
pub(crate) fn open<'a>(
    alloc: Global,
    func: u32,
    function: Function<'a>,
    values: &mut Stack<Value>,
) -> Result<Activation<'a>, Memory>
    requires { function.takes ≤ length values.old }
    ensures opened { IfOk result (λ a. (c : Callee) → Shows function.entry c
        → seen a ≡ begun func c (take (length c.takes) values.old)) }
    ensures rest { OnOk result (values.new ≡ drop function.entry.takes values.old) }
{
    let mut locals = Vec::new(alloc);
    values.move_top(function.takes, &mut locals)?;
    add_zeros(&mut locals, function.locals)?;
    let mut blocks = Stack::new(alloc);
    blocks.push(Block {
        label: Label::Behind(function.gives),
        rest: &[],
        values: Stack::new(alloc),
    })?;
    Ok(Activation {
        func,
        gives: function.gives,
        pending: None,
        code: function.body,
        locals,
        blocks,
        values: Stack::new(alloc),
    })
}
