// One step of the reduction.
ghost use Rattle.std.specs.Prelude.{◌≡◌, ◌∷◌, Some, None, IfOk};
ghost use Rattle.wm_ast.specs.Code.{constant_of};
ghost use Rattle.wm_ast.specs.Step.{step, Next};
ghost use Rattle.wm_ast.specs.Store.{Store};
ghost use Rattle.wm_ast.specs.View.{op_of, code_of};
ghost use Rattle.wm_flat.specs.Flat.{config_of, running, starting};
ghost use Rattle.wm_reduce.specs.TermView.{store_of};
ghost use Rattle.wm_reduce.specs.TermView.{flat_of, seen, seen_calls};
ghost use Rattle.wm_reduce.specs.steps.Seen.{StepsTo, Comes, Advances, ready};
ghost use Rattle.wm_reduce.specs.Soundness.{IsKept, CanBegin};
ghost use Rattle.wm_reduce.specs.steps.Plain.{IsPlain};

use crate::calls::{Activation, Calls, LoopStart, Outcome, Pending, Term, open, skip_constants};
use crate::function::find_function;
use crate::simple::{Executed, Storage, execute};
use crate::stack::Stack;
use mc_nbt::{Memory, Value};
use std::alloc::Global;
use wm_ast::{Instr, Module, TrapKind};

impl<'a> Calls<'a> {
    // An instruction without a body that goes to no other place. It stands first in `code`, before `rest`.
    fn plain(
        self,
        m: &'a Module,
        storage: &mut Storage,
        instr: &'a Instr,
        rest: &'a [Instr],
        code: &'a [Instr],
    ) -> Result<Outcome<'a>, Memory>
        requires plain { IsPlain (op_of instr.now) }
        requires first { code.now ≡ instr.now ∷ rest.now }
        ensures { IfOk result (λ o. StepsTo m.now (store_of storage.old) (ready self.entry (op_of instr.now) (code_of rest.now)) o (store_of storage.new)) }
    {
        let Calls { callers, current } = self;
        let Activation {
            func,
            gives,
            mut locals,
            blocks,
            mut values,
            ..
        } = current;
        match execute(m, storage, &mut locals, &mut values, instr)? {
            Executed::Done => {
                let current = Activation {
                    func,
                    gives,
                    pending: None,
                    code: rest,
                    locals,
                    blocks,
                    values,
                };
                Ok(Outcome::Next(Term::Running(Calls { callers, current })))
            }
            Executed::Again => {
                let current = Activation {
                    func,
                    gives,
                    pending: None,
                    code,
                    locals,
                    blocks,
                    values,
                };
                Ok(Outcome::Next(Term::Running(Calls { callers, current })))
            }
            Executed::Fault(trap) => Ok(Outcome::Trapped(trap)),
            Executed::Unfit => Ok(Outcome::Stuck),
        }
    }

    // An instruction that is no constant. It stands first in `code`, before `rest`.
    fn dispatch(
        self,
        alloc: Global,
        m: &'a Module,
        storage: &mut Storage,
        instr: &'a Instr,
        rest: &'a [Instr],
        code: &'a [Instr],
    ) -> Result<Outcome<'a>, Memory>
        requires no_constant { constant_of (op_of instr.now) ≡ None }
        requires first { code.now ≡ instr.now ∷ rest.now }
        ensures { IfOk result (λ o. StepsTo m.now (store_of storage.old) (ready self.entry (op_of instr.now) (code_of rest.now)) o (store_of storage.new)) }
    {
        match instr {
            Instr::Block { ty, body } => self.block(alloc, *ty, body.as_slice(), rest),
            Instr::Loop { ty, body } => {
                let start = LoopStart {
                    ty: *ty,
                    body: body.as_slice(),
                };
                self.start_loop(alloc, start, rest)
            }
            Instr::If { ty, yes, no } => {
                self.choose(alloc, *ty, yes.as_slice(), no.as_slice(), rest)
            }
            Instr::Br(label) => self.branch(*label),
            Instr::BrIf(label) => Ok(self.branch_if(*label, rest)),
            Instr::BrTable { labels, last } => {
                Ok(self.branch_table(labels.as_slice(), *last, rest))
            }
            Instr::Return => self.leave_frame(alloc),
            Instr::Call(func) => self.call(alloc, m, *func, rest),
            Instr::CallIndirect(ty) => {
                Ok(self.call_indirect(m, storage.table.as_slice(), *ty, rest))
            }
            Instr::Const(_) => unreachable!(),
            _ => self.plain(m, storage, instr, rest, code),
        }
    }

    // What is next in the sequence, where nothing is pending.
    fn next(
        mut self,
        alloc: Global,
        m: &'a Module,
        storage: &mut Storage,
    ) -> Result<Outcome<'a>, Memory>
        requires { self.current.pending ≡ None }
        ensures { IfOk result (λ o. Comes m.now (config_of (store_of storage.old) (running (seen_calls self.entry.callers) (seen self.entry.current))) o (store_of storage.new)) }
    {
        let code = skip_constants(self.current.code, &mut self.current.values)?;
        match code {
            [] => self.leave(),
            [instr, rest @ ..] => self.dispatch(alloc, m, storage, instr, rest, code),
        }
    }

    // What is pending.
    fn resume(
        self,
        alloc: Global,
        m: &'a Module,
        pending: Pending<'a>,
    ) -> Result<Outcome<'a>, Memory>
        requires { self.current.pending ≡ Some pending }
        ensures { IfOk result (λ o. (s : Store) → Comes m.now (config_of s (running (seen_calls self.entry.callers) (seen self.entry.current))) o s) }
    {
        let code = self.current.code;
        match pending {
            Pending::Branch(label) => self.branch(label),
            Pending::Call(func) => self.call(alloc, m, func, code),
            Pending::Again(start) => self.start_loop(alloc, start, code),
        }
    }

    /// One step of calls under way.
    pub(crate) fn step(
        self,
        alloc: Global,
        m: &'a Module,
        storage: &mut Storage,
    ) -> Result<Outcome<'a>, Memory>
        ensures { IfOk result (λ o. Comes m.now (config_of (store_of storage.old) (running (seen_calls self.entry.callers) (seen self.entry.current))) o (store_of storage.new)) }
    {
        match self.current.pending {
            None => self.next(alloc, m, storage),
            Some(pending) => self.resume(alloc, m, pending),
        }
    }
}

/// One step of a call from outside that hasn't begun. There has to be such a function, and it has to take so many
/// arguments.
pub(crate) fn begin<'a>(
    alloc: Global,
    m: &'a Module,
    func: u32,
    mut arguments: Stack<Value>,
) -> Result<Calls<'a>, Memory>
    requires { CanBegin m.now func arguments }
    ensures { IfOk result (λ c. (s : Store) → step m.now (config_of s (starting func arguments)) ≡ Next (config_of s (running (seen_calls c.callers) (seen c.current)))) }
{
    let Some(function) = find_function(m, func) else {
        unreachable!()
    };
    let current = open(alloc, func, function, &mut arguments)?;
    Ok(Calls {
        callers: Stack::new(alloc),
        current,
    })
}

/// What a step of a term comes to that is never stuck.
#[derive(Drop)]
pub(crate) enum Advance<'a> {
    Next(Term<'a>),
    Ended(Option<Value>),
    Trapped(TrapKind),
}

/// One step of a term that is never stuck and ends with at most one value.
pub(crate) fn take_step<'a>(
    alloc: Global,
    m: &'a Module,
    storage: &mut Storage,
    term: Term<'a>,
) -> Result<Advance<'a>, Memory>
    requires { IsKept m.now (config_of (store_of storage.old) (flat_of term)) }
    ensures { IfOk result (λ a. Advances m.now (config_of (store_of storage.old) (flat_of term.entry)) a (store_of storage.new)) }
{
    match term {
        Term::Running(calls) => match calls.step(alloc, m, storage)? {
            Outcome::Next(term) => Ok(Advance::Next(term)),
            Outcome::Trapped(trap) => Ok(Advance::Trapped(trap)),
            Outcome::Stuck => unreachable!(),
        },
        Term::Finished(mut values) => Ok(Advance::Ended(values.pop())),
    }
}
