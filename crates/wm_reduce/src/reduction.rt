ghost use Rattle.std.specs.Prelude.{◌≡◌, IsErr, IfOk, reverse, None, true, false, MatchResult};
ghost use Rattle.wm_flat.specs.Flat.{config_of};
ghost use Rattle.wm_ast.specs.Step.{step};
ghost use Rattle.wm_flat.specs.Program.{IsProgram};
ghost use Rattle.wm_reduce.specs.Call.{IsCalled, called, first_state};
ghost use Rattle.wm_reduce.specs.State.{Steps, Answers};
ghost use Rattle.wm_reduce.specs.Soundness.{IsKept};
ghost use Rattle.wm_reduce.specs.TermView.{store_of};
ghost use Rattle.wm_reduce.specs.TermView.{flat_of};
ghost use Rattle.wm_reduce.specs.TermView.{has_failed};
ghost use Rattle.wm_reduce.specs.steps.Task.{Keeps, CanCall};

use crate::calls::Term;
use crate::instance::first_storage;
use crate::invocation::{find_export, takes};
use crate::simple::Storage;
use crate::stack::Stack;
use crate::step::{Advance, begin, take_step};
use crate::task::{CallFault, Moved, Phase, Task};
use mc_nbt::{Memory, Value};
use std::alloc::Global;
use std::mem;
use wm_ast::Module;
use wm_valid::Typed;

/// The reduction of a program, step by step.
#[derive(Drop)]
pub struct Reduction<'a> {
    alloc: Global,
    module: &'a Module,
    storage: Storage,
    task: Task<'a>,
    phase: Phase,
    ghost program: { ∥ IsProgram «module».now ∥₁ },
    ghost kept: { Keeps «module».now (store_of storage) task },
}

impl<'a> Reduction<'a> {
    ghost use Rattle.wm_reduce.specs.Shown.{shown};

    /// A program after instantiation. Its start function is under reduction, where it has one.
    ///
    /// # Errors
    ///
    /// `Memory` where there is no room for the store.
    pub fn start(alloc: Global, typed: &'a Typed) -> Result<Reduction<'a>, Memory>
        ensures { IfOk result (λ r. shown r ≡ first_state typed.now) }
    {
        let m = typed.module();
        let storage = first_storage(alloc, m)?;
        match m.start {
            None => Ok(Reduction {
                alloc,
                module: m,
                storage,
                task: Task::Resting(Moved::Ended(None)),
                phase: Phase::Ready,
            }),
            Some(func) => Ok(Reduction {
                alloc,
                module: m,
                storage,
                task: Task::Calling {
                    func,
                    arguments: Stack::new(alloc),
                },
                phase: Phase::Starting,
            }),
        }
    }

    /// Puts the call of a function under reduction, over these arguments. `export` is its position among the function
    /// exports.
    ///
    /// # Errors
    ///
    /// The first of these whose cause is there. All but `Memory` leave the reduction as it was.
    ///
    /// - `Memory` where memory was wanting before.
    /// - `NoFunction` where there is no function export at this position.
    /// - `WrongArgs` where the arguments differ in number or kinds from the function's parameters.
    /// - `Busy` where a term is under reduction.
    /// - `Dead` where the start function trapped.
    /// - `Memory` where there is no room for the arguments. The reduction answers `Memory` from then on.
    pub fn call(&mut self, export: u32, arguments: &[Value]) -> Result<(), CallFault>
        ensures { IsCalled (shown self.old) export arguments.now result (shown self.new) }
    {
        if self.task.has_failed() {
            return Err(CallFault::Memory);
        }
        let Some(func) = find_export(self.module, export) else {
            return Err(CallFault::NoFunction);
        };
        if !takes(self.module, func, arguments) {
            return Err(CallFault::WrongArgs);
        }
        if !self.task.is_idle() {
            return Err(CallFault::Busy);
        }
        match self.phase {
            Phase::Dead => Err(CallFault::Dead),
            Phase::Starting => self.put_call(func, arguments),
            Phase::Ready => self.put_call(func, arguments),
        }
    }

    // Puts this call under reduction.
    fn put_call(&mut self, func: u32, arguments: &[Value]) -> Result<(), CallFault>
        requires can { CanCall self.old.module.now (store_of self.old.storage) func (reverse arguments.now) }
        requires running { has_failed self.old.task ≡ false }
        ensures { MatchResult result
            (λ _. shown self.new ≡ called (shown self.old) func arguments.now)
            (λ e. (e ≡ CallFault.Memory) × ((shown self.new).failed ≡ true)) }
    {
        match Stack::from_slice(self.alloc, arguments) {
            Err(Memory) => {
                self.task = Task::Failed;
                Err(CallFault::Memory)
            }
            Ok(arguments) => {
                self.task = Task::Calling { func, arguments };
                Ok(())
            }
        }
    }

    /// The values of the globals. After a step has answered `Memory` nothing is said of which they are.
    pub fn globals(&self) -> &[Value]
        ensures { result.now ≡ (shown self.now).store.globals }
    {
        self.storage.globals.as_slice()
    }

    /// The bytes of the memory, of which there are none where the module has none. After a step has answered `Memory`
    /// nothing is said of which they are.
    pub fn memory(&self) -> &[u8]
        ensures { result.now ≡ (shown self.now).store.memory }
    {
        self.storage.memory.as_slice()
    }

    /// Makes one step of the term under reduction. A term is under reduction until a step has answered `Ended` or
    /// `Trapped` for it. Where none is, the step answers the last `Ended` or `Trapped` again, and `Ended(None)` where
    /// there was none.
    ///
    /// # Errors
    ///
    /// `Memory` where memory is wanting, and at each call after that. Nothing is said then of the globals and the memory.
    pub fn step(&mut self) -> Result<Moved, Memory>
        ensures failed { (shown self.old).failed ≡ true → IsErr result × (shown self.new ≡ shown self.old) }
        ensures steps { (shown self.old).failed ≡ false → MatchResult result
            (λ moved. Steps (shown self.old) (shown self.old).term moved (shown self.new))
            (λ _. (shown self.new).failed ≡ true) }
    {
        match mem::replace(&mut self.task, Task::Failed) {
            Task::Failed => Err(Memory),
            Task::Resting(last) => {
                self.task = Task::Resting(last);
                Ok(last)
            }
            Task::Calling { func, arguments } => {
                match begin(self.alloc, self.module, func, arguments) {
                    Err(Memory) => Err(Memory),
                    Ok(begun) => {
                        self.task = Task::Reducing(Term::Running(begun));
                        Ok(Moved::Next)
                    }
                }
            }
            Task::Reducing(term) => self.advance(term),
        }
    }

    // One step of this term, while the task is none.
    fn advance(&mut self, term: Term<'a>) -> Result<Moved, Memory>
        requires idle { self.old.task ≡ Task.Failed }
        requires kept { IsKept self.old.module.now (config_of (store_of self.old.storage) (flat_of term)) }
        ensures program { self.new.module.now ≡ self.old.module.now }
        ensures steps { MatchResult result
            (λ moved. Answers (record (shown self.old) { last = Moved.Ended None; failed = false }) (step self.old.module.now (config_of (store_of self.old.storage) (flat_of term.entry))) moved (shown self.new))
            (λ _. (shown self.new).failed ≡ true) }
    {
        match take_step(self.alloc, self.module, &mut self.storage, term) {
            Err(Memory) => Err(Memory),
            Ok(Advance::Next(term)) => {
                self.task = Task::Reducing(term);
                Ok(Moved::Next)
            }
            Ok(Advance::Ended(value)) => {
                self.task = Task::Resting(Moved::Ended(value));
                self.phase = self.phase.after_end();
                Ok(Moved::Ended(value))
            }
            Ok(Advance::Trapped(trap)) => {
                self.task = Task::Resting(Moved::Trapped(trap));
                self.phase = self.phase.after_trap();
                Ok(Moved::Trapped(trap))
            }
        }
    }
}
