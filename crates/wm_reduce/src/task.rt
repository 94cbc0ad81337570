ghost use Rattle.std.specs.Prelude.{◌≡◌, is_none};
ghost use Rattle.wm_reduce.specs.State.{after_end, after_trap};
ghost use Rattle.wm_reduce.specs.TermView.{task_term, has_failed};

use crate::calls::Term;
use crate::stack::Stack;
use mc_nbt::Value;
use wm_ast::TrapKind;

/// What a step did.
#[derive(Clone, Copy, Debug, PartialEq, Eq)]
pub enum Moved {
    /// The term is another one, which goes on.
    Next,
    /// The term was values alone: the result, where there is one.
    Ended(Option<Value>),
    /// The term is given up.
    Trapped(TrapKind),
}

/// Why a call is refused. Of the causes that are there at once the first one is told, `Memory` first of all.
#[derive(Clone, Copy, Debug, PartialEq, Eq)]
pub enum CallFault {
    /// There is no function export at this position.
    NoFunction,
    /// The arguments differ in number or kinds from the parameters of the function.
    WrongArgs,
    /// A term is under reduction.
    Busy,
    /// The start function trapped.
    Dead,
    /// Memory is wanting, or was before.
    Memory,
}

/// How far a program is: its start function is under reduction, it can be called, or its start function trapped.
#[derive(Clone, Copy, Debug, PartialEq, Eq)]
pub enum Phase {
    Starting,
    Ready,
    Dead,
}

impl Phase {
    /// How far a program is after the end of a term.
    pub(crate) fn after_end(self) -> Phase
        ensures { result ≡ after_end self }
    {
        match self {
            Phase::Starting => Phase::Ready,
            Phase::Ready => Phase::Ready,
            Phase::Dead => Phase::Dead,
        }
    }

    /// How far a program is after a trap.
    pub(crate) fn after_trap(self) -> Phase
        ensures { result ≡ after_trap self }
    {
        match self {
            Phase::Starting => Phase::Dead,
            Phase::Ready => Phase::Ready,
            Phase::Dead => Phase::Dead,
        }
    }
}

/// What a reduction is at.
#[derive(Drop)]
pub(crate) enum Task<'a> {
    /// Nothing, and how the last term ended.
    Resting(Moved),
    /// A call from outside that hasn't begun.
    Calling { func: u32, arguments: Stack<Value> },
    Reducing(Term<'a>),
    /// Memory was wanting.
    Failed,
}

impl<'a> Task<'a> {
    /// Whether memory was wanting.
    pub(crate) fn has_failed(&self) -> bool
        ensures { result ≡ has_failed self.now }
    {
        match self {
            Task::Failed => true,
            Task::Resting(_) => false,
            Task::Calling { .. } => false,
            Task::Reducing(_) => false,
        }
    }

    /// Whether there is no term under reduction.
    pub(crate) fn is_idle(&self) -> bool
        ensures { result ≡ is_none (task_term self.now) }
    {
        match self {
            Task::Failed => true,
            Task::Resting(_) => true,
            Task::Calling { .. } => false,
            Task::Reducing(_) => false,
        }
    }
}
