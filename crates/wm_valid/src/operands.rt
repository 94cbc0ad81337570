// The stack of operands that the typing of a body goes by: section 3.3 of the WebAssembly Core Specification, edition
// 1.0.
ghost use Rattle.std.specs.Prelude.{◌≡◌, reverse, Option, Some};
ghost use Rattle.wm_valid.specs.steps.Checking.{bare, anything, take_any, take_one, take_all, push, push_all, ends_with, agreed, selected, applied, branched};
ghost use Rattle.wm_valid.specs.steps.Found.{Finds, shape, seen};

use crate::fault::Fault;
use crate::signature::Signature;
use std::alloc::Global;
use wm_ast::ValType;

/// The operands that stand, the last at the end. Behind a branch some are unknown, and any may stand below them.
#[derive(Debug, Drop)]
pub(crate) struct Operands {
    known: Vec<Option<ValType>>,
    any_below: bool,
}

// One operand that is both of these.
#[tactic(auto, using(crate::proofs::SameType::same_if_equal))]
fn agree(first: Option<ValType>, second: Option<ValType>) -> Result<Option<ValType>, Fault>
    ensures { Finds (λ k. k) result (agreed first second) }
{
    match (first, second) {
        (None, second) => Ok(second),
        (Some(ty), None) => Ok(Some(ty)),
        (Some(ty), Some(other)) => {
            if ty == other {
                Ok(Some(ty))
            } else {
                Err(Fault::Untyped)
            }
        }
    }
}

impl Operands {
    /// No operands, as a body begins. It takes no memory.
    pub(crate) fn new(alloc: Global) -> Operands
        ensures { shape result ≡ bare }
    {
        Operands {
            known: Vec::new(alloc),
            any_below: false,
        }
    }

    /// Any operands, as behind a branch.
    pub(crate) fn forget(&mut self)
        ensures { shape self.new ≡ anything }
    {
        self.known.clear();
        self.any_below = true;
    }

    /// Takes the last operand, whatever its type, and gives that where it is known.
    pub(crate) fn take_any(&mut self) -> Result<Option<ValType>, Fault>
        ensures { Finds (λ k. (k, shape self.new)) result (take_any (shape self.old)) }
    {
        match self.known.pop() {
            Some(ty) => Ok(ty),
            None => {
                if self.any_below {
                    Ok(None)
                } else {
                    Err(Fault::Untyped)
                }
            }
        }
    }

    /// Takes the last operand, which has to be of this type.
    #[tactic(auto, using(crate::proofs::SameType::same_if_equal))]
    pub(crate) fn take(&mut self, ty: ValType) -> Result<(), Fault>
        ensures { Finds (λ _. shape self.new) result (take_one ty (shape self.old)) }
    {
        match self.take_any()? {
            None => Ok(()),
            Some(found) => {
                if found == ty {
                    Ok(())
                } else {
                    Err(Fault::Untyped)
                }
            }
        }
    }

    /// Takes operands of these types, the last type first. Where any may stand, it stops at once.
    pub(crate) fn take_all(&mut self, types: &[ValType]) -> Result<(), Fault>
        ensures { Finds (λ _. shape self.new) result (take_all (reverse types.now) (shape self.old)) }
    {
        let mut left = types;
        while let [before @ .., last] = left {
            if self.any_below && self.known.is_empty() {
                return Ok(());
            }
            self.take(*last)?;
            left = before;
        }
        Ok(())
    }

    /// Adds an operand.
    pub(crate) fn push(&mut self, ty: Option<ValType>) -> Result<(), Fault>
        ensures { Finds (λ _. shape self.new) result (Some (push ty (shape self.old))) }
    {
        self.known.push(ty)?;
        Ok(())
    }

    /// Adds operands of these types.
    pub(crate) fn push_all(&mut self, types: &[ValType]) -> Result<(), Fault>
        ensures { Finds (λ _. shape self.new) result (Some (push_all (reverse types.now) (shape self.old))) }
    {
        for ty in types {
            self.push(Some(*ty))?;
        }
        Ok(())
    }

    /// Takes and gives what an instruction does.
    pub(crate) fn apply(&mut self, signature: Signature<'_>) -> Result<(), Fault>
        ensures { Finds (λ _. shape self.new) result (applied (shape self.old) (seen signature.entry)) }
    {
        self.take_all(signature.takes)?;
        self.push_all(signature.gives)
    }

    /// Takes the operands of a branch, behind which any may stand.
    pub(crate) fn branch(&mut self, types: &[ValType]) -> Result<(), Fault>
        ensures { Finds (λ _. shape self.new) result (branched (reverse types.now) (shape self.old)) }
    {
        self.take_all(types)?;
        self.forget();
        Ok(())
    }

    /// Takes a condition and two operands of one type, and gives one of these.
    pub(crate) fn select(&mut self) -> Result<(), Fault>
        ensures { Finds (λ _. shape self.new) result (selected (shape self.old)) }
    {
        self.take(ValType::I32)?;
        let second = self.take_any()?;
        let first = self.take_any()?;
        let ty = agree(first, second)?;
        self.push(ty)
    }

    /// Takes the operands that a body gives at its end, where no other stands.
    pub(crate) fn end(&mut self, types: &[ValType]) -> Result<(), Fault>
        ensures { Finds (λ _. tt) result (ends_with (reverse types.now) (shape self.old)) }
    {
        self.take_all(types)?;
        if self.known.is_empty() {
            Ok(())
        } else {
            Err(Fault::Untyped)
        }
    }
}
