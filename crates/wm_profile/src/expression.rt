ghost use Rattle.std.specs.Prelude.{◌≡◌, position, map};
ghost use Rattle.wm_ast.specs.Code.{Code};
ghost use Rattle.wm_ast.specs.View.{code_of};
ghost use Rattle.wm_ast.specs.Profile.{global_code, element_code, data_code, function_code, has_float_code, has_mul64_code};
ghost use Rattle.wm_profile.specs.steps.Counted.{labels_beyond};

use crate::instructions::{has_float, has_product, too_many_labels};
use wm_ast::{Data, Elem, Func, Global, Instr};

/// An item that has an expression: the first value of a global, the offset of a segment, or the body of a function.
pub(crate) trait Expression {
    ghost expression: { Self → Code };

    /// The instructions of the expression.
    fn instructions(&self) -> &[Instr]
        ensures { code_of result.now ≡ expression self.now };
}

impl Expression for Global {
    ghost expression = { global_code };

    fn instructions(&self) -> &[Instr] {
        self.init.as_slice()
    }
}

impl Expression for Elem {
    ghost expression = { element_code };

    fn instructions(&self) -> &[Instr] {
        self.offset.as_slice()
    }
}

impl Expression for Data {
    ghost expression = { data_code };

    fn instructions(&self) -> &[Instr] {
        self.offset.as_slice()
    }
}

impl Expression for Func {
    ghost expression = { function_code };

    fn instructions(&self) -> &[Instr] {
        self.body.as_slice()
    }
}

/// The index of the first item whose expression has an instruction on floats.
pub(crate) fn first_with_float<T: Expression>(items: &[T]) -> Option<usize>
    ensures { result ≡ position (λ x. has_float_code (T.expression x)) items.now }
{
    items.iter().position(|item| has_float(item.instructions()))
}

/// The index of the first item whose expression has an `i64.mul`.
pub(crate) fn first_with_product<T: Expression>(items: &[T]) -> Option<usize>
    ensures { result ≡ position (λ x. has_mul64_code (T.expression x)) items.now }
{
    items
        .iter()
        .position(|item| has_product(item.instructions()))
}

/// The labels of the first `br_table`, in the expressions of these items, that has too many.
pub(crate) fn first_labels_above<T: Expression>(items: &[T]) -> Option<u64>
    ensures { result ≡ labels_beyond (map T.expression items.now) }
{
    for item in items {
        if let Some(labels) = too_many_labels(item.instructions()) {
            return Some(labels);
        }
    }
    None
}
