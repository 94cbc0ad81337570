ghost use Rattle.std.specs.Prelude.{◌≡◌, option_map};
ghost use Rattle.std.specs.Result.{result_err};
ghost use Rattle.wm_profile.specs.Cause.{at, first_mul64, first_mul64_after_globals, mul64_at};

use crate::ProfileFault;
use crate::expression::first_with_product;
use wm_ast::{Item, Module};

/// That there is no `i64.mul`.
///
/// # Errors
///
/// `Mul64` exactly where there is one: the first item that has one.
pub(crate) fn check_products(m: &Module) -> Result<(), ProfileFault>
    ensures { result_err result ≡ option_map mul64_at (first_mul64 m.now) }
{
    no_product(Item::Globals, first_with_product(m.globals.as_slice()))?;
    check_products_after_globals(m)
}

fn check_products_after_globals(m: &Module) -> Result<(), ProfileFault>
    ensures { result_err result ≡ option_map mul64_at (first_mul64_after_globals m.now) }
{
    no_product(Item::Elements, first_with_product(m.elems.as_slice()))?;
    no_product(Item::Datas, first_with_product(m.datas.as_slice()))?;
    no_product(Item::Functions, first_with_product(m.funcs.as_slice()))
}

fn no_product(item: Item, first: Option<usize>) -> Result<(), ProfileFault>
    ensures { result_err result ≡ option_map mul64_at (at item first) }
{
    match first {
        None => Ok(()),
        Some(index) => Err(ProfileFault::Mul64 {
            item,
            index: index as u64,
        }),
    }
}
