ghost use Rattle.std.specs.Prelude.{◌≡◌, ◌↔◌, Some, None, IsOk, IfErr};
ghost use Rattle.std.specs.Result.{result_err};
ghost use Rattle.wm_ast.specs.Profile.{InProfile};
ghost use Rattle.wm_ast.specs.declared.module.Module.{Module as Modules};
ghost use Rattle.wm_profile.specs.Cause.{import_fault, first_fault};

use crate::ProfileFault;
use crate::floats::check_floats;
use crate::limits::check_limits;
use crate::products::check_products;
use crate::segments::check_segments;
use wm_ast::Module;

/// Whether the module is in the profile: whether it has no imports, no floats and no `i64.mul`, is within the
/// limits, and has no segment that reaches beyond its table or memory. The time is linear in the size of the module,
/// and no memory is taken.
///
/// # Errors
///
/// In this order:
///
/// - `Import` exactly where there is an import.
/// - `Float` exactly where an item has a float type or a float instruction; it names the first, in the order types,
///   imports, globals, elements, datas, functions. A run of no locals has its type all the same.
/// - `Mul64` exactly where an item has an `i64.mul`; it names the first, in the order globals, elements, datas,
///   functions.
/// - `Limit` exactly where a limit is exceeded: the first by its number, and of several counts under it the first that
///   exceeds it.
/// - `SegmentOutside` exactly where a segment with one `i32.const` for its offset, and a table or memory that is
///   there, reaches beyond the declared least size of that; it names the first, elements before datas.
pub fn check(m: &Module) -> Result<(), ProfileFault>
    ensures ok { IsOk result ↔ InProfile m.now }
    ensures err { IfErr result (λ f. first_fault m.now ≡ Some f) }
{
    first_cause(m)
}

// What `check` answers.
fn first_cause(m: &Module) -> Result<(), ProfileFault>
    ensures { result_err result ≡ first_fault m.now }
{
    check_imports(m)?;
    check_floats(m)?;
    check_products(m)?;
    check_limits(m)?;
    check_segments(m)
}

/// Law: a module is in the profile exactly where there is no cause against it.
pub fn profile_has_no_cause()
    ensures { (m : Modules) → InProfile m ↔ (first_fault m ≡ None) }
{}

fn check_imports(m: &Module) -> Result<(), ProfileFault>
    ensures { result_err result ≡ import_fault m.now.imports }
{
    if m.imports.is_empty() {
        Ok(())
    } else {
        Err(ProfileFault::Import { index: 0 })
    }
}
