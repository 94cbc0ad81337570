ghost use Rattle.std.specs.Prelude.{◌≡◌, ◌∷◌, [], drop, map, sum, find, nat_lt, slice_get, option_map};
ghost use Rattle.std.specs.List.{concat};
ghost use Rattle.std.specs.Result.{result_err};
ghost use Rattle.wm_ast.specs.Part.{locals_count as count_of_locals};
ghost use Rattle.wm_ast.specs.Profile.{code_labels, expressions, function_params, function_locals as locals_of, function_size, exported_params as params_of_exported, export_size as size_of_export, entries, pages, limits};
ghost use Rattle.wm_profile.specs.Cause.{over, first_excess};
ghost use Rattle.wm_profile.specs.steps.Counted.{told, limit_fault, found_fault, labels_beyond};

use crate::ProfileFault;
use crate::expression::first_labels_above;
use crate::instructions::size;
use wm_ast::{
    Export, Func, Limits, MAX_ALL_LOCALS, MAX_EXPORT_SIZE, MAX_EXPORTS, MAX_FUNCTIONS, MAX_GLOBALS,
    MAX_INSTRUCTIONS, MAX_LABELS, MAX_LOCALS, MAX_TABLE, MAX_TYPES, Module, PAGES, Run, Space,
};

/// That the module is within the limits.
///
/// # Errors
///
/// `Limit` exactly where it isn't: the first limit that is exceeded, by its number.
pub(crate) fn check_limits(m: &Module) -> Result<(), ProfileFault>
    ensures { result_err result ≡ option_map over (first_excess 1 (limits m.now)) }
{
    at_most(1, m.types.len() as u64, MAX_TYPES)?;
    at_most(2, m.funcs.len() as u64, MAX_FUNCTIONS)?;
    check_locals(m)?;
    check_all_locals(m)?;
    check_instructions(m)?;
    check_limits_from_labels(m)
}

// The limits from the sixth on.
fn check_limits_from_labels(m: &Module) -> Result<(), ProfileFault>
    ensures { result_err result ≡ option_map over (first_excess 6 (drop 5 (limits m.now))) }
{
    check_labels(m)?;
    at_most(7, m.globals.len() as u64, MAX_GLOBALS)?;
    check_tables(m)?;
    check_memories(m)?;
    at_most(10, m.exports.len() as u64, MAX_EXPORTS)?;
    check_export_sizes(m)
}

fn check_locals(m: &Module) -> Result<(), ProfileFault>
    ensures { result_err result ≡ limit_fault 3 (map (locals_of m.now) m.now.funcs) MAX_LOCALS }
{
    none_above(3, locals_above(m), MAX_LOCALS)
}

#[tactic(auto, using(crate::proofs::Telling::one_told))]
fn check_all_locals(m: &Module) -> Result<(), ProfileFault>
    ensures { result_err result ≡ limit_fault 4 (sum (map (locals_of m.now) m.now.funcs) ∷ []) MAX_ALL_LOCALS }
{
    at_most(4, all_locals(m), MAX_ALL_LOCALS)
}

#[tactic(auto, using(crate::proofs::Telling::one_told))]
fn check_instructions(m: &Module) -> Result<(), ProfileFault>
    ensures { result_err result ≡ limit_fault 5 (sum (map function_size m.now.funcs) ∷ []) MAX_INSTRUCTIONS }
{
    at_most(5, all_instructions(m), MAX_INSTRUCTIONS)
}

#[tactic(auto, using(crate::proofs::Telling::found))]
fn check_labels(m: &Module) -> Result<(), ProfileFault>
    ensures { result_err result ≡ limit_fault 6 (concat (map code_labels (expressions m.now))) MAX_LABELS }
{
    none_above(6, labels_above(m), MAX_LABELS)
}

#[tactic(auto, using(crate::proofs::Telling::found))]
fn check_tables(m: &Module) -> Result<(), ProfileFault>
    ensures { result_err result ≡ limit_fault 8 (map entries m.now.tables) MAX_TABLE }
{
    none_above(8, least_above(m.tables.as_slice(), MAX_TABLE), MAX_TABLE)
}

#[tactic(auto, using(crate::proofs::Telling::found))]
fn check_memories(m: &Module) -> Result<(), ProfileFault>
    ensures { result_err result ≡ limit_fault 9 (map pages m.now.mems) PAGES }
{
    let limit = u64::from(PAGES);
    none_above(9, least_above(m.mems.as_slice(), limit), limit)
}

#[tactic(auto, using(crate::proofs::Telling::one_told))]
fn check_export_sizes(m: &Module) -> Result<(), ProfileFault>
    ensures { result_err result ≡ limit_fault 11 (sum (map (size_of_export m.now) m.now.exports) ∷ []) MAX_EXPORT_SIZE }
{
    at_most(11, all_export_sizes(m), MAX_EXPORT_SIZE)
}

// That one count is within a limit.
fn at_most(which: u8, count: u64, limit: u64) -> Result<(), ProfileFault>
    ensures { result_err result ≡ limit_fault which (count ∷ []) limit }
{
    if count > limit {
        Err(ProfileFault::Limit {
            which,
            found: count,
            limit,
        })
    } else {
        Ok(())
    }
}

// That no count was found above a limit.
fn none_above(which: u8, first: Option<u64>, limit: u64) -> Result<(), ProfileFault>
    ensures { result_err result ≡ found_fault which limit first }
{
    match first {
        None => Ok(()),
        Some(found) => Err(ProfileFault::Limit {
            which,
            found,
            limit,
        }),
    }
}

// The parameters and locals of the first function that has too many.
fn locals_above(m: &Module) -> Option<u64>
    ensures { result ≡ find (nat_lt MAX_LOCALS) (map (λ f. told (locals_of m.now f)) m.now.funcs) }
{
    let mut counts = m
        .funcs
        .as_slice()
        .iter()
        .map(|func| function_locals(m, func));
    counts.find(|count| *count > MAX_LOCALS)
}

// The parameters and locals of all functions.
fn all_locals(m: &Module) -> u64
    ensures { result ≡ told (sum (map (locals_of m.now) m.now.funcs)) }
{
    let mut total = 0u64;
    for func in m.funcs.as_slice() {
        total = total.saturating_add(function_locals(m, func));
    }
    total
}

fn function_locals(m: &Module, func: &Func) -> u64
    ensures { result ≡ told (locals_of m.now func.now) }
{
    params(m, func).saturating_add(locals_count(func.locals.as_slice()))
}

// How many parameters a function has. An index that names no type counts none.
fn params(m: &Module, func: &Func) -> u64
    ensures { result ≡ function_params m.now func.now }
{
    match m.types.get(func.kind as usize) {
        None => 0,
        Some(ty) => ty.params.len() as u64,
    }
}

fn locals_count(runs: &[Run]) -> u64
    ensures { result ≡ told (count_of_locals runs.now) }
{
    let mut total = 0u64;
    for run in runs {
        total = total.saturating_add(u64::from(run.count));
    }
    total
}

// The instructions of all functions.
fn all_instructions(m: &Module) -> u64
    ensures { result ≡ told (sum (map function_size m.now.funcs)) }
{
    let mut total = 0u64;
    for func in m.funcs.as_slice() {
        total = total.saturating_add(size(func.body.as_slice()));
    }
    total
}

// The labels of the first `br_table` that has too many.
fn labels_above(m: &Module) -> Option<u64>
    ensures { result ≡ labels_beyond (expressions m.now) }
{
    let globals = first_labels_above(m.globals.as_slice());
    let elems = first_labels_above(m.elems.as_slice());
    let datas = first_labels_above(m.datas.as_slice());
    let funcs = first_labels_above(m.funcs.as_slice());
    globals.or(elems).or(datas).or(funcs)
}

// The first least size above the limit.
fn least_above(sizes: &[Limits], limit: u64) -> Option<u64>
    ensures { result ≡ find (nat_lt limit) (map entries sizes.now) }
{
    sizes
        .iter()
        .map(|size| u64::from(size.min))
        .find(|least| *least > limit)
}

// The names and parameters of all exported functions, each export counted.
fn all_export_sizes(m: &Module) -> u64
    ensures { result ≡ told (sum (map (size_of_export m.now) m.now.exports)) }
{
    let mut total = 0u64;
    for export in m.exports.as_slice() {
        total = total.saturating_add(export_size(m, export));
    }
    total
}

// The bytes of the name of an exported function and its parameters. Exports of other kinds count nothing.
fn export_size(m: &Module, export: &Export) -> u64
    ensures { result ≡ told (size_of_export m.now export.now) }
{
    match export.space {
        Space::Func => {
            let name = export.name.len() as u64;
            name.saturating_add(exported_params(m, export.index))
        }
        _ => 0,
    }
}

// The parameters of the function of this index. An index that names no function counts none.
fn exported_params(m: &Module, index: u32) -> u64
    ensures { result ≡ params_of_exported m.now (slice_get m.now.funcs index) }
{
    match m.funcs.get(index as usize) {
        None => 0,
        Some(func) => params(m, func),
    }
}
