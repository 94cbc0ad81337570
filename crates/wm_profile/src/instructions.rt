ghost use Rattle.std.specs.Prelude.{◌≡◌, length, filter_map, find, nat_lt, min};
ghost use Rattle.std.specs.List.{list_any};
ghost use Rattle.wm_ast.specs.View.{code_of, op_of};
ghost use Rattle.wm_ast.specs.Profile.{op_and_inside, all_ops, is_float as is_float_type, is_float_result as gives_float, is_float_op, has_float_code, is_mul64, has_mul64_code, table_labels, code_labels};

use wm_ast::{Instr, MAX_LABELS, ValType};

/// Whether values of the type are floats.
pub(crate) fn is_float(ty: ValType) -> bool
    ensures { result ≡ is_float_type ty }
{
    matches!(ty, ValType::F32 | ValType::F64)
}

// Whether a block of this type has a float for its result.
fn is_float_result(ty: Option<ValType>) -> bool
    ensures { result ≡ gives_float ty }
{
    match ty {
        None => false,
        Some(ty) => is_float(ty),
    }
}

/// Whether an instruction, at any depth, is one on floats or a block with a float for its result.
#[cycle(floats)]
pub(crate) fn has_float(body: &[Instr]) -> bool
    ensures { result ≡ has_float_code (code_of body.now) }
{
    for instr in body {
        if has_float_inside(instr) {
            return true;
        }
    }
    false
}

#[cycle(floats)]
fn has_float_inside(instr: &Instr) -> bool
    ensures { result ≡ list_any is_float_op (op_and_inside (op_of instr.now)) }
{
    match instr {
        Instr::Block { ty, body } => is_float_result(*ty) || has_float(body.as_slice()),
        Instr::Loop { ty, body } => is_float_result(*ty) || has_float(body.as_slice()),
        Instr::If { ty, yes, no } => {
            is_float_result(*ty) || has_float(yes.as_slice()) || has_float(no.as_slice())
        }
        Instr::Float(_) => true,
        _ => false,
    }
}

/// Whether an instruction, at any depth, is `i64.mul`.
#[cycle(products)]
pub(crate) fn has_product(body: &[Instr]) -> bool
    ensures { result ≡ has_mul64_code (code_of body.now) }
{
    for instr in body {
        if has_product_inside(instr) {
            return true;
        }
    }
    false
}

#[cycle(products)]
fn has_product_inside(instr: &Instr) -> bool
    ensures { result ≡ list_any is_mul64 (op_and_inside (op_of instr.now)) }
{
    match instr {
        Instr::Block { body, .. } => has_product(body.as_slice()),
        Instr::Loop { body, .. } => has_product(body.as_slice()),
        Instr::If { yes, no, .. } => has_product(yes.as_slice()) || has_product(no.as_slice()),
        Instr::Mul64 => true,
        _ => false,
    }
}

/// How many instructions there are, at any depth, or 2^64 - 1 where that is less. `end` and `else` don't count.
#[cycle(sizes)]
pub(crate) fn size(body: &[Instr]) -> u64
    ensures { result ≡ min (length (all_ops (code_of body.now))) u64.MAX }
{
    let mut total = 0u64;
    for instr in body {
        total = total.saturating_add(size_inside(instr));
    }
    total
}

#[cycle(sizes)]
fn size_inside(instr: &Instr) -> u64
    ensures { result ≡ min (length (op_and_inside (op_of instr.now))) u64.MAX }
{
    match instr {
        Instr::Block { body, .. } => size(body.as_slice()).saturating_add(1),
        Instr::Loop { body, .. } => size(body.as_slice()).saturating_add(1),
        Instr::If { yes, no, .. } => {
            let first = size(yes.as_slice());
            first.saturating_add(size(no.as_slice())).saturating_add(1)
        }
        _ => 1,
    }
}

/// The number of labels of the first `br_table`, at any depth, that has more than it may have. The default label
/// doesn't count.
#[cycle(tables)]
pub(crate) fn too_many_labels(body: &[Instr]) -> Option<u64>
    ensures { result ≡ find (nat_lt MAX_LABELS) (code_labels (code_of body.now)) }
{
    for instr in body {
        if let Some(labels) = too_many_labels_inside(instr) {
            return Some(labels);
        }
    }
    None
}

#[cycle(tables)]
fn too_many_labels_inside(instr: &Instr) -> Option<u64>
    ensures { result ≡ find (nat_lt MAX_LABELS) (filter_map table_labels (op_and_inside (op_of instr.now))) }
{
    match instr {
        Instr::Block { body, .. } => too_many_labels(body.as_slice()),
        Instr::Loop { body, .. } => too_many_labels(body.as_slice()),
        Instr::If { yes, no, .. } => {
            let first = too_many_labels(yes.as_slice());
            first.or(too_many_labels(no.as_slice()))
        }
        Instr::BrTable { labels, .. } => {
            let count = labels.len() as u64;
            if count > MAX_LABELS {
                Some(count)
            } else {
                None
            }
        }
        _ => None,
    }
}
