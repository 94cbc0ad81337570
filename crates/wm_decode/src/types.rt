// Types: section 5.3 of the WebAssembly Core Specification 1.0, and imports and exports, 5.5.5 and 5.5.10.
ghost use Rattle.wm_decode.specs.steps.Gives.{Gives};
ghost use Rattle.wm_decode.specs.steps.ValueType.{val_type_at};
ghost use Rattle.wm_decode.specs.steps.PartReading.{func_type_at, limits_at, table_at, mutable_at, global_type_at, imported_at, import_at, space_at, export_at};

use crate::fault::Fault;
use crate::operand::{byte, index, val_type};
use crate::part::{Part, list, owned_name};
use std::alloc::Global;
use wm_ast::{Export, FuncType, Import, Imported, Limits, Space, ValType};

/// A table type. Its elements are functions, so only the limits are kept.
#[derive(Clone, Copy, Debug, PartialEq, Eq)]
pub(crate) struct Table {
    pub limits: Limits,
}

impl Part for ValType {
    ghost at = { val_type_at };

    fn read(_alloc: Global, bytes: &[u8]) -> Result<(ValType, &[u8]), Fault> {
        value_type(bytes)
    }
}

/// A value type (5.3.1).
#[tactic(auto, unfolding(crate::specs::steps::ValueType::val_type_at))]
pub(crate) fn value_type(bytes: &[u8]) -> Result<(ValType, &[u8]), Fault>
    ensures { Gives (λ x. (x.0, x.1.now)) result (val_type_at bytes.now) }
{
    match bytes {
        [] => Err(Fault::Malformed),
        [first, rest @ ..] => match val_type(*first) {
            Some(ty) => Ok((ty, rest)),
            None => Err(Fault::Malformed),
        },
    }
}

impl Part for FuncType {
    ghost at = { func_type_at };

    #[tactic(auto, unfolding(crate::specs::steps::PartReading::func_type_at))]
    fn read(alloc: Global, bytes: &[u8]) -> Result<(FuncType, &[u8]), Fault> {
        let rest = byte(0x60, bytes)?;
        let (params, rest) = list(alloc, rest)?;
        let (results, rest) = list(alloc, rest)?;
        Ok((FuncType { params, results }, rest))
    }
}

impl Part for Limits {
    ghost at = { limits_at };

    fn read(_alloc: Global, bytes: &[u8]) -> Result<(Limits, &[u8]), Fault> {
        limits(bytes)
    }
}

// Limits (5.3.4).
#[tactic(auto, unfolding(crate::specs::steps::PartReading::limits_at))]
fn limits(bytes: &[u8]) -> Result<(Limits, &[u8]), Fault>
    ensures { Gives (λ x. (x.0, x.1.now)) result (limits_at bytes.now) }
{
    match bytes {
        [0x00, rest @ ..] => {
            let (min, rest) = index(rest)?;
            Ok((Limits { min, max: None }, rest))
        }
        [0x01, rest @ ..] => {
            let (min, rest) = index(rest)?;
            let (max, rest) = index(rest)?;
            let max = Some(max);
            Ok((Limits { min, max }, rest))
        }
        _ => Err(Fault::Malformed),
    }
}

impl Part for Table {
    ghost at = { table_at };

    fn read(_alloc: Global, bytes: &[u8]) -> Result<(Table, &[u8]), Fault> {
        table_type(bytes)
    }
}

// A table type (5.3.6).
#[tactic(auto, unfolding(crate::specs::steps::PartReading::table_at))]
fn table_type(bytes: &[u8]) -> Result<(Table, &[u8]), Fault>
    ensures { Gives (λ x. (x.0, x.1.now)) result (table_at bytes.now) }
{
    let rest = byte(0x70, bytes)?;
    let (limits, rest) = limits(rest)?;
    Ok((Table { limits }, rest))
}

// Whether a global may change (5.3.7).
#[tactic(auto, unfolding(crate::specs::steps::PartReading::mutable_at))]
fn mutable(bytes: &[u8]) -> Result<(bool, &[u8]), Fault>
    ensures { Gives (λ x. (x.0, x.1.now)) result (mutable_at bytes.now) }
{
    match bytes {
        [0x00, rest @ ..] => Ok((false, rest)),
        [0x01, rest @ ..] => Ok((true, rest)),
        _ => Err(Fault::Malformed),
    }
}

/// A global type (5.3.7).
#[tactic(auto, unfolding(crate::specs::steps::PartReading::global_type_at))]
pub(crate) fn global_type(bytes: &[u8]) -> Result<(ValType, bool, &[u8]), Fault>
    ensures { Gives (λ x. ((x.0, x.1), x.2.now)) result (global_type_at bytes.now) }
{
    let (ty, rest) = value_type(bytes)?;
    let (mutable, rest) = mutable(rest)?;
    Ok((ty, mutable, rest))
}

// What is imported (5.5.5).
#[tactic(auto, unfolding(crate::specs::steps::PartReading::imported_at))]
fn imported(bytes: &[u8]) -> Result<(Imported, &[u8]), Fault>
    ensures { Gives (λ x. (x.0, x.1.now)) result (imported_at bytes.now) }
{
    match bytes {
        [0x00, rest @ ..] => {
            let (kind, rest) = index(rest)?;
            Ok((Imported::Func(kind), rest))
        }
        [0x01, rest @ ..] => {
            let (table, rest) = table_type(rest)?;
            Ok((Imported::Table(table.limits), rest))
        }
        [0x02, rest @ ..] => {
            let (limits, rest) = limits(rest)?;
            Ok((Imported::Memory(limits), rest))
        }
        [0x03, rest @ ..] => {
            let (ty, mutable, rest) = global_type(rest)?;
            Ok((Imported::Global { ty, mutable }, rest))
        }
        _ => Err(Fault::Malformed),
    }
}

impl Part for Import {
    ghost at = { import_at };

    #[tactic(auto, unfolding(crate::specs::steps::PartReading::import_at))]
    fn read(alloc: Global, bytes: &[u8]) -> Result<(Import, &[u8]), Fault> {
        let (module, rest) = owned_name(alloc, bytes)?;
        let (name, rest) = owned_name(alloc, rest)?;
        let (what, rest) = imported(rest)?;
        Ok((Import { module, name, what }, rest))
    }
}

// What an export's index counts (5.5.10).
#[tactic(auto, unfolding(crate::specs::steps::PartReading::space_at))]
fn space(bytes: &[u8]) -> Result<(Space, &[u8]), Fault>
    ensures { Gives (λ x. (x.0, x.1.now)) result (space_at bytes.now) }
{
    match bytes {
        [0x00, rest @ ..] => Ok((Space::Func, rest)),
        [0x01, rest @ ..] => Ok((Space::Table, rest)),
        [0x02, rest @ ..] => Ok((Space::Memory, rest)),
        [0x03, rest @ ..] => Ok((Space::Global, rest)),
        _ => Err(Fault::Malformed),
    }
}

impl Part for Export {
    ghost at = { export_at };

    #[tactic(auto, unfolding(crate::specs::steps::PartReading::export_at))]
    fn read(alloc: Global, bytes: &[u8]) -> Result<(Export, &[u8]), Fault> {
        let (name, rest) = owned_name(alloc, bytes)?;
        let (space, rest) = space(rest)?;
        let (index, rest) = index(rest)?;
        Ok((Export { name, space, index }, rest))
    }
}
