//! The bytes of a pack's JSON files.

ghost use Rattle.std.specs.Prelude.{◌≡◌, ◌≤◌, IfOk, Some, false, map};
ghost use Rattle.serde_json.specs.Data.{depth, array};
ghost use Rattle.serde_json.specs.Read.{max_depth};
ghost use Rattle.serde_json.specs.View.{view, items_of};
ghost use Rattle.serde_json.specs.Written.{compact_text, has_float};
ghost use Rattle.mc_cmd.specs.Packing.{export_view, index_view};
ghost use Rattle.pk_files.specs.Json.{export_data, index_data, json_said, kind_data};
ghost use Rattle.pk_files.specs.Json.{kind_text, meta_data, result_data, tag_data};

use crate::paths::full_name_of;
use mc_cmd::{ExportType, Index};
use mc_nbt::{Kind, Memory};
use serde_json::{Value, json};
use std::alloc::{AllocError, Global};

// The bytes of a value, and that they say it.
fn bytes_of(alloc: Global, value: &Value) -> Result<Vec<u8>, AllocError>
    requires whole { has_float (view value.now) ≡ false }
    requires shallow { depth (view value.now) ≤ max_depth }
    ensures text { IfOk result (λ b. b.items ≡ compact_text (view value.now)) }
    ensures said { IfOk result (λ b. json_said b.items ≡ Some (view value.now)) }
{
    let bytes = value.to_vec(alloc)?;
    Ok(bytes)
}

fn meta_value(alloc: Global) -> Result<Value, AllocError>
    ensures { IfOk result (λ v. view v ≡ meta_data) }
{
    json!(in alloc; {"pack": {"description": "dpwasm", "pack_format": 26}})
}

/// The bytes of `pack.mcmeta`.
pub fn meta_bytes(alloc: Global) -> Result<Vec<u8>, AllocError>
    ensures { IfOk result (λ b. b.items ≡ compact_text meta_data) }
{
    let value = meta_value(alloc)?;
    bytes_of(alloc, &value)
}

fn tag_value(alloc: Global, ns: &str, name: &str) -> Result<Value, Memory>
    ensures { IfOk result (λ v. view v ≡ tag_data ns.now name.now) }
{
    let function = full_name_of(alloc, ns, name)?;
    Ok(json!(in alloc; {"values": [function]})?)
}

/// The bytes of the tag that runs the function of this name of a namespace.
pub fn tag_bytes(alloc: Global, ns: &str, name: &str) -> Result<Vec<u8>, Memory>
    ensures text { IfOk result (λ b. b.items ≡ compact_text (tag_data ns.now name.now)) }
    ensures said { IfOk result (λ b. json_said b.items ≡ Some (tag_data ns.now name.now)) }
{
    let value = tag_value(alloc, ns, name)?;
    let bytes = bytes_of(alloc, &value)?;
    Ok(bytes)
}

fn kind_name(kind: Kind) -> &'static str
    ensures { result.now ≡ kind_text kind }
{
    match kind {
        Kind::I32 => "i32",
        Kind::I64 => "i64",
    }
}

fn kind_value(alloc: Global, kind: Kind) -> Result<Value, AllocError>
    ensures { IfOk result (λ v. view v ≡ kind_data kind) }
{
    Value::try_from_str(alloc, kind_name(kind))
}

fn kinds_value(alloc: Global, kinds: &[Kind]) -> Result<Value, AllocError>
    ensures { IfOk result (λ v. view v ≡ array (items_of (map kind_data kinds.now))) }
{
    let mut items = Vec::new(alloc);
    for kind in kinds {
        items.push(kind_value(alloc, *kind)?)?;
    }
    Ok(Value::Array(items))
}

fn result_value(alloc: Global, result_kind: Option<Kind>) -> Result<Value, AllocError>
    ensures { IfOk result (λ v. view v ≡ result_data result_kind) }
{
    match result_kind {
        None => Ok(Value::Null),
        Some(kind) => kind_value(alloc, kind),
    }
}

fn export_value(alloc: Global, export: &ExportType) -> Result<Value, AllocError>
    ensures { IfOk result (λ v. view v ≡ export_data (export_view export.now)) }
{
    let name = export.name.as_str();
    let params = kinds_value(alloc, &export.params)?;
    let kind = result_value(alloc, export.result)?;
    json!(in alloc; {"name": name, "params": params, "result": kind})
}

fn exports_value(alloc: Global, exports: &[ExportType]) -> Result<Value, AllocError>
    ensures { IfOk result (λ v. view v ≡ array (items_of (map export_data (map export_view exports.now)))) }
{
    let mut items = Vec::new(alloc);
    for export in exports {
        items.push(export_value(alloc, export)?)?;
    }
    Ok(Value::Array(items))
}

fn index_value(alloc: Global, index: &Index) -> Result<Value, AllocError>
    ensures { IfOk result (λ v. view v ≡ index_data (index_view index.now)) }
{
    let ns = index.ns.as_str();
    let exports = exports_value(alloc, &index.exports)?;
    json!(in alloc; {"exports": exports, "namespace": ns, "version": 1})
}

/// The bytes of `dpwasm.json`.
pub fn index_bytes(alloc: Global, index: &Index) -> Result<Vec<u8>, AllocError>
    ensures text { IfOk result (λ b. b.items ≡ compact_text (index_data (index_view index.now))) }
    ensures said { IfOk result (λ b. json_said b.items ≡ Some (index_data (index_view index.now))) }
{
    let value = index_value(alloc, index)?;
    bytes_of(alloc, &value)
}
