//! What the bytes of a pack's JSON files say.

ghost use Rattle.std.specs.Prelude.{◌≡◌, IfOk, IfSome, option_map, map, true};
ghost use Rattle.serde_json.specs.Find.{as_array};
ghost use Rattle.serde_json.specs.View.{view, items_view};
ghost use Rattle.mc_cmd.specs.Packing.{export_view, index_view};
ghost use Rattle.mc_cmd.specs.Packing as packing;
ghost use Rattle.pk_files.specs.Json.{all_in, export_in, index_said, is_only as is_only_in, is_the_number};
ghost use Rattle.pk_files.specs.Json.{json_said, kind_in, meta_in, result_in, tag_in, whole_in};

use mc_cmd::{ExportType, Index, is_pack_namespace};
use mc_nbt::{Kind, Memory, Text};
use serde_json::Value;
use std::alloc::Global;

// The value that the bytes are, if they are one.
fn value_of(alloc: Global, bytes: &[u8]) -> Result<Option<Value>, Memory>
    ensures { IfOk result (λ o. option_map view o ≡ json_said bytes.now) }
{
    match Value::from_slice(alloc, bytes) {
        Ok(value) => Ok(Some(value)),
        Err(fault) => {
            if fault.is_memory() {
                Err(Memory)
            } else {
                Ok(None)
            }
        }
    }
}

fn is_number(value: Option<&Value>, number: u64) -> bool
    ensures { result ≡ is_the_number number (whole_in (option_map (λ v. view v.now) value.entry)) }
{
    match value.and_then(Value::as_u64) {
        Some(found) => found == number,
        None => false,
    }
}

/// Whether the bytes are of the form of `pack.mcmeta`.
pub fn is_meta(alloc: Global, bytes: &[u8]) -> Result<bool, Memory>
    ensures { IfOk result (λ b. b ≡ meta_in (json_said bytes.now)) }
{
    let Some(value) = value_of(alloc, bytes)? else {
        return Ok(false);
    };
    let Some(pack) = value.get("pack") else {
        return Ok(false);
    };
    let has_text = pack.get("description").is_some_and(Value::is_string);
    Ok(is_number(pack.get("pack_format"), 26) && has_text)
}

// Whether the value is the list of this one text.
fn is_only(value: &Value, text: &str) -> bool
    ensures { result ≡ is_only_in text.now (as_array (view value.now)) }
{
    let Some(items) = value.as_array() else {
        return false;
    };
    match items.as_slice() {
        [item] => item.as_str() == Some(text),
        _ => false,
    }
}

/// Whether the bytes are of the form of the tag that runs this function.
pub fn is_tag(alloc: Global, bytes: &[u8], function: &str) -> Result<bool, Memory>
    ensures { IfOk result (λ b. b ≡ tag_in function.now (json_said bytes.now)) }
{
    let Some(value) = value_of(alloc, bytes)? else {
        return Ok(false);
    };
    match value.get("values") {
        Some(values) => Ok(is_only(values, function)),
        None => Ok(false),
    }
}

fn kind_of(value: &Value) -> Option<Kind>
    ensures { result ≡ kind_in (view value.now) }
{
    let name = value.as_str()?;
    if name == "i32" {
        Some(Kind::I32)
    } else if name == "i64" {
        Some(Kind::I64)
    } else {
        None
    }
}

fn kinds_of(alloc: Global, items: &[Value]) -> Result<Option<Vec<Kind>>, Memory>
    ensures { IfOk result (λ o. option_map (λ v. v.items) o ≡ all_in kind_in (items_view items.now)) }
{
    let mut kinds = Vec::new(alloc);
    for item in items {
        match kind_of(item) {
            Some(kind) => kinds.push(kind)?,
            None => return Ok(None),
        }
    }
    Ok(Some(kinds))
}

fn result_of(value: &Value) -> Option<Option<Kind>>
    ensures { result ≡ result_in (view value.now) }
{
    if value.is_null() {
        Some(None)
    } else {
        kind_of(value).map(Some)
    }
}

fn export_of(alloc: Global, value: &Value) -> Result<Option<ExportType>, Memory>
    ensures { IfOk result (λ o. option_map export_view o ≡ export_in (view value.now)) }
{
    let Some(name) = value.get("name").and_then(Value::as_str) else {
        return Ok(None);
    };
    let Some(params) = value.get("params").and_then(Value::as_array) else {
        return Ok(None);
    };
    let Some(kinds) = kinds_of(alloc, params)? else {
        return Ok(None);
    };
    let Some(kind) = value.get("result").and_then(result_of) else {
        return Ok(None);
    };
    Ok(Some(ExportType {
        name: Text::new(alloc, name)?,
        params: kinds,
        result: kind,
    }))
}

fn exports_of(alloc: Global, items: &[Value]) -> Result<Option<Vec<ExportType>>, Memory>
    ensures { IfOk result
        (λ o. option_map (λ v. map export_view v.items) o ≡ all_in export_in (items_view items.now)) }
{
    let mut exports = Vec::new(alloc);
    for item in items {
        match export_of(alloc, item)? {
            Some(export) => exports.push(export)?,
            None => return Ok(None),
        }
    }
    Ok(Some(exports))
}

/// What the bytes of `dpwasm.json` say; `None` exactly where they aren't of its form.
pub fn index_of(alloc: Global, bytes: &[u8]) -> Result<Option<Index>, Memory>
    ensures said { IfOk result (λ o. option_map index_view o ≡ index_said bytes.now) }
    ensures namespace { IfOk result (λ o. IfSome o (λ i. packing.is_pack_namespace i.ns ≡ true)) }
{
    let Some(value) = value_of(alloc, bytes)? else {
        return Ok(None);
    };
    if !is_number(value.get("version"), 1) {
        return Ok(None);
    }
    let Some(ns) = value.get("namespace").and_then(Value::as_str) else {
        return Ok(None);
    };
    let Some(items) = value.get("exports").and_then(Value::as_array) else {
        return Ok(None);
    };
    let Some(exports) = exports_of(alloc, items)? else {
        return Ok(None);
    };
    if !is_pack_namespace(ns.as_bytes()) {
        return Ok(None);
    }
    Ok(Some(Index {
        ns: Text::new(alloc, ns)?,
        exports,
    }))
}
