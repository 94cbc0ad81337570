//! The bytes of the workload.
ghost use Rattle.std.specs.Prelude.{◌≡◌, ◌≤◌, ◌+◌, ◌++◌, ◌∷◌, [], length, map, replicate, IfOk, OnOk};
ghost use Rattle.wm_ast.specs.Spelling.{Spells, body_of};
ghost use Rattle.wm_gen.specs.Shortest.{body_bytes, export_bytes, module_bytes, section_bytes, unsigned, vector};
ghost use Rattle.wm_gen.specs.Workload.{export_main, function, functions, main, next, workload};

use crate::draws::Draws;
use crate::form::push_form;
use crate::instruction::{Simple, push_all};
use crate::number::push_unsigned;
use mc_nbt::{Bytes, Memory};
use std::alloc::Global;

/// The most functions, `main` aside, that a workload may have.
pub const MAX_SIZE: u32 = 1000;

// Adds the number of the bytes, and the bytes.
fn push_sized(bytes: &mut Vec<u8>, content: &[u8]) -> Result<(), Memory>
    ensures { OnOk result (bytes.new.items ≡ bytes.old.items ++ (unsigned (length content.now) ++ content.now)) }
{
    push_unsigned(bytes, content.len() as u64)?;
    bytes.extend_from_slice(content)?;
    Ok(())
}

fn push_section(bytes: &mut Vec<u8>, id: u8, content: &[u8]) -> Result<(), Memory>
    ensures { OnOk result (bytes.new.items ≡ bytes.old.items ++ section_bytes id content.now) }
{
    bytes.push(id)?;
    push_sized(bytes, content)
}

// The types of so many functions, each of which is the type 0.
fn kinds(alloc: Global, count: u32) -> Result<Vec<u8>, Memory>
    ensures { IfOk result (λ v. v.items ≡ unsigned count ++ replicate count 0) }
{
    let mut bytes = Vec::new(alloc);
    push_unsigned(&mut bytes, u64::from(count))?;
    for _index in 0..count {
        bytes.push(0)?;
    }
    Ok(bytes)
}

// The export of `main`, which is the function of this index.
fn exports(alloc: Global, index: u32) -> Result<Vec<u8>, Memory>
    ensures { IfOk result (λ v. v.items ≡ vector export_bytes (export_main index ∷ [])) }
{
    let mut bytes = Vec::from_slice(alloc, b"\x01\x04main\x00")?;
    push_unsigned(&mut bytes, u64::from(index))?;
    Ok(bytes)
}

// Adds the function of this index, for which three draws are made.
fn push_function(
    alloc: Global,
    bytes: &mut Vec<u8>,
    draws: &mut Draws,
    index: u32,
) -> Result<(), Memory>
    ensures drawn { draws.new.state ≡ next (next (next draws.old.state)) }
    ensures added { OnOk result (bytes.new.items
        ≡ bytes.old.items ++ body_bytes (body_of (function draws.old.state index))) }
{
    let kind = draws.draw() % 4;
    let a = draws.draw();
    let b = draws.draw();
    // Its two runs of locals: an i32 and an i64.
    let mut function = Vec::from_slice(alloc, &[0x02, 0x01, 0x7F, 0x01, 0x7E])?;
    push_form(&mut function, kind, index, a, b)?;
    function.push(0x0B)?;
    push_sized(bytes, function.as_slice())
}

// Adds `main`, which stands after so many functions.
fn push_main(alloc: Global, bytes: &mut Vec<u8>, size: u32) -> Result<(), Memory>
    ensures { OnOk result (bytes.new.items ≡ bytes.old.items ++ body_bytes (body_of (main size))) }
{
    // It has no locals.
    let mut function = Vec::from_slice(alloc, &[0x00])?;
    push_all(&mut function, &[Simple::I64(0)])?;
    for index in 0..size {
        push_all(&mut function, &[Simple::Call(index), Simple::I64Add])?;
    }
    function.push(0x0B)?;
    push_sized(bytes, function.as_slice())
}

// The code of all functions.
fn code(alloc: Global, number: u64, size: u32) -> Result<Vec<u8>, Memory>
    requires { size ≤ MAX_SIZE }
    ensures { IfOk result (λ v. v.items ≡ vector body_bytes (map body_of (functions number size ++ main size ∷ []))) }
{
    let mut bytes = Vec::new(alloc);
    push_unsigned(&mut bytes, u64::from(size) + 1)?;
    let mut draws = Draws { state: number };
    for index in 0..size {
        push_function(alloc, &mut bytes, &mut draws, index)?;
    }
    push_main(alloc, &mut bytes, size)?;
    Ok(bytes)
}

/// The bytes of the workload of a number and a size, in their shortest spellings. Contracts speak of the module by
/// `workload`: it has `size` functions, and `main`, which is exported and adds what they give.
///
/// # Errors
///
/// `Memory` where there is no room for the bytes.
pub fn generate(alloc: Global, number: u64, size: u32) -> Result<Bytes, Memory>
    requires least { 1 ≤ size }
    requires most { size ≤ MAX_SIZE }
    ensures spells { IfOk result (λ bytes. Spells bytes (workload number size)) }
    ensures shortest { IfOk result (λ bytes. bytes ≡ module_bytes (workload number size)) }
{
    let kinds = kinds(alloc, size + 1)?;
    let exports = exports(alloc, size)?;
    let code = code(alloc, number, size)?;
    let mut bytes = Vec::from_slice(alloc, b"\x00asm\x01\x00\x00\x00")?;
    // One type: nothing is taken, and an i64 is given.
    push_section(&mut bytes, 1, &[0x01, 0x60, 0x00, 0x01, 0x7E])?;
    push_section(&mut bytes, 3, kinds.as_slice())?;
    // One memory, of a page at least.
    push_section(&mut bytes, 5, &[0x01, 0x00, 0x01])?;
    push_section(&mut bytes, 7, exports.as_slice())?;
    push_section(&mut bytes, 10, code.as_slice())?;
    Ok(Bytes::from(bytes))
}
