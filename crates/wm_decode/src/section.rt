// The contents of sections: section 5.5 of the WebAssembly Core Specification 1.0.
ghost use Rattle.std.specs.Prelude.{◌≡◌, map, length, IfOk};
ghost use Rattle.std.specs.List.{zip};
ghost use Rattle.wm_ast.specs.Spelling.{no_parts, IsMadeOf};
ghost use Rattle.wm_decode.specs.steps.ContentReading.{content_at, limits_of};
ghost use Rattle.wm_decode.specs.steps.Gathering.{seen, func_of, Adds};
ghost use Rattle.wm_decode.specs.steps.Gives.{Gives};
ghost use Rattle.wm_decode.specs.steps.Listing.{whole as used_up};
ghost use Rattle.wm_frame.specs.Reading.{unsigned_at};

use crate::fault::Fault;
use crate::operand::index;
use crate::part::{all, name, whole};
use crate::segment::Body;
use crate::types::Table;
use std::alloc::{AllocError, Global};
use wm_ast::{
    Datas, Elems, Exports, Func, FuncTypes, Funcs, Globals, Imports, Items, LimitsList, Module,
    U32s,
};

/// What the sections of a module hold together.
#[derive(Debug, Drop)]
pub(crate) struct Parts {
    pub types: FuncTypes,
    pub imports: Imports,
    /// The index of each function's type.
    pub kinds: U32s,
    pub tables: Items<Table>,
    pub memories: LimitsList,
    pub globals: Globals,
    pub exports: Exports,
    pub start: Option<u32>,
    pub elements: Elems,
    pub bodies: Items<Body>,
    pub datas: Datas,
}

/// The parts of a module without sections. It takes no memory.
pub(crate) fn nothing(alloc: Global) -> Parts
    ensures { seen result ≡ no_parts }
{
    Parts {
        types: Items::new(alloc),
        imports: Items::new(alloc),
        kinds: Items::new(alloc),
        tables: Items::new(alloc),
        memories: Items::new(alloc),
        globals: Items::new(alloc),
        exports: Items::new(alloc),
        start: None,
        elements: Items::new(alloc),
        bodies: Items::new(alloc),
        datas: Items::new(alloc),
    }
}

// The index of the start function, which is all of the bytes (5.5.11).
fn start(bytes: &[u8]) -> Result<u32, Fault>
    ensures { Gives (λ x. x) result (used_up (unsigned_at 32 bytes.now)) }
{
    let (func, rest) = index(bytes)?;
    whole(func, rest)
}

/// Adds what a section of this id holds.
#[tactic(auto, unfolding(crate::specs::steps::ContentReading::content_at))]
pub(crate) fn add(alloc: Global, parts: &mut Parts, id: u8, content: &[u8]) -> Result<(), Fault>
    ensures { Adds parts.old parts.new result (content_at id content.now) }
{
    match id {
        0 => {
            name(content)?;
            Ok(())
        }
        1 => {
            parts.types = all(alloc, content)?;
            Ok(())
        }
        2 => {
            parts.imports = all(alloc, content)?;
            Ok(())
        }
        3 => {
            parts.kinds = all(alloc, content)?;
            Ok(())
        }
        4 => {
            parts.tables = all(alloc, content)?;
            Ok(())
        }
        5 => {
            parts.memories = all(alloc, content)?;
            Ok(())
        }
        6 => {
            parts.globals = all(alloc, content)?;
            Ok(())
        }
        7 => {
            parts.exports = all(alloc, content)?;
            Ok(())
        }
        8 => {
            parts.start = Some(start(content)?);
            Ok(())
        }
        9 => {
            parts.elements = all(alloc, content)?;
            Ok(())
        }
        10 => {
            parts.bodies = all(alloc, content)?;
            Ok(())
        }
        11 => {
            parts.datas = all(alloc, content)?;
            Ok(())
        }
        _ => Err(Fault::Malformed),
    }
}

// The limits in table types.
fn limits(alloc: Global, tables: Items<Table>) -> Result<LimitsList, AllocError>
    ensures { IfOk result (λ ls. ls ≡ map limits_of tables) }
{
    let limits = tables.into_vec().into_iter().map(|table| table.limits);
    Ok(Items::from_vec(limits.collect(alloc)?))
}

// Functions of these types and bodies, one by one.
fn funcs(alloc: Global, kinds: &U32s, bodies: Items<Body>) -> Result<Funcs, AllocError>
    requires { length kinds.now ≡ length bodies }
    ensures { IfOk result (λ fs. fs ≡ map func_of (zip kinds.now bodies)) }
{
    let mut funcs = Vec::new(alloc);
    let mut remaining = bodies.into_vec().into_iter();
    let kinds = kinds.as_slice();
    for kind in kinds {
        match remaining.next() {
            None => unreachable!(),
            Some(body) => funcs.push(Func {
                kind: *kind,
                locals: body.locals,
                body: body.body,
            })?,
        }
    }
    Ok(Items::from_vec(funcs))
}

/// The module of the parts, which have as many types of functions as bodies.
pub(crate) fn module(alloc: Global, parts: Parts) -> Result<Module, AllocError>
    requires { length parts.kinds ≡ length parts.bodies }
    ensures { IfOk result (λ m. IsMadeOf m (seen parts)) }
{
    let Parts {
        types,
        imports,
        kinds,
        tables,
        memories,
        globals,
        exports,
        start,
        elements,
        bodies,
        datas,
    } = parts;
    let funcs = funcs(alloc, &kinds, bodies)?;
    let tables = limits(alloc, tables)?;
    Ok(Module {
        types,
        funcs,
        tables,
        mems: memories,
        globals,
        exports,
        start,
        elems: elements,
        datas,
        imports,
    })
}
