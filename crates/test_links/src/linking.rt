//! Modules linked, and joined to one.

ghost use Rattle.std.specs.Prelude.{◌≤◌, length, All};
ghost use Rattle.wm_match.specs.Lists.{HasListsWithin};
ghost use Rattle.test_links.specs.Libraries.{HasShortLists};

use crate::playing::played_text;
use crate::words::fault_text;
use std::alloc::Global;
use test_lines::Stop;
use wm_ast::Module;
use wm_join::join;
use wm_match::{Libraries, resolve};
use wm_profile::check;
use wm_valid::{Typed, validate};

/// The module with its types, where it has the profile and is valid.
fn typed(alloc: Global, module: Module) -> Option<Typed> {
    check(&module).ok()?;
    match validate(alloc, module) {
        Ok(typed) => Some(typed),
        Err(_) => None,
    }
}

/// What the call of a joined module comes to.
fn joined_text(alloc: Global, joined: Module, argument: i32) -> Result<String, Stop> {
    match typed(alloc, joined) {
        Some(typed) => played_text(alloc, &typed, argument),
        None => Ok(format!(in alloc; "not valid")?),
    }
}

/// Why the modules aren't linked, or what the call of the joined module comes to.
pub fn linked_text(
    alloc: Global,
    libs: &Libraries,
    main: &Module,
    argument: i32,
) -> Result<String, Stop>
    requires count { 1 ≤ length libs.now × length libs.now ≤ 16 }
    requires libraries { All HasShortLists libs.now }
    requires main { HasListsWithin 1048576 main.now }
{
    match resolve(alloc, libs, main) {
        Ok(bindings) => {
            let joined = join(alloc, libs, main, &bindings)?;
            joined_text(alloc, joined, argument)
        }

        Err(fault) => fault_text(alloc, fault),
    }
}
