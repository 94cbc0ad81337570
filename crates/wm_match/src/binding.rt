// The pass that binds imports.
ghost use Rattle.std.specs.Prelude.{◌≡◌, ◌≤◌, length, Some, slice_get, IfOk, IfErr, All};
ghost use Rattle.wm_match.specs.Binds.{CanBeBound, AreBound};
ghost use Rattle.wm_match.specs.Cause.{program, AreBoundTo, AllBound, IsCause};
ghost use Rattle.wm_match.specs.Lists.{HasListsWithin};
ghost use Rattle.wm_match.specs.Program.{modules_of};
ghost use Rattle.wm_match.specs.steps.Directories.{AreDirectories};

use crate::directory::{Directory, directory_of};
use crate::lookup::{Lookup, look_up};
use crate::matching::module_of;
use crate::{Binding, Bindings, Library, MatchFault};
use std::alloc::Global;
use wm_ast::{Items, Module};

/// Binds the imports of all modules.
#[tactic(auto, using(crate::proofs::BindLaws::module_steps, crate::proofs::DirectoryLaws::directory_steps))]
pub(crate) fn bind_all(
    alloc: Global,
    libs: &[Library],
    main: &Module,
) -> Result<Bindings, MatchFault>
    requires can { CanBeBound libs.now main.now }
    requires few { length libs.now ≤ 16 }
    requires short { All (HasListsWithin 1048576) (modules_of libs.now main.now) }
    ensures parts { IfOk result (λ bs. length bs ≡ length (modules_of libs.now main.now)) }
    ensures bound { IfOk result (λ bs.
        AreBound (program libs.now main.now bs) (length (modules_of libs.now main.now))) }
    ensures all { IfOk result (λ bs. AllBound libs.now main.now) }
    ensures err { IfErr result (λ fault. IsCause libs.now main.now fault) }
{
    let mut done = Vec::new(alloc);
    let mut directories = Vec::new(alloc);
    for k in 0..libs.len() + 1 {
        let m = module_of(libs, main, k);
        let part = bind_module(
            alloc,
            libs,
            main,
            k,
            m,
            done.as_slice(),
            directories.as_slice(),
        )?;
        directories.push(directory_of(alloc, m, part.as_slice())?)?;
        done.push(part)?;
    }
    Ok(Items::from_vec(done))
}

// Binds the imports of module k, by the bindings and the directories of the modules before it.
#[tactic(auto, using(crate::proofs::BindLaws::bound_more, crate::proofs::BindLaws::none_bound))]
fn bind_module(
    alloc: Global,
    libs: &[Library],
    main: &Module,
    k: usize,
    m: &Module,
    done: &[Items<Binding>],
    directories: &[Directory],
) -> Result<Items<Binding>, MatchFault>
    requires can { CanBeBound libs.now main.now }
    requires few { length libs.now ≤ 16 }
    requires number { k ≤ length libs.now }
    requires short { HasListsWithin 1048576 m.now }
    requires module_is { slice_get (modules_of libs.now main.now) k ≡ Some m.now }
    requires done { length done.now ≡ k }
    requires below { AreBound (program libs.now main.now done.now) k }
    requires directories { AreDirectories libs.now main.now done.now directories.now }
    ensures ok { IfOk result (λ part.
        AreBoundTo libs.now main.now (program libs.now main.now done.now) k (length m.now.imports) m.now part) }
    ensures err { IfErr result (λ fault. IsCause libs.now main.now fault) }
{
    let mut part = Vec::new(alloc);
    for (n, import) in m.imports.as_slice().iter().enumerate() {
        match look_up(libs, main, k, m, import, done, directories) {
            Lookup::Bound(binding) => part.push(binding)?,
            Lookup::Unknown => return Err(MatchFault::Unknown {
                module: k as u32,
                import: n as u32,
            }),
            Lookup::Mismatch => return Err(MatchFault::Mismatch {
                module: k as u32,
                import: n as u32,
            }),
        }
    }
    Ok(Items::from_vec(part))
}
