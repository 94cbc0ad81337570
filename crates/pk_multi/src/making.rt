//! Whether packs may live together, and what is kept of each.

ghost use Rattle.std.specs.Prelude.{◌≡◌, ◌<◌, IfErr, IfOk, length, true};
ghost use Rattle.mc_cmd.specs.Packing.{is_written};
ghost use Rattle.pk_multi.specs.Counting.{AreFresh, AreNamed};
ghost use Rattle.pk_multi.specs.Making as spec;
ghost use Rattle.pk_multi.specs.Making.{AreTidy, AreWritten, IsFirstSame, IsUntidyIn, IsUntidyOf, IsUntidyPack};

use crate::MultiFault;
use crate::program::Program;
use mc_cmd::Pack;
use mc_layout::LayoutNames;
use mc_nbt::{Memory, Text};
use mc_tidy::first_untidy;
use std::alloc::Global;

fn has_space(packs: &[Pack], ns: &Text) -> bool
    ensures { result ≡ spec.has_space ns.now packs.now }
{
    for pack in packs {
        if *ns == pack.index().ns {
            return true;
        }
    }
    false
}

/// The place of the first pack that has the namespace of one before it.
pub(crate) fn same_space(packs: &[Pack]) -> Option<usize>
    ensures { IsFirstSame packs.now result }
{
    for at in 0..packs.len() {
        if has_space(&packs[..at], &packs[at].index().ns) {
            return Some(at);
        }
    }
    None
}

/// A line that isn't tidy: the name of its function, and its number, from 1.
#[derive(Drop)]
pub(crate) struct Untidy {
    pub(crate) name: Text,
    pub(crate) line: usize,
}

// The first line of the function at a place that isn't tidy.
fn untidy_of(
    alloc: Global,
    names: &LayoutNames,
    pack: &Pack,
    at: usize,
) -> Result<Option<Untidy>, Memory>
    requires written { is_written pack.now ≡ true }
    requires place { at < length pack.now.functions }
    ensures { IfOk result (IsUntidyOf names.now.ns pack.now at) }
{
    let name = Text::new(alloc, pack.name(at))?;
    match pack.lines(&name) {
        Some(lines) => match first_untidy(alloc, names, lines)? {
            // No line has a number above that of the last.
            Some(place) => Ok(Some(Untidy {
                name,
                line: place.saturating_add(1).min(lines.len()),
            })),
            None => Ok(None),
        },
        None => unreachable!(),
    }
}

// The first line of a pack that isn't tidy.
fn untidy_in(alloc: Global, names: &LayoutNames, pack: &Pack) -> Result<Option<Untidy>, Memory>
    requires { is_written pack.now ≡ true }
    ensures { IfOk result (IsUntidyIn names.now.ns pack.now) }
{
    for at in 0..pack.functions() {
        if let Some(untidy) = untidy_of(alloc, names, pack, at)? {
            return Ok(Some(untidy));
        }
    }
    Ok(None)
}

/// What is kept of each pack, of which each is tidy.
///
/// # Errors
///
/// `Untidy` exactly where a line isn't tidy, with the first such.
pub(crate) fn programs_of(alloc: Global, packs: &[Pack]) -> Result<Vec<Program>, MultiFault>
    ensures named { IfOk result (λ v. AreNamed v.items packs.now) }
    ensures fresh { IfOk result (λ v. AreFresh v.items) }
    ensures written { IfOk result (λ v. AreWritten packs.now (length packs.now)) }
    ensures tidy { IfOk result (λ v. AreTidy packs.now (length packs.now)) }
    ensures fault { IfErr result (IsUntidyPack packs.now) }
{
    let mut programs = Vec::new(alloc);
    for (index, pack) in packs.iter().enumerate() {
        let names = LayoutNames::new(alloc, &pack.index().ns)?;
        if let Some(Untidy { name, line }) = untidy_in(alloc, &names, pack)? {
            return Err(MultiFault::Untidy { index, name, line });
        }
        programs.push(Program::new(names))?;
    }
    Ok(programs)
}
