//! What `costs` prints of a pack.

ghost use Rattle.std.specs.Prelude.{◌≡◌, ◌∷◌, IfOk, string_bytes};
ghost use Rattle.std.specs.Fmt.{decimal};
ghost use Rattle.app_report.specs.Costs as spec;
ghost use Rattle.app_report.specs.Costs.{ArePiecesLight};

use crate::pieces::{Group, Piece, pieces_of};
use crate::tally::{Tally, tally_of, total};
use mc_cmd::Pack;
use mc_nbt::{Memory, Text};
use std::alloc::Global;

// The line of the pieces of a function.
fn function_line(alloc: Global, function: u32, tally: Tally) -> Result<String, Memory>
    ensures { IfOk result (λ s. string_bytes s ≡ spec.cost_line (102 ∷ decimal function) tally) }
{
    let Tally { pieces, heaviest } = tally;
    Ok(format!(in alloc; "f{function} pieces {pieces} heaviest {heaviest}\n")?)
}

// The line of other pieces.
fn cost_line(alloc: Global, what: &str, tally: Tally) -> Result<String, Memory>
    ensures { IfOk result (λ s. string_bytes s ≡ spec.cost_line what.now tally) }
{
    let Tally { pieces, heaviest } = tally;
    Ok(format!(in alloc; "{what} pieces {pieces} heaviest {heaviest}\n")?)
}

// A line for each function below `funcs`.
fn function_lines(alloc: Global, pieces: &[Piece], funcs: u32) -> Result<String, Memory>
    ensures { IfOk result (λ s. string_bytes s ≡ spec.function_lines funcs pieces.now) }
{
    let mut text = String::new(alloc);
    for function in 0..funcs {
        let tally = tally_of(Group::Function(function), pieces);
        let line = function_line(alloc, function, tally)?;
        text.push_str(line.as_str())?;
    }
    Ok(text)
}

fn costs_lines(alloc: Global, pieces: &[Piece], funcs: u32) -> Result<String, Memory>
    ensures { IfOk result (λ s. string_bytes s ≡ spec.costs_lines funcs pieces.now) }
{
    let mut text = function_lines(alloc, pieces, funcs)?;
    let init = cost_line(alloc, "init", tally_of(Group::Instantiation, pieces))?;
    text.push_str(init.as_str())?;
    let shared = cost_line(alloc, "shared", tally_of(Group::Shared, pieces))?;
    text.push_str(shared.as_str())?;
    let all = cost_line(alloc, "total", total(pieces))?;
    text.push_str(all.as_str())?;
    Ok(text)
}

/// The lines of `costs` of a pack: for each function I below `funcs`, in order, the number of pieces `fI_J` and the
/// greatest static weight of one; the same of the pieces `iJ` of instantiation, of the pieces `sJ` that are shared, and
/// of all of these. The pieces run no functions in a circle, and none weighs more than `PIECE`.
///
/// # Errors
///
/// `Memory` where there is no room for the lines, or for what the pack's lines say.
pub fn costs(alloc: Global, pack: &Pack, funcs: u32) -> Result<Text, Memory>
    requires { ArePiecesLight pack.now }
    ensures { IfOk result (λ t. t ≡ spec.costs_text pack.now funcs) }
{
    let pieces = pieces_of(alloc, pack, funcs)?;
    let text = costs_lines(alloc, pieces.as_slice(), funcs)?;
    Ok(Text::from(text))
}
