// Division of i64: which instructions are divisions, and what goes on in pieces of their own.
ghost use Rattle.std.specs.Prelude.{◌≡◌, ◌++◌, Some, true, IfSome, OnOk};
ghost use Rattle.wm_ast.specs.Operator.{divides};
ghost use Rattle.wm_ast.specs.View.{op_of};
ghost use Rattle.wm_place.specs.Stop.{visit_told};
ghost use Rattle.cc_cut.specs.Index.{index_at};
ghost use Rattle.cc_cut.specs.Way.{path_behind};
ghost use Rattle.cc_pieces.specs.Dividing.{divided_items};
ghost use Rattle.cc_pieces.specs.Lists.{listed};
ghost use Rattle.cc_pieces.specs.Parts.{parts_view};
ghost use Rattle.cc_pieces.specs.View.{list_view};
ghost use Rattle.cc_body.specs.Behind.{division_before, division_of, op_division};
ghost use Rattle.cc_body.specs.steps.Emission.{top};
ghost use Rattle.cc_body.specs.steps.PartBuilder.{answered};
ghost use Rattle.cc_body.specs.steps.PieceBuilder.{ground};

use crate::body::Body;
use crate::lean_body::LeanBody;
use crate::width::top;
use cc_line::Item;
use cc_pieces::{Part, answering_items, answering_piece, turning_part};
use mc_nbt::{Kind, Memory};
use wm_ast::{BinaryOp, Instr, Operator};
use wm_place::Stop;

// ---- which instructions are divisions

/// The division of i64 that an operator is, if it is one.
pub(crate) fn division_of(operator: Operator) -> Option<BinaryOp>
    ensures of { result ≡ division_of operator }
    ensures divides { IfSome result (λ op. divides op ≡ true) }
{
    match operator {
        Operator::Binary(Kind::I64, op) => { if op.divides() { Some(op) } else { None } }
        _ => None,
    }
}

fn op_division(instr: &Instr) -> Option<BinaryOp>
    ensures of { result ≡ op_division (op_of instr.now) }
    ensures divides { IfSome result (λ op. divides op ≡ true) }
{
    match instr {
        Instr::Num(op) => division_of(op.operator()),
        _ => None,
    }
}

/// The division behind which a place stands, if it stands behind one.
pub(crate) fn division_before(stop: Stop<'_>) -> Option<BinaryOp>
    ensures before { result ≡ division_before (visit_told stop.entry) }
    ensures divides { IfSome result (λ op. divides op ≡ true) }
{
    op_division(stop.before.last()?)
}

// ---- what goes on in pieces of their own

/// A division of the last two operands is begun. The piece that makes its turns is next, or, where none is left, the
/// one that puts its answer to its places.
pub(crate) fn push_divided(
    body: &Body<'_>,
    op: BinaryOp,
    stop: Stop<'_>,
    items: &mut Vec<Item>,
) -> Result<(), Memory>
    requires { divides op ≡ true }
    ensures { OnOk result (list_view items.new.items ≡ list_view items.old.items
        ++ listed (divided_items op (top (ground body.now) (visit_told stop.entry)) body.now.func
        (index_at body.now.indices.now (path_behind stop.entry.path.now)))) }
{
    let top = top(body, stop.kinds)?;
    let found = body.indices.behind(body.alloc, stop.path)?;
    cc_pieces::push_divided(body.alloc, op, top, body.func, found, items)
}

/// Adds both pieces of the division before the cut of this index.
pub(crate) fn push_dividing(
    lean: &LeanBody<'_>,
    op: BinaryOp,
    index: u32,
    stop: Stop<'_>,
    parts: &mut Vec<Part>,
) -> Result<(), Memory>
    requires { divides op ≡ true }
    ensures { OnOk result (parts_view parts.new.items ≡ parts_view parts.old.items
        ++ answered lean.now index (visit_told stop.entry) (Some op)) }
{
    let top = top(&lean.body, stop.kinds)?;
    let Body { alloc, func, .. } = lean.body;
    let items = answering_items(alloc, op, top, func, index)?;
    parts.push(lean.part(answering_piece(func, index)?, items)?)?;
    parts.push(turning_part(alloc, func, index)?)?;
    Ok(())
}
