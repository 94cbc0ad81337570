// The acts of ways out of a piece.
ghost use Rattle.std.specs.Prelude.{◌≡◌, ◌++◌, OnOk};
ghost use Rattle.cc_line.specs.View.{act_view, key_text, piece_view, site_view};
ghost use Rattle.cc_body.specs.Emit.{carry_acts, name_acts, number_in};
ghost use Rattle.cc_call.specs.View.{acts_view};
ghost use Rattle.cc_body.specs.steps.Emission.{acts_by, goto};

use cc_line::{Act, Below, Key, Leaf, Part, PieceId, Scratch, Site, Store, sum};
use mc_nbt::Memory;

/// The cut of this index is next.
pub(crate) fn goto(func: u32, index: u32) -> Act
    ensures { act_view result ≡ goto func index }
{
    Act::SetSite {
        site: Site::at(Store::Rest, Key::Next),
        leaf: Leaf::Piece(PieceId::Body { func, index }),
    }
}

/// Adds that act, if there is a cut.
pub(crate) fn push_goto(func: u32, found: Option<u32>, acts: &mut Vec<Act>) -> Result<(), Memory>
    ensures { OnOk result (acts_view acts.new.items ≡ acts_view acts.old.items ++ acts_by func found) }
{
    if let Some(index) = found {
        acts.push(goto(func, index))?;
    }
    Ok(())
}

// Where a number stands in the name of a piece that a key has.
fn number_in(key: Key) -> Site
    ensures { site_view result ≡ number_in (key_text key) }
{
    Site {
        store: Store::Rest,
        key,
        below: Below::One(Part::Key(Key::Number)),
    }
}

/// The piece under a key is the one of the kind of this one whose number was found.
pub(crate) fn push_named(key: Key, id: PieceId, acts: &mut Vec<Act>) -> Result<(), Memory>
    ensures { OnOk result (acts_view acts.new.items
        ≡ acts_view acts.old.items ++ name_acts (key_text key) (piece_view id)) }
{
    acts.push(Act::SetSite {
        site: Site::at(Store::Rest, key),
        leaf: Leaf::Piece(id),
    })?;
    acts.push(Act::KeepSite {
        site: number_in(key),
        from: Scratch::C,
    })?;
    Ok(())
}

/// So many numbers, from a place on, go to the places from another one below it on.
pub(crate) fn push_carry(count: u32, from: u32, to: u32, acts: &mut Vec<Act>) -> Result<(), Memory>
    ensures { OnOk result (acts_view acts.new.items ≡ acts_view acts.old.items ++ carry_acts count from to) }
{
    for index in 0..count {
        let source = sum(from, index)?;
        let target = sum(to, index)?;
        acts.push(Act::CopyPlace {
            to: target,
            from: source,
        })?;
    }
    Ok(())
}
