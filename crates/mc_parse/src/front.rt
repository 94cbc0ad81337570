// Scores and places that stand before other words.
ghost use Rattle.std.specs.Prelude.{◌≡◌, IfOk, Option, Some, None, option_map};
ghost use Rattle.mc_nbt.specs.View.{parts};
ghost use Rattle.mc_cmd.specs.Grammar.{modified, place_front, place_within, score_after, score_front};

use crate::path::read_path;
use crate::words::{read_holder, read_id, read_objective};
use mc_cmd::{cut, strip_front};
use mc_nbt::{Memory, Path, Text};
use std::alloc::Global;

// A holder and an objective, each with the space behind it.
pub(crate) fn read_score_front(
    alloc: Global,
    t: &[u8],
) -> Result<Option<((Text, Text), &[u8])>, Memory>
    ensures { IfOk result (λ o. option_map (λ p. (p.0, p.1.now)) o ≡ score_front.read t.now) }
{
    let Some((w, t)) = cut(t, b' ') else {
        return Ok(None);
    };
    let Some(holder) = read_holder(alloc, w)? else {
        return Ok(None);
    };
    let Some((w, t)) = cut(t, b' ') else {
        return Ok(None);
    };
    let Some(obj) = read_objective(alloc, w)? else {
        return Ok(None);
    };
    Ok(Some(((holder, obj), t)))
}

// The same behind a front.
pub(crate) fn read_score_after<'a>(
    alloc: Global,
    t: &'a [u8],
    front: &[u8],
) -> Result<Option<((Text, Text), &'a [u8])>, Memory>
    ensures { IfOk result (λ o. option_map (λ p. (p.0, p.1.now)) o ≡ (score_after front.now).read t.entry.now) }
{
    match strip_front(t, front) {
        Some(t) => read_score_front(alloc, t),
        None => Ok(None),
    }
}

// A storage's name and a path, each with the space behind it.
pub(crate) fn read_place_front(
    alloc: Global,
    t: &[u8],
) -> Result<Option<((Text, Path), &[u8])>, Memory>
    ensures { IfOk result (λ o. option_map (λ p. ((p.0.0, parts p.0.1), p.1.now)) o ≡ place_front.read t.now) }
{
    let Some((w, t)) = cut(t, b' ') else {
        return Ok(None);
    };
    let Some(id) = read_id(alloc, w)? else {
        return Ok(None);
    };
    let Some((w, t)) = cut(t, b' ') else {
        return Ok(None);
    };
    let Some(path) = read_path(alloc, w)? else {
        return Ok(None);
    };
    Ok(Some(((id, path), t)))
}

// The same behind a front and before an end.
pub(crate) fn read_place_within<'a>(
    alloc: Global,
    t: &'a [u8],
    front: &[u8],
    end: &[u8],
) -> Result<Option<((Text, Path), &'a [u8])>, Memory>
    ensures { IfOk result (λ o. option_map (λ p. ((p.0.0, parts p.0.1), p.1.now)) o ≡ (place_within front.now end.now).read t.entry.now) }
{
    let Some(t) = strip_front(t, front) else {
        return Ok(None);
    };
    let Some((place, t)) = read_place_front(alloc, t)? else {
        return Ok(None);
    };
    match strip_front(t, end) {
        Some(t) => Ok(Some((place, t))),
        None => Ok(None),
    }
}

// A place that is changed so.
pub(crate) fn read_modified<'a>(
    alloc: Global,
    t: &'a [u8],
    how: &[u8],
) -> Result<Option<((Text, Path), &'a [u8])>, Memory>
    ensures { IfOk result (λ o. option_map (λ p. ((p.0.0, parts p.0.1), p.1.now)) o ≡ (modified how.now).read t.entry.now) }
{
    read_place_within(alloc, t, b"data modify storage ", how)
}
