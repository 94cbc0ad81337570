// The paths that calls and returns read and write.
ghost use Rattle.std.specs.Prelude.{◌≡◌, IfOk};
ghost use Rattle.cc_line.specs.View.{part_view, site_view};
ghost use Rattle.cc_call.specs.Fetch.{last_place};
ghost use Rattle.cc_call.specs.Frames.{last_site, result_at};
ghost use Rattle.cc_call.specs.steps.Paths.{in_entry, in_last, in_last_list};

use cc_line::{Below, Key, Part, SCORE_PLACES, Site, Store, int_of};
use mc_nbt::Memory;

/// A path in the entry that is being made.
pub(crate) fn in_entry(part: Part) -> Site
    ensures { site_view result ≡ in_entry (part_view part) }
{
    Site {
        store: Store::Rest,
        key: Key::Entry,
        below: Below::One(part),
    }
}

/// The last of the frames below.
pub(crate) fn last_site() -> Site
    ensures { site_view result ≡ last_site }
{
    Site {
        store: Store::Rest,
        key: Key::Below,
        below: Below::One(Part::Place(-1)),
    }
}

/// A path in it.
pub(crate) fn in_last(part: Part) -> Site
    ensures { site_view result ≡ in_last (part_view part) }
{
    Site {
        store: Store::Rest,
        key: Key::Below,
        below: Below::Two(Part::Place(-1), part),
    }
}

/// An element of its list.
pub(crate) fn in_last_list(at: i32) -> Site
    ensures { site_view result ≡ in_last_list at }
{
    Site {
        store: Store::Rest,
        key: Key::Below,
        below: Below::Three(Part::Place(-1), Part::Key(Key::List), Part::Place(at)),
    }
}

/// A place of it; no memory where its number is too great for an element of a list.
pub(crate) fn last_place(place: u32) -> Result<Site, Memory>
    ensures { IfOk result (λ p. site_view p ≡ last_place place) }
{
    if place < SCORE_PLACES {
        return Ok(in_last(Part::Number(place)));
    }
    let at = int_of(place - SCORE_PLACES)?;
    Ok(in_last_list(at))
}

/// An element of the result.
pub(crate) fn result_at(index: u32) -> Result<Site, Memory>
    ensures { IfOk result (λ p. site_view p ≡ result_at index) }
{
    let at = int_of(index)?;
    Ok(Site {
        store: Store::Io,
        key: Key::Result,
        below: Below::One(Part::Place(at)),
    })
}
