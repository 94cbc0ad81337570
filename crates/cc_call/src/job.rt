// The acts with which a job begins and ends.
ghost use Rattle.std.specs.Prelude.{◌≡◌, ◌++◌, OnOk};
ghost use Rattle.cc_call.specs.Frames.{base_acts, done_acts, tell_acts};
ghost use Rattle.cc_call.specs.View.{acts_view};

use crate::frame::{done_piece, result_score};
use crate::path::result_at;
use cc_line::{Act, Key, Leaf, Site, Store};
use mc_nbt::Memory;

/// Adds the acts after which no frame is below but an entry without places, from which a return leads to the end of the
/// job, with so many ints of results.
pub fn begin_frames(results: u32, acts: &mut Vec<Act>) -> Result<(), Memory>
    ensures { OnOk result (acts_view acts.new.items ≡ acts_view acts.old.items ++ base_acts results) }
{
    let below = Site::at(Store::Rest, Key::Below);
    let follows = done_piece(results);
    acts.push(Act::SetSite {
        site: below,
        leaf: Leaf::EmptyList,
    })?;
    acts.push(Act::AppendLeaf {
        site: below,
        leaf: Leaf::Waiting { follows, saved: 0 },
    })?;
    Ok(())
}

// So many results are told.
fn push_tells(count: u32, acts: &mut Vec<Act>) -> Result<(), Memory>
    ensures { OnOk result (acts_view acts.new.items ≡ acts_view acts.old.items ++ tell_acts count 0) }
{
    for index in 0..count {
        let site = result_at(index)?;
        acts.push(Act::KeepSite {
            site,
            from: result_score(index),
        })?;
    }
    Ok(())
}

/// Adds the acts by which the job ends with so many ints of results.
pub fn end_job(results: u32, acts: &mut Vec<Act>) -> Result<(), Memory>
    ensures { OnOk result (acts_view acts.new.items ≡ acts_view acts.old.items ++ done_acts results) }
{
    acts.push(Act::SetSite {
        site: Site::at(Store::Io, Key::Result),
        leaf: Leaf::Zeros(results),
    })?;
    push_tells(results, acts)?;
    acts.push(Act::CopySite {
        to: Site::at(Store::Io, Key::State),
        from: Site::at(Store::Rest, Key::End),
    })?;
    Ok(())
}
