// Lines of helpers that a compound fills.
use crate::{Conds, Key, Leaf, OpenSite, Scratch, Spot, Stem, Step};
use mc_cmd::Op;

/// What a macro line does. A key that is told is one of the compound that fills the line.
#[derive(Clone, Copy)]
pub enum OpenAct {
    /// A spot gets the number that is told under a key.
    SetSpot {
        spot: Spot,
        told: Key,
    },
    /// A spot gets what an operation of it gives with the standing score of a family whose number, from 0 up, is told.
    Combine {
        to: Spot,
        op: Op,
        from: Stem,
        told: Key,
    },
    /// A scratch score gets the number at a path, 0 where nothing stands.
    LoadSite {
        to: Scratch,
        site: OpenSite,
    },
    /// A path gets what a scratch score has.
    KeepSite {
        site: OpenSite,
        from: Scratch,
    },
    /// A path gets what a place has.
    PlaceToSite {
        site: OpenSite,
        place: u32,
    },
    /// A place gets the int at a path.
    SiteToPlace {
        place: u32,
        site: OpenSite,
    },
    /// A path gets a tree.
    SetSite {
        site: OpenSite,
        leaf: Leaf,
    },
    /// A path gets what stands at another one.
    CopySite {
        to: OpenSite,
        from: OpenSite,
    },
}

/// A line of a helper that is filled.
#[derive(Clone, Copy)]
pub enum OpenStep {
    /// A step as it stands.
    Closed(Step),
    /// A macro line.
    Run(OpenAct),
    /// A macro line that acts where conditions hold.
    When(Conds, OpenAct),
}
