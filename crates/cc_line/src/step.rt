// Steps of emitted code: each is one line.
use crate::{Leaf, Scratch, Site, Spot};
use mc_cmd::{Cmp, Op, Range};

/// What a step does.
#[derive(Clone, Copy)]
pub enum Act {
    /// A spot gets a number.
    SetSpot { spot: Spot, value: i32 },
    /// A spot gets a number more, modulo 2^32; the number is below 2^31.
    Increase { spot: Spot, by: u32 },
    /// A spot gets a number less, modulo 2^32; the number is below 2^31.
    Decrease { spot: Spot, by: u32 },
    /// A spot gets what an operation of it and another one gives.
    Combine { to: Spot, op: Op, from: Spot },
    /// A place gets a number.
    SetPlace { place: u32, value: i32 },
    /// A place gets what another one has.
    CopyPlace { to: u32, from: u32 },
    /// A scratch score gets what a place has.
    LoadPlace { to: Scratch, place: u32 },
    /// A place gets what a scratch score has.
    KeepPlace { place: u32, from: Scratch },
    /// A scratch score gets the number at a path, 0 where nothing stands.
    LoadSite { to: Scratch, site: Site },
    /// A path gets what a scratch score has.
    KeepSite { site: Site, from: Scratch },
    /// A path gets what a place has.
    PlaceToSite { site: Site, place: u32 },
    /// A place gets the int at a path.
    SiteToPlace { place: u32, site: Site },
    /// A path gets a tree.
    SetSite { site: Site, leaf: Leaf },
    /// A path gets what stands at another one.
    CopySite { to: Site, from: Site },
    /// A list gets one more element.
    AppendLeaf { site: Site, leaf: Leaf },
    /// A list gets one more element: what stands at another path.
    AppendSite { to: Site, from: Site },
    /// What stands at a path below a key is removed.
    EraseSite { site: Site },
    /// The innermost frame gets one more place, which is a score.
    OpenPlace { place: u32 },
    /// So many zeros become the places of the innermost frame that are no scores.
    MakeZeros { count: u32 },
    /// A path gets the list of the places of the innermost frame that are no scores.
    SaveList { site: Site },
    /// The list at a path becomes the places of the innermost frame that are no scores.
    RestoreList { site: Site },
}

/// What is tested.
#[derive(Clone, Copy)]
pub enum Check {
    /// A spot is in a range.
    InRange(Spot, Range),
    /// Two spots compare so.
    Compare(Spot, Cmp, Spot),
    /// Something stands at a path.
    Stands(Site),
}

/// A condition.
#[derive(Clone, Copy)]
pub enum Cond {
    Holds(Check),
    Fails(Check),
}

/// One condition, or two.
#[derive(Clone, Copy)]
pub enum Conds {
    One(Cond),
    Two(Cond, Cond),
}

/// A step.
#[derive(Clone, Copy)]
pub enum Step {
    /// An act.
    Run(Act),
    /// An act where conditions hold.
    When(Conds, Act),
    /// The end of the list of lines, where conditions hold.
    StopWhen(Conds),
}
