ghost use Rattle.std.specs.Prelude.{◌+◌, ◌≤◌};

/// Where the items of one module stand among those of all: behind how many, how many they are, and how many all modules
/// have.
#[derive(Clone, Copy, Debug)]
pub(crate) struct Place {
    pub(crate) first: u32,
    pub(crate) count: u32,
    pub(crate) all: u32,
    ghost within: { first + count ≤ all },
}
