ghost use Rattle.std.specs.Prelude.{◌≡◌, ◌∷◌, List, true, false, MatchOption};
ghost use Rattle.std.specs.List.{list_all};
ghost use Rattle.mc_nbt.specs.Path.{is_path, is_part, begins_with_key};
ghost use Rattle.mc_nbt.specs.View.{part, parts};

use crate::Text;
use crate::byte::is_in_range;
use crate::key::is_key;
use std::marker::Model;

/// A step of a path.
#[derive(Debug, PartialEq, Eq, Drop)]
pub enum PathPart {
    /// To a key of a compound.
    Key(Text),
    /// To a place of a list: from 0 up from the front, and from -1 down from the end.
    Place(i32),
}

/// A path into a tree: 1 to 16 steps, of which the first is a key; and each key has 1 to 32 letters, digits and
/// `_`. It is seen as the list of its steps.
#[derive(Debug, Drop)]
pub struct Path {
    steps: Vec<PathPart>,
}

impl Model for Path {
    ghost use Rattle.std.specs.Prelude.{◌≡◌, List, true};
    ghost use Rattle.mc_nbt.specs.Path.{is_path};
    ghost use Rattle.mc_nbt.specs.View.{parts};
    ghost use Rattle.mc_nbt.specs.declared.path.PathPart.{PathPart};

    ghost Value = { List PathPart };

    ghost view = { λ p. p.steps.items };

    ghost invariant = { λ p. is_path (parts p.steps.items) ≡ true };
}

impl Path {
    /// The path of these steps; `None` exactly where they are no path.
    pub fn new(steps: Vec<PathPart>) -> Option<Path>
        ensures { MatchOption result (is_path (parts steps.items) ≡ false) (λ p. p ≡ steps.items) }
    {
        if is_path_of(steps.as_slice()) {
            Some(Path { steps })
        } else {
            None
        }
    }

    /// The steps.
    pub fn parts(&self) -> &[PathPart]
        ensures steps { result.now ≡ self.now }
        ensures path { is_path (parts self.now) ≡ true }
    {
        self.steps.as_slice()
    }

    // The first step and those behind it.
    pub(crate) fn split(&self) -> (&PathPart, &[PathPart])
        ensures { parts self.now ≡ part result.0.now ∷ parts result.1.now }
    {
        match self.parts() {
            [first, rest @ ..] => (first, rest),
            [] => unreachable!(),
        }
    }
}

#[tactic(auto, unfolding(crate::specs::Path::is_path))]
fn is_path_of(steps: &[PathPart]) -> bool
    ensures { result ≡ is_path (parts steps.now) }
{
    starts_with_key(steps) && steps.len() <= 16 && are_steps(steps)
}

fn are_steps(steps: &[PathPart]) -> bool
    ensures { result ≡ list_all is_part (parts steps.now) }
{
    for step in steps {
        if !is_step(step) {
            return false;
        }
    }
    true
}

fn starts_with_key(steps: &[PathPart]) -> bool
    ensures { result ≡ begins_with_key (parts steps.now) }
{
    match steps {
        [PathPart::Key(_), ..] => true,
        _ => false,
    }
}

fn is_step(step: &PathPart) -> bool
    ensures { result ≡ is_part (part step.now) }
{
    match step {
        PathPart::Key(name) => is_key(name.as_bytes()),
        PathPart::Place(place) => is_in_range(*place),
    }
}
