// Whether conditions are true.
ghost use Rattle.std.specs.Prelude.{◌≡◌, ◌&&◌, if◌then◌else◌, map, not};
ghost use Rattle.mc_cmd.specs.View.{sub_view, test_view};
ghost use Rattle.mc_cmd.specs.World.{all_go_on, goes_on, test_holds, test_stands};
ghost use Rattle.mc_world.specs.WorldView.{seen};

use crate::World;
use crate::range::{compares, is_in};
use mc_cmd::{Sub, Test};

impl World {
    /// Whether an `execute` goes on past all its sub-commands: each condition is true, and the objective of each store
    /// stands. A condition that names an objective that isn't there is false, an `unless` too.
    pub fn all_go_on(&self, subs: &[Sub]) -> bool
        ensures { result ≡ all_go_on (map sub_view subs.now) (seen self.now) }
    {
        for sub in subs {
            if !self.goes_on(sub) {
                return false;
            }
        }
        true
    }

    fn goes_on(&self, sub: &Sub) -> bool
        ensures { result ≡ goes_on (sub_view sub.now) (seen self.now) }
    {
        match sub {
            Sub::Test { unless, test } => self.answers(*unless, test),
            Sub::StoreScore { holder, obj } => self.stands_for(holder, obj),
            Sub::StoreData { .. } => true,
        }
    }

    fn answers(&self, unless: bool, test: &Test) -> bool
        ensures { result ≡ (test_stands (test_view test.now) (seen self.now) && (if unless then not (test_holds (test_view test.now) (seen self.now)) else test_holds (test_view test.now) (seen self.now))) }
    {
        match test {
            Test::Compare {
                holder,
                obj,
                cmp,
                from_holder,
                from_obj,
            } => match (self.score(holder, obj), self.score(from_holder, from_obj)) {
                (Some(a), Some(b)) => compares(*cmp, a, b) != unless,
                _ => unless && self.has_objective(obj) && self.has_objective(from_obj),
            },
            Test::Matches { holder, obj, range } => match self.score(holder, obj) {
                Some(n) => is_in(*range, n) != unless,
                None => unless && self.has_objective(obj),
            },
            Test::Stored { id, path } => self.selected(id, path).is_some() != unless,
        }
    }
}
