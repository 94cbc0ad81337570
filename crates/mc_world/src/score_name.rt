// The names of a score.
ghost use Rattle.std.specs.Prelude.{◌≡◌, true};

use mc_nbt::Text;

#[derive(Drop)]
pub(crate) struct ScoreName {
    pub(crate) holder: Text,
    pub(crate) objective: Text,
}

impl ScoreName {
    pub(crate) fn is(&self, holder: &Text, objective: &Text) -> bool
        ensures { result ≡ true → self.now ≡ record { holder = holder.now; objective = objective.now } }
    {
        self.holder == *holder && self.objective == *objective
    }
}
