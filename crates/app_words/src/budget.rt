ghost use Rattle.std.specs.Prelude.{◌≡◌, ◌≤◌};
ghost use Rattle.mc_cmd.specs.Pack.{IsBudget};
ghost use Rattle.mc_cmd.specs.declared.TheConstants.{BMIN};
ghost use Rattle.app_words.specs.Script.{is_budget, only};

use std::marker::Model;

/// The budget of a tick or of a reload: from `BMIN` to 2,147,483,647. It is seen as its number.
#[derive(Drop)]
pub struct Budget {
    number: u32,
}

impl Model for Budget {
    ghost use Rattle.std.specs.Prelude.{ℕ};
    ghost use Rattle.mc_cmd.specs.Pack.{IsBudget};

    ghost Value = { ℕ };

    ghost view = { λ b. b.number };

    ghost invariant = { λ b. IsBudget b.number };
}

impl Budget {
    /// The budget of this number, which is at least `least`; `None` exactly where it is lower or out of range.
    pub fn new(least: u32, number: u32) -> Option<Budget>
        requires { BMIN ≤ least }
        ensures { result ≡ only (is_budget least) number }
    {
        if number >= least && number <= 2_147_483_647 {
            Some(Budget { number })
        } else {
            None
        }
    }

    /// The number.
    pub fn number(&self) -> u32
        ensures number { result ≡ self.now }
        ensures budget { IsBudget result }
    {
        self.number
    }
}
