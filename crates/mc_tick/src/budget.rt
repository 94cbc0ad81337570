ghost use Rattle.std.specs.Prelude.{◌↔◌, IsTrue};
ghost use Rattle.mc_cmd.specs.Pack.{IsBudget};

use mc_cmd::BMIN;

/// Whether this is a budget of a tick or a reload: from `BMIN` to 2,147,483,647.
pub fn enough(budget: u32) -> bool
    ensures { IsTrue result ↔ IsBudget budget }
{
    budget >= BMIN && budget <= 2_147_483_647
}
