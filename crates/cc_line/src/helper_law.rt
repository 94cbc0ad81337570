// The law of helpers that stand once.
ghost use Rattle.std.specs.Prelude.{List, ℕ};
ghost use Rattle.mc_cmd.specs.Chain.{Functions};
ghost use Rattle.cc_line.specs.Helpers.{AreOne, each_once};
ghost use Rattle.cc_line.specs.Item.{HasAll, Helper};

/// Law: a pack that has each of these helpers once has all of them, where no two of one name have different lines.
pub fn helpers_once_are_all()
    ensures { (functions : Functions) → (ns : List ℕ) → (hs : List Helper) → AreOne hs → HasAll functions ns
        (each_once hs) → HasAll functions ns hs }
{}
