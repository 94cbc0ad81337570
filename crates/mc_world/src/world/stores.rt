// What the stores of an `execute` leave.
ghost use Rattle.std.specs.Prelude.{◌≡◌, ◌∷◌, [], OnErr, OnOk, map, true};
ghost use Rattle.std.specs.List.{list_all};
ghost use Rattle.mc_cmd.specs.Grammar.{stores};
ghost use Rattle.mc_cmd.specs.View.{sub_view};
ghost use Rattle.mc_cmd.specs.World.{store_all};
ghost use Rattle.mc_world.specs.WorldView.{seen};
ghost use Rattle.mc_world.specs.steps.Stores.{AreStoredInPart, store_stands};

use crate::World;
use crate::tree_change::Way;
use mc_cmd::Sub;
use mc_nbt::{Memory, Nbt};

impl World {
    pub(super) fn store_all(&mut self, subs: &[Sub], n: i32) -> Result<(), Memory>
        requires { list_all (store_stands (seen self.old)) (map sub_view subs.now) ≡ true }
        ensures stores { OnOk result (seen self.new ≡ store_all (map sub_view subs.now) n (seen self.old)) }
        ensures memory { OnErr result (AreStoredInPart (map sub_view subs.now) n (seen self.old) (seen self.new)) }
    {
        for sub in subs {
            self.store(sub, n)?;
        }
        Ok(())
    }

    fn store(&mut self, sub: &Sub, n: i32) -> Result<(), Memory>
        requires { store_stands (seen self.old) (sub_view sub.now) ≡ true }
        ensures stores { OnOk result (seen self.new ≡ store_all (sub_view sub.now ∷ []) n (seen self.old)) }
        ensures unchanged { OnErr result (seen self.new ≡ seen self.old) }
        ensures is_one { OnErr result (stores (sub_view sub.now) ≡ true) }
    {
        match sub {
            Sub::Test { .. } => Ok(()),
            Sub::StoreScore { holder, obj } => self.set_score(holder, obj, n),
            Sub::StoreData { id, path } => {
                self.put_value(Way::Set, id, path, &Nbt::Int(n))?;
                Ok(())
            }
        }
    }
}
