// The laws of programs: the contract of each function is the law, and it does nothing.
ghost use Rattle.std.specs.Prelude.{◌∷◌, ◌++◌, [], List};
ghost use Rattle.mc_together.specs.Together.{ArePrograms, Event, IsLawful};
ghost use Rattle.mc_cmd.specs.Pack.{Pack};
ghost use Rattle.pk_multi.specs.Played.{AllStandAsAlone, HasPlayed};
ghost use Rattle.pk_multi.specs.State.{State, after, after_boot, made_of};

use mc_together::each_pack_answers_as_alone;

/// Law: programs that are loaded have played no event, and each lawful event is one more.
pub fn events_lead_on()
    ensures boot { (ps : List Pack) → HasPlayed (after_boot (made_of ps)) [] }
    ensures event { (s : State) → (es : List Event) → (e : Event) → HasPlayed s es → IsLawful s.packs e
        → HasPlayed (after s e) (es ++ (e ∷ [])) }
{}

/// Law: after lawful events each of several programs stands as it does alone, where what falls to it of them happens,
/// with its shares as budgets.
pub fn programs_stand_as_alone()
    ensures { (s : State) → ArePrograms s.packs → (es : List Event) → HasPlayed s es → AllStandAsAlone s es }
{
    each_pack_answers_as_alone();
}
