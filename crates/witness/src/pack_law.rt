// Laws of the packs of the example: the contract of each function is the law, and it does nothing.
ghost use Rattle.std.specs.Prelude.{◌≡◌, codes, true};
ghost use Rattle.mc_cmd.specs.Form.{Text};
ghost use Rattle.mc_cmd.specs.Packing.{Written, is_written, pack_view};
ghost use Rattle.pk_link.specs.Linked.{IsPackFor};
ghost use Rattle.witness.specs.Example.{dying, example};
ghost use Rattle.witness.specs.Holding.{IsHeld};
ghost use Rattle.witness.specs.Played.{Dies, IsPlayed, IsPlayedByTurns, export_types};

/// Law: each pack of the example lists its exports, and under lawful events it comes to each state that an answer
/// tells: it runs, is new, is done with the sum that the reduction gives, and has trapped. One call runs on, and
/// its state stands for a configuration. Turns of one piece each bring it to the same sum. A pack of the module that
/// dies is dead. Without this law agreement might hold only because no job ever begins or ends.
pub fn packs_of_the_example_are_played()
    ensures exports { (ns : Text) (pack : Written) → IsPackFor ns example pack
        → (pack_view pack).index.exports ≡ export_types }
    ensures played { (ns : Text) (pack : Written) → IsPackFor ns example pack → IsPlayed (pack_view pack) }
    ensures stepwise { (ns : Text) (pack : Written) → IsPackFor ns example pack → IsPlayedByTurns (pack_view pack) }
    ensures dies { (ns : Text) (pack : Written) → IsPackFor ns dying pack → Dies (pack_view pack) }
{}

/// Law: the files of each pack of the example say a pack of which the same comes. Without it no folder might hold
/// a pack, and a run could do nothing but refuse.
pub fn packs_of_the_example_are_held()
    ensures { (pack : Written) → is_written pack ≡ true → IsPackFor (codes "wk") example pack → IsHeld pack }
{}
