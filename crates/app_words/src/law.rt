// Laws of scripts: the contract of each function is the law, and it does nothing.
ghost use Rattle.std.specs.Prelude.{ℕ};
ghost use Rattle.mc_cmd.specs.declared.TheConstants.{BMIN};
ghost use Rattle.app_words.specs.Script.{IsReadAsSpelled, acts};
ghost use Rattle.app_words.specs.SharedScript.{shared_acts};
ghost use Rattle.app_words.specs.WhereScript.{where_acts};

/// Law: each line of a script that does something is read as it is spelled, and what is read is spelled so.
pub fn script_lines_are_read_as_spelled()
    ensures { IsReadAsSpelled (acts BMIN) }
{}

/// Law: so is each line of a script over several programs.
pub fn shared_lines_are_read_as_spelled()
    ensures { (n : ℕ) → IsReadAsSpelled (shared_acts n) }
{}

/// Law: so is each line of a script that may ask where the program is.
pub fn where_lines_are_read_as_spelled()
    ensures { IsReadAsSpelled (where_acts BMIN) }
{}
