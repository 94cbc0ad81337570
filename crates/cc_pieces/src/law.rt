// Laws of pieces, which the crates above cite: the contract of each function is the law, and it does nothing.
ghost use Rattle.cc_pieces.specs.Law.{DonesAreLight, GrowerIsLight, PlacersAreLight, TakersAreLight};

/// Law: the shared pieces are lines under every namespace, and are light: those that take arguments, put values to
/// their places, append pages, and end jobs.
pub fn shared_pieces_are_light()
    ensures takers { TakersAreLight }
    ensures placers { PlacersAreLight }
    ensures grower { GrowerIsLight }
    ensures dones { DonesAreLight }
{}
