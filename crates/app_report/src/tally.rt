// How many pieces there are of a group, and what the heaviest weighs.

ghost use Rattle.std.specs.Prelude.{◌≡◌, ◌<◌, ◌-◌, ◌^◌, true};
ghost use Rattle.app_report.specs.Costs as spec;

use crate::pieces::{Group, Piece, same_group};

/// How many pieces there are, and the greatest weight of one, 0 where there is none.
#[derive(Clone, Copy)]
pub(crate) struct Tally {
    pub pieces: usize,
    pub heaviest: u32,
}

impl Tally {
    fn none() -> Tally
        ensures { result ≡ spec.no_piece }
    {
        Tally {
            pieces: 0,
            heaviest: 0,
        }
    }

    fn with_piece(self, weight: u32) -> Tally
        requires { self.pieces < 2 ^ 64 - 1 }
        ensures { result ≡ spec.with_piece self weight }
    {
        Tally {
            pieces: self.pieces + 1,
            heaviest: self.heaviest.max(weight),
        }
    }
}

/// That of the pieces of a group.
pub(crate) fn tally_of(group: Group, pieces: &[Piece]) -> Tally
    ensures { result ≡ spec.tally (spec.same_group group) pieces.now }
{
    let mut tally = Tally::none();
    for piece in pieces {
        if same_group(group, piece.group) {
            tally = tally.with_piece(piece.weight);
        }
    }
    tally
}

/// That of all pieces.
pub(crate) fn total(pieces: &[Piece]) -> Tally
    ensures { result ≡ spec.tally (λ g. true) pieces.now }
{
    let mut tally = Tally::none();
    for piece in pieces {
        tally = tally.with_piece(piece.weight);
    }
    tally
}
