// Spots, and which of them a number can be made in.
ghost use Rattle.std.specs.Prelude.{◌≡◌};
ghost use Rattle.cc_line.specs.Key as keys;
ghost use Rattle.cc_line.specs.View.{scratch_text, spot_view};
ghost use Rattle.cc_targets.specs.Move as spec;

use cc_line::{Scratch, Spot, is_score};

pub(crate) fn same_spot(one: Spot, other: Spot) -> bool
    ensures { result ≡ spec.same_spot (spot_view one) (spot_view other) }
{
    match (one, other) {
        (Spot::Scratch(one), Spot::Scratch(other)) => one.holder() == other.holder(),
        (Spot::Place(one), Spot::Place(other)) => one == other,
        (Spot::Scratch(_), Spot::Place(_)) | (Spot::Place(_), Spot::Scratch(_)) => false,
    }
}

// Whether a number can be made in a spot.
pub(crate) fn takes_numbers(spot: Spot) -> bool
    ensures { result ≡ spec.takes_numbers (spot_view spot) }
{
    match spot {
        Spot::Scratch(score) => is_work(score),
        Spot::Place(place) => is_score(place),
    }
}

// Whether a score is anyone's between two instructions.
fn is_work(score: Scratch) -> bool
    ensures { result ≡ keys.is_work (scratch_text score) }
{
    matches!(
        score,
        Scratch::A
            | Scratch::B
            | Scratch::C
            | Scratch::D
            | Scratch::E
            | Scratch::F
            | Scratch::G
            | Scratch::H
            | Scratch::I
            | Scratch::K
            | Scratch::M
            | Scratch::N
            | Scratch::P
            | Scratch::Q
            | Scratch::R
            | Scratch::S
            | Scratch::U
            | Scratch::V
            | Scratch::X
            | Scratch::Y
            | Scratch::Z
    )
}
