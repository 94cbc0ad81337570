// Where places are.
ghost use Rattle.std.specs.Prelude.{◌≡◌, nat_lt};
ghost use Rattle.cc_line.specs.Place.{score_places};

/// So many places of a frame are scores; the further ones stand in a list.
pub const SCORE_PLACES: u32 = 128;

/// Whether a place is a score.
pub fn is_score(place: u32) -> bool
    ensures { result ≡ nat_lt place score_places }
{
    place < SCORE_PLACES
}
