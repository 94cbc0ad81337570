// Where the items of each module stand, and the numbers of the items there.
ghost use Rattle.std.specs.Prelude.{◌≡◌, ◌^◌, ◌<◌, length};
ghost use Rattle.wm_join.specs.Numbering.{total};
ghost use Rattle.wm_join.specs.steps.Places.{IsPlace, number_in, binding_number};

use crate::place::Place;
use wm_match::Binding;

impl Place {
    /// The number of the item at this index of the module. One that isn't there gets the number of all.
    pub(crate) fn number(&self, index: u32) -> u32
        ensures { result ≡ number_in self.now index }
    {
        if index < self.count {
            self.first + index
        } else {
            self.all
        }
    }
}

/// Where the items of module k stand, by how many each module has.
pub(crate) fn place_of(counts: &[u32], k: usize) -> Place
    requires number { k < length counts.now }
    requires few { total counts.now < 2 ^ 32 }
    ensures { IsPlace counts.now k result }
{
    let (before, _) = counts.split_at(k);
    Place {
        first: total(before),
        count: counts[k],
        all: total(counts),
    }
}

/// The number of the item that a binding tells, by how many each module has.
#[tactic(auto, using(crate::proofs::PlaceLaws::number_here, crate::proofs::PlaceLaws::number_gone))]
pub(crate) fn item_number(counts: &[u32], b: Binding) -> u32
    requires { total counts.now < 2 ^ 32 }
    ensures { result ≡ binding_number counts.now b }
{
    let k = b.module as usize;
    if k < counts.len() {
        let place = place_of(counts, k);
        place.number(b.index)
    } else {
        total(counts)
    }
}

#[tactic(auto, using(crate::proofs::PlaceLaws::total_more, crate::proofs::PlaceLaws::total_all))]
fn total(counts: &[u32]) -> u32
    requires { total counts.now < 2 ^ 32 }
    ensures { result ≡ total counts.now }
{
    let mut sum = 0u32;
    for count in counts {
        sum += *count;
    }
    sum
}
