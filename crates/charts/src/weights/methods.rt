ghost use Rattle.std.specs.Prelude.{◌≡◌, ◌<◌, ◌≤◌, sum};
ghost use Rattle.places.specs.Bags.{empty};
ghost use Rattle.places.specs.Sets.{size};
ghost use Rattle.charts.specs.Rows.{added_as, weights_of, with_weight};
ghost use Rattle.charts.specs.Refusals.{unless_refused};

use super::*;
use crate::RowRefusal;
use nets::MOST_SUM;

/// The sum of some numbers.
fn sum_of(counts: &[u8]) -> u8
    requires { sum counts.now < 256 }
    ensures { result ≡ sum counts.now }
{
    counts.iter().sum()
}

impl Weights {
    /// No weights.
    pub(crate) fn new() -> Weights
        ensures { weights_of result ≡ empty }
    {
        Weights { counts: [0; 16] }
    }

    /// The weight at a place, 0 above 15.
    pub(crate) fn at(&self, place: u8) -> u8
        ensures { result ≡ weights_of self.now place }
    {
        self.counts.get(place as usize).copied().unwrap_or(0)
    }

    /// What all weights add up to.
    pub(crate) fn total(&self) -> u8
        ensures value { result ≡ size (weights_of self.now) }
        ensures few { result ≤ 4 }
    {
        sum_of(&self.counts)
    }

    /// Adds a weight at a place, or says why not.
    pub(crate) fn add(&mut self, place: u8, weight: u8) -> Result<(), RowRefusal>
        ensures result { result ≡ added_as (weights_of self.old) place weight }
        ensures after { weights_of self.new ≡ unless_refused result (weights_of self.old) (with_weight (weights_of self.old) place weight) }
    {
        if !(1..=MOST_SUM).contains(&weight) {
            return Err(RowRefusal::Weight);
        }
        if place > 15 {
            return Err(RowRefusal::NoSuchPlace);
        }
        if self.at(place) > 0 {
            return Err(RowRefusal::Repeated);
        }
        if self.total() + weight > MOST_SUM {
            return Err(RowRefusal::TooHeavy);
        }
        self.counts[place as usize] = weight;
        Ok(())
    }
}
