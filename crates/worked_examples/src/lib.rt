//! The worked examples that are proved, on the definitions that the contracts of the library use.

#![tactic(auto)]

ghost use Rattle.worked_examples.specs.Worked.{WorkedExamples};

use pairing::outnumbered_is_apart;

/// All worked examples hold: a theorem.
#[tactic(auto, using(crate::proofs::Pairings::two_against_one_each))]
pub fn worked_examples_hold()
    ensures { WorkedExamples }
{
    outnumbered_is_apart();
}

#[cfg(test)]
mod tests {
    use pairing::{find_pairing, has_pairing};
    use places::{PlaceBag, Relation, Side};
    use std::test::Fail;

    #[test]
    fn a_greedy_choice_is_undone(rt: HostRuntime) -> Result<(), Fail> {
        let relation = Relation::from(&[(0, 0), (0, 1), (1, 0)][..]);
        let Ok(bag) = PlaceBag::try_from(&[0, 1][..]) else {
            return Err(Fail::new("a token was refused"));
        };
        assert!(rt; has_pairing(&relation, &bag, &bag));
        Ok(())
    }

    #[test]
    fn the_larger_side_is_shown(rt: HostRuntime) -> Result<(), Fail> {
        let mut right = PlaceBag::new();
        assert!(rt; right.lay(3).is_ok());
        let Err(refusal) = find_pairing(&Relation::new(), &PlaceBag::new(), &right) else {
            return Err(Fail::new("a pairing was found"));
        };
        let (side, places) = refusal.shown();
        assert!(rt; refusal.number() == 33);
        assert!(rt; side == Side::Right);
        assert!(rt; places.contains(3));
        assert!(rt; !places.contains(0));
        Ok(())
    }
}
