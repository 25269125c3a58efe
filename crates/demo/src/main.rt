//! Runs the examples through the library's public calls, prints all that it did, and compares with values worked by
//! hand.

#![tactic(auto)]

mod compare;
mod examples;
mod print;

use anyhow::anyhow;
use compare::{pairs_agree, refusal_agrees};
use examples::{EXAMPLE_COUNT, Example, PAIRINGS};
use pairing::find_pairing;
use places::{PlaceBag, PlaceSet, Relation};
use print::{NamedBag, NamedPairs, NamedRefusal};
use std::io;

/// Prints the two bags and the relation of an example.
fn print_question(
    rt: &HostRuntime,
    example: &Example,
    left: &PlaceBag,
    right: &PlaceBag,
) -> io::Result<()> {
    let title = example.title;
    let left = NamedBag {
        names: example.left_names,
        bag: left,
    };
    let right = NamedBag {
        names: example.right_names,
        bag: right,
    };
    let relation = NamedPairs {
        example,
        pairs: example.relation,
    };
    println!(rt; "{title}\n  left:{left}\n  right:{right}\n  relation:{relation}")
}

/// Prints the pairing of two bags, or the refusal, and says whether it came out as worked by hand.
fn print_answer(
    rt: &HostRuntime,
    example: &Example,
    left: &PlaceBag,
    right: &PlaceBag,
) -> io::Result<bool> {
    match find_pairing(&Relation::from(example.relation), left, right) {
        Ok(found) => {
            let named = NamedPairs {
                example,
                pairs: found.as_slice(),
            };
            println!(rt; "  pairing:{named}")?;
            Ok(pairs_agree(found.as_slice(), &example.expected))
        }
        Err(refusal) => {
            let (side, places) = refusal.shown();
            let named = NamedRefusal {
                example,
                number: refusal.number(),
                side,
                places,
            };
            println!(rt; "  refused: {named}")?;
            Ok(refusal_agrees(refusal, &example.expected))
        }
    }
}

/// Prints what was worked out by hand.
fn print_expected(rt: &HostRuntime, example: &Example) -> io::Result<()> {
    match example.expected {
        Ok(pairs) => {
            let named = NamedPairs { example, pairs };
            println!(rt; "  by hand:{named}")
        }
        Err(shown) => {
            let named = NamedRefusal {
                example,
                number: shown.number,
                side: shown.side,
                places: PlaceSet::from(shown.places),
            };
            println!(rt; "  by hand: {named}")
        }
    }
}

/// Runs one example, prints it, and says whether it came out as worked by hand.
fn run(rt: &HostRuntime, example: &Example) -> io::Result<bool> {
    let Ok((left, right)) = example.bags() else {
        return Ok(false);
    };
    print_question(rt, example, &left, &right)?;
    let agrees = print_answer(rt, example, &left, &right)?;
    print_expected(rt, example)?;
    rt.println(if agrees {
        "  as by hand\n"
    } else {
        "  NOT AS BY HAND\n"
    })?;
    Ok(agrees)
}

fn main(rt: HostRuntime) -> anyhow::Result<()> {
    let mut outcomes = [false; EXAMPLE_COUNT];
    for (agrees, example) in outcomes.iter_mut().zip(&PAIRINGS) {
        *agrees = run(&rt, example)?;
    }
    let agree = outcomes.iter().filter(|agrees| **agrees).count();
    let differ = outcomes.iter().filter(|agrees| !**agrees).count();
    println!(rt; "{agree} as by hand, {differ} not")?;
    if differ > 0 {
        return Err(anyhow!("an example did not come out as by hand"));
    }
    Ok(())
}
