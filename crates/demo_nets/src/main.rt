//! Runs examples of nets and verdicts through the library's public calls, prints all that it did, and compares with
//! values worked by hand.

#![tactic(auto)]

/// A slice of arcs, each a row of its transition, its place, the number of its kind and its weight: a constant can call
/// no function.
macro_rules! arcs {
    ($(($transition:expr, $place:expr, $kind:expr, $weight:expr)),* $(,)?) => {
        &[
            $(Arc {
                transition: $transition,
                place: $place,
                kind: $kind,
                weight: $weight,
            }),*
        ]
    };
}

mod arcs;
mod cases;
mod ending;
mod kinds;
mod named;
mod verdicts;

use anyhow::anyhow;
use cases::{CASE_COUNT, CASES};

fn main(rt: HostRuntime) -> anyhow::Result<()> {
    let asked = [kinds::run(&rt)?];
    let mut judged = [false; CASE_COUNT];
    for (agrees, case) in judged.iter_mut().zip(&CASES) {
        *agrees = verdicts::run(&rt, case)?;
    }
    let agree = asked.iter().chain(&judged).filter(|a| **a).count();
    let differ = asked.iter().chain(&judged).filter(|a| !**a).count();
    println!(rt; "{agree} as by hand, {differ} not")?;
    if differ > 0 {
        return Err(anyhow!("an example did not come out as by hand"));
    }
    Ok(())
}
