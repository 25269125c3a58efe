//! A line, taken after the lines before it.
ghost use Rattle.std.specs.Prelude.{◌≡◌, ℕ, ◌+◌, ◌<◌, ◌≤◌, ◌==◌, if◌then◌else◌, length, Ok, Err};
ghost use Rattle.faults.specs.declared.causes.NumberFault.TheVariants.{Mismatch};
ghost use Rattle.relation_texts.specs.Forms.{says, then};
ghost use Rattle.relation_texts.specs.declared.forms.Count.{Count};
ghost use Rattle.relation_texts.specs.Outcomes.{outcome_of};
ghost use Rattle.relation_texts.specs.Readings.{left_by, so_far};
ghost use Rattle.relation_texts.specs.Walk.{edged, finished, headed, is_place, nothing_yet, place_of, taken, with_edge, with_header};

use super::*;
use crate::forms::{Said, what_is_said};
use faults::{Flaw, LineFault, NumberFault, TextFault};
use lines::WordCursor;

/// The flaw of a number that is not the right one.
fn mismatch(count: Count) -> Flaw<NumberFault>
    ensures { result ≡ record { cause = Mismatch; column = count.column } }
{
    Flaw {
        cause: NumberFault::Mismatch,
        column: count.column,
    }
}

/// The place, counted from 0, of a net whose places are numbered on from `before`.
fn place(count: Count, before: u8, places: u8) -> Result<u8, Flaw<NumberFault>>
    ensures { result ≡ (if is_place before places count.value then Ok (place_of before count.value) else Err (record { cause = Mismatch; column = count.column })) }
{
    let before = u32::from(before);
    let last = before + u32::from(places);
    if (before + 1..=last).contains(&count.value) {
        Ok((count.value - before - 1) as u8)
    } else {
        Err(mismatch(count))
    }
}

impl Reading {
    /// Before the first line of a text between a left net and a right net of so many places.
    pub(crate) fn between(left: u8, right: u8) -> Reading
        ensures nothing { so_far result ≡ nothing_yet }
        ensures lines { result.lines ≡ 0 }
        ensures left { result.left ≡ left }
        ensures right { result.right ≡ right }
    {
        Reading {
            left,
            right,
            announced: None,
            edges: 0,
            lines: 0,
            pairs: Relation::new(),
        }
    }

    /// Whether this is the number of places of both nets.
    fn check_places(&self, count: Count) -> Result<(), Flaw<NumberFault>>
        ensures { result ≡ (if count.value == self.now.left + self.now.right then Ok tt else Err (record { cause = Mismatch; column = count.column })) }
    {
        let both = u32::from(self.left) + u32::from(self.right);
        (count.value == both).then_some(()).ok_or(mismatch(count))
    }

    /// Whether a header may come here, with its `p` at a column and such a number of places.
    fn check_header(&self, column: usize, places: Count) -> Result<(), Flaw<LineFault>>
        ensures { (n : ℕ) (pairs : Count) → headed self.now.left self.now.right n (so_far self.now) column places pairs ≡ (then) result (λ _. Ok (with_header n pairs (so_far self.now))) }
    {
        if self.announced.is_some() {
            return Err(Flaw {
                cause: LineFault::HeaderAgain,
                column,
            });
        }
        Ok(self.check_places(places)?)
    }

    /// The places of an edge whose `e` stands at a column, a pair that no line before has said.
    fn new_pair(
        &self,
        column: usize,
        left: Count,
        right: Count,
    ) -> Result<(u8, u8), Flaw<LineFault>>
        ensures { edged self.now.left self.now.right (so_far self.now) column left right ≡ (then) result (λ pair. Ok (with_edge pair.0 pair.1 (so_far self.now))) }
    {
        if self.announced.is_none() {
            return Err(Flaw {
                cause: LineFault::HeaderMissing,
                column,
            });
        }
        let p = place(left, 0, self.left)?;
        let q = place(right, self.left, self.right)?;
        if self.pairs.contains(p, q) {
            return Err(Flaw {
                cause: LineFault::PairAgain,
                column,
            });
        }
        Ok((p, q))
    }

    /// Takes the line with a number, before which there were fewer edges.
    pub(crate) fn take_line(&mut self, line: &[u8], number: usize) -> Result<(), Flaw<LineFault>>
        requires { self.old.edges < number }
        ensures value { left_by result self.new ≡ (then) (says line.now) (taken self.old.left self.old.right number (so_far self.old)) }
        ensures edges { self.new.edges ≤ self.old.edges + 1 }
        ensures lines { self.new.lines ≡ number }
        ensures left { self.new.left ≡ self.old.left }
        ensures right { self.new.right ≡ self.old.right }
    {
        self.lines = number;
        match what_is_said(WordCursor::of(line))? {
            Said::Nothing => {}
            Said::Header {
                column,
                places,
                pairs,
            } => {
                self.check_header(column, places)?;
                self.announced = Some(Announced {
                    pairs,
                    line: number,
                });
            }
            Said::Edge {
                column,
                left,
                right,
            } => {
                let (p, q) = self.new_pair(column, left, right)?;
                self.pairs.insert(p, q);
                self.edges += 1;
            }
        }
        Ok(())
    }

    /// What the text says, by the rules that are looked at behind its last line.
    pub(crate) fn finish<'a>(&self, text: &'a [u8]) -> Result<Relation, TextFault<'a>>
        requires { self.now.lines ≤ length text.now }
        ensures { outcome_of result ≡ finished text.now (self.now.lines + 1) (so_far self.now) }
    {
        let Some(announced) = self.announced else {
            let missing = Flaw {
                cause: LineFault::HeaderMissing,
                column: 1,
            };
            return Err(TextFault::in_line(missing, text, self.lines + 1));
        };
        if announced.pairs.value as usize != self.edges {
            return Err(TextFault::in_line(mismatch(announced.pairs).into(), text, announced.line));
        }
        Ok(self.pairs)
    }
}
