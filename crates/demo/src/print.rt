//! What is printed of an example: each struct is a value with the names of its places.
use crate::compare::times;
use crate::examples::Example;
use places::{PlaceBag, PlaceSet, Side};
use std::fmt;

/// The name of a place.
fn name<'a>(names: &[&'a str], place: u8) -> &'a str {
    names.get(place as usize).copied().unwrap_or("?")
}

/// Writes a name as often as is asked, each behind a space.
fn write_times<W: fmt::Write>(f: &mut fmt::Formatter<W>, name: &str, times: u8) -> fmt::Result {
    for _ in 0..times {
        write!(f, " {name}")?;
    }
    Ok(())
}

/// A bag: each place as often as the bag holds it.
#[derive(Clone, Copy)]
pub struct NamedBag<'a> {
    pub names: &'a [&'a str],
    pub bag: &'a PlaceBag,
}

impl fmt::Display for NamedBag<'_> {
    fn fmt<W: fmt::Write>(&self, f: &mut fmt::Formatter<W>) -> fmt::Result {
        for place in 0..16u8 {
            write_times(f, name(self.names, place), self.bag.count(place))?;
        }
        Ok(())
    }
}

/// Pairs of a left and a right place of an example, written in ascending order, whatever their order.
#[derive(Clone, Copy)]
pub struct NamedPairs<'a, 'b> {
    pub example: &'a Example<'a>,
    pub pairs: &'b [(u8, u8)],
}

impl NamedPairs<'_, '_> {
    /// Writes a pair as often as it is there.
    fn write_pair<W: fmt::Write>(
        &self,
        f: &mut fmt::Formatter<W>,
        left: u8,
        right: u8,
    ) -> fmt::Result {
        let start = name(self.example.left_names, left);
        let end = name(self.example.right_names, right);
        for _ in 0..times(self.pairs, (left, right)) {
            write!(f, " ({start},{end})")?;
        }
        Ok(())
    }

    /// Writes the pairs of a left place.
    fn write_from<W: fmt::Write>(&self, f: &mut fmt::Formatter<W>, left: u8) -> fmt::Result {
        for right in 0..16u8 {
            self.write_pair(f, left, right)?;
        }
        Ok(())
    }
}

impl fmt::Display for NamedPairs<'_, '_> {
    fn fmt<W: fmt::Write>(&self, f: &mut fmt::Formatter<W>) -> fmt::Result {
        for left in 0..16u8 {
            self.write_from(f, left)?;
        }
        Ok(())
    }
}

/// A refusal of an example: its number, the side and the set that it shows.
#[derive(Clone, Copy)]
pub struct NamedRefusal<'a> {
    pub example: &'a Example<'a>,
    pub number: u8,
    pub side: Side,
    pub places: PlaceSet,
}

impl fmt::Display for NamedRefusal<'_> {
    fn fmt<W: fmt::Write>(&self, f: &mut fmt::Formatter<W>) -> fmt::Result {
        let number = self.number;
        let side = self.side;
        let names = self.example.names(side);
        write!(f, "{number} {side} {{")?;
        for place in (0..16u8).filter(|place| self.places.contains(*place)) {
            write_times(f, name(names, place), 1)?;
        }
        f.write_str(" }")
    }
}
