//! Faults of texts: what is wrong, in which line and at which column.

#![tactic(auto)]

ghost use Rattle.faults.specs.Laws.{TokenLaws};

mod causes;
mod fault;
mod tokens;

pub use causes::{Cause, Flaw, LineFault, NumberFault};
pub use fault::TextFault;

/// The token at a line and a column is a part of the text; it is empty at line 0, at the line behind the last, and one
/// past a line's last byte.
pub fn tokens_are_parts()
    ensures { TokenLaws }
{}
