ghost use Rattle.std.specs.Prelude.{◌≡◌, ◌<◌, MatchResult};
ghost use Rattle.arc_lists.specs.Links.{kind_number};

use crate::kind::{Kind, UnknownKind};
use crate::link::Link;

/// An arc of a net: what a place is to a transition, and with which weight.
#[derive(Clone, Copy, Debug, PartialEq, Eq)]
pub struct Arc {
    pub transition: u8,
    pub place: u8,
    /// 0 (input), 1 (output) or 2 (inhibitor): a plain number, since a record comes from the caller's memory, and any
    /// number may stand in it.
    pub kind: u8,
    pub weight: u8,
}

impl Arc {
    /// The link that the arc weighs; none where its number stands for no kind.
    pub(crate) fn link(&self) -> Result<Link, UnknownKind>
        ensures { MatchResult result (λ l. (kind_number l.kind ≡ self.now.kind) × (l.transition ≡ self.now.transition) × (l.place ≡ self.now.place)) (λ _. 2 < self.now.kind) }
    {
        Ok(Link {
            kind: Kind::try_from(self.kind)?,
            transition: self.transition,
            place: self.place,
        })
    }
}
