//! The kinds of arcs.
ghost use Rattle.std.specs.Prelude.{◌≡◌, ◌==◌, cond};
ghost use Rattle.arc_lists.specs.Links.{Decodes, kind_number, role_number};

use nets::Role;

/// What an arc makes of its place: an input or an output of its transition, or a place that inhibits it.
#[derive(Clone, Copy, Debug, PartialEq, Eq)]
pub(crate) enum Kind {
    Input,
    Output,
    Inhibitor,
}

/// A number that stands for no kind.
#[derive(Clone, Copy, Debug, PartialEq, Eq)]
pub(crate) struct UnknownKind;

impl Kind {
    /// The number that stands for the kind in a record.
    pub(crate) fn number(self) -> u8
        ensures { result ≡ kind_number self }
    {
        match self {
            Kind::Input => 0,
            Kind::Output => 1,
            Kind::Inhibitor => 2,
        }
    }

    /// The greatest weight of an arc of the kind.
    pub(crate) fn most(self) -> u8
        ensures { result ≡ cond (kind_number self == 2) 1 4 }
    {
        match self {
            Kind::Input | Kind::Output => 4,
            Kind::Inhibitor => 1,
        }
    }
}

impl TryFrom<u8> for Kind {
    type Error = UnknownKind;

    ghost try_from_gives = { Decodes };

    fn try_from(number: u8) -> Result<Self, UnknownKind> {
        match number {
            0 => Ok(Kind::Input),
            1 => Ok(Kind::Output),
            2 => Ok(Kind::Inhibitor),
            _ => Err(UnknownKind),
        }
    }
}

impl From<Role> for Kind {
    ghost from_gives = { λ role kind. kind_number kind ≡ role_number role };

    fn from(role: Role) -> Self {
        match role {
            Role::Input => Kind::Input,
            Role::Output => Kind::Output,
        }
    }
}
