// How a fault goes up a level, and its number and level.
ghost use Rattle.std.specs.Prelude.{◌≡◌};
ghost use Rattle.notation.specs.declared.faults.AtomFault.TheVariants.{InTerm};
ghost use Rattle.notation.specs.declared.faults.LineFault.TheVariants.{InAtom};
ghost use Rattle.notation.specs.declared.faults.FolderFault.TheVariants.{InLine};
ghost use Rattle.notation.specs.Faults.{graded_term, graded_atom, graded_line, graded};

use crate::faults::{AtomFault, FolderFault, Level, LineFault, TermFault};

impl From<TermFault> for AtomFault {
    ghost from_gives = { λ e r. r ≡ InTerm e };

    fn from(e: TermFault) -> AtomFault {
        AtomFault::InTerm(e)
    }
}

impl From<AtomFault> for LineFault {
    ghost from_gives = { λ e r. r ≡ InAtom e };

    fn from(e: AtomFault) -> LineFault {
        LineFault::InAtom(e)
    }
}

impl From<LineFault> for FolderFault {
    ghost from_gives = { λ e r. r ≡ InLine e };

    fn from(e: LineFault) -> FolderFault {
        FolderFault::InLine(e)
    }
}

impl TermFault {
    // The number and the level of the fault.
    fn graded(self) -> (u8, Level)
        ensures { result ≡ graded_term self }
    {
        match self {
            TermFault::NoTerm | TermFault::BadNumber => (2, Level::Term),
            TermFault::Misnumbered => (5, Level::Term),
        }
    }
}

impl AtomFault {
    fn graded(self) -> (u8, Level)
        ensures { result ≡ graded_atom self }
    {
        match self {
            AtomFault::InTerm(e) => e.graded(),
            AtomFault::Broken => (2, Level::Atom),
            AtomFault::Unlisted | AtomFault::WrongCount => (4, Level::Atom),
            AtomFault::Repeated => (6, Level::Atom),
        }
    }
}

impl LineFault {
    fn graded(self) -> (u8, Level)
        ensures { result ≡ graded_line self }
    {
        match self {
            LineFault::InAtom(e) => e.graded(),
            LineFault::Unreadable | LineFault::Unended => (2, Level::Line),
            LineFault::TooMany => (7, Level::Line),
        }
    }
}

impl FolderFault {
    pub fn graded(self) -> (u8, Level)
        ensures { result ≡ graded self }
    {
        match self {
            FolderFault::InLine(e) => e.graded(),
            FolderFault::OutOfOrder | FolderFault::EndsTooSoon => (3, Level::Order),
            FolderFault::TooLong => (1, Level::Line),
        }
    }
}
