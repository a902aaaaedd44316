// What is wrong with a text, by level: each level carries the fault of the one below.

// In a term.
#[derive(Clone, Copy, PartialEq, Eq)]
pub enum TermFault {
    // no term of the kind that belongs here begins here
    NoTerm,
    // the letter is not followed by a number in range
    BadNumber,
    // a variable is not numbered by first appearance
    Misnumbered,
}

// In an atom.
#[derive(Clone, Copy, PartialEq, Eq)]
pub enum AtomFault {
    InTerm(TermFault),
    // a byte that does not belong, outside the terms
    Broken,
    // the predicate is not listed
    Unlisted,
    // the predicate is listed with another number of terms
    WrongCount,
    // the atom occurred before
    Repeated,
}

// In a line.
#[derive(Clone, Copy, PartialEq, Eq)]
pub enum LineFault {
    InAtom(AtomFault),
    // an unknown key, or a byte that does not belong, outside the atoms
    Unreadable,
    // the line lacks its end
    Unended,
    // one item too many
    TooMany,
}

// In a folder.
#[derive(Clone, Copy, PartialEq, Eq)]
pub enum FolderFault {
    InLine(LineFault),
    // the key may not follow here
    OutOfOrder,
    // the text ends where another line has to follow
    EndsTooSoon,
    // the text has more bytes than a folder may have
    TooLong,
}

// Where the first wrong thing is.
#[derive(Clone, Copy, PartialEq, Eq)]
pub enum Level {
    Term,
    Atom,
    Line,
    Order,
}
