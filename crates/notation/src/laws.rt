// What the definitions of reading and printing have in common.
ghost use Rattle.notation.specs.Laws.{TermsReadBack, AtomsReadBack, AtomsPrintApart};

// What is printed of a term reads back.
pub fn terms_read_back()
    ensures { TermsReadBack }
{}

// What is printed of an atom reads back.
pub fn atoms_read_back()
    ensures { AtomsReadBack }
{}

// No two atoms print alike.
pub fn atoms_print_apart()
    ensures { AtomsPrintApart }
{}
