// Why a step is refused.
ghost use Rattle.std.specs.Prelude.{◌≡◌};
ghost use Rattle.rewriting.specs.Written.{refusal_number};

// A number is that of a head.
#[derive(Clone, Copy, PartialEq, Eq)]
pub enum StepRefusal {
    // there is no such rule, or not one part for each head
    NoRule,
    // the part's query was not entered or is struck
    NotStanding(usize),
    // its taken or head atoms: none, one that is not there, or not ascending
    BadAtoms(usize),
    // it has more than 96 ties, or a tie end that is no term of the part
    BadTie(usize),
    // two constants are in one class
    TwoConstants,
    // the taken and the head atoms do not become the same set
    SetsDiffer(usize),
    // the class of an unnamed variable holds what it may not
    UnnamedJoined(usize),
    // the new query has over 16 atoms or 32 variables
    TooLarge,
    // 64 queries are entered
    Full,
}

impl StepRefusal {
    // The number of the refusal, with its place.
    pub fn number(self) -> (u8, usize)
        ensures { result ≡ refusal_number self }
    {
        match self {
            StepRefusal::NoRule => (11, 0),
            StepRefusal::NotStanding(head) => (12, head),
            StepRefusal::BadAtoms(head) => (13, head),
            StepRefusal::BadTie(head) => (14, head),
            StepRefusal::TwoConstants => (15, 0),
            StepRefusal::SetsDiffer(head) => (16, head),
            StepRefusal::UnnamedJoined(head) => (17, head),
            StepRefusal::TooLarge => (18, 0),
            StepRefusal::Full => (19, 0),
        }
    }
}
