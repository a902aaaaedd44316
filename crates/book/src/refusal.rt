// Why a strike is refused.
ghost use Rattle.std.specs.Prelude.{◌≡◌};
ghost use Rattle.book.specs.Strikes.{refusal_number};

#[derive(Clone, Copy, PartialEq, Eq)]
pub enum Refusal {
    // the query was not entered or is struck
    NotStanding,
    // a query does not strike itself
    SameQuery,
    // the second query does not hold in the first
    NotHeld,
}

impl Refusal {
    // The number of the refusal, with its place.
    pub fn number(self) -> (u8, u8)
        ensures { result ≡ refusal_number self }
    {
        match self {
            Refusal::NotStanding => (12, 0),
            Refusal::SameQuery => (20, 0),
            Refusal::NotHeld => (21, 0),
        }
    }
}
