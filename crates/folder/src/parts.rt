// A folder as far as it was read, its faults, and what its strikes and questions answered.
use book::refusal::Refusal;
use notation::faults::FolderFault;
use notation::lines::Key;
use notation::terms::Fact;
use queries::body::Body;
use queries::query::Query;
use queries::rule::Rule;

// The rule that is being read: nothing of it, its body, or its body and some heads.
#[derive(Clone, Copy)]
pub enum Draft {
    Nothing,
    Bare(Body),
    Headed(Rule),
}

// The strike of one query by another, by their numbers.
#[derive(Clone, Copy)]
pub struct Strike {
    pub struck: u16,
    pub by: u16,
}

// What a strike answered.
#[derive(Clone, Copy)]
pub struct Event {
    pub strike: Strike,
    pub answer: Result<(), Refusal>,
}

// The rule that is not kept, the standing query that holds, and the opening query that holds: the lowest of each, where
// there is one.
#[derive(Clone, Copy)]
pub struct Answers {
    pub broken: Option<usize>,
    pub standing: Option<usize>,
    pub opening: Option<usize>,
}

// What was read: `last` is the key of the last line, and `pending` the query that is to be struck once that is `strike` (as an
// Option, the line that follows would have a case that the order of the keys rules out).
// It has no model: the printout reads its fields, and most definitions are about one of them.
#[derive(Drop)]
pub struct Reader {
    pub(crate) last: Option<Key>,
    pub(crate) arity: Vec<u8>,
    pub(crate) draft: Draft,
    pub(crate) rules: Vec<Rule>,
    pub(crate) queries: Vec<Query>,
    pub(crate) pending: u16,
    pub(crate) strikes: Vec<Strike>,
    pub(crate) facts: Vec<Fact>,
}

// What is wrong, and in which line, counted from 1; a text that is too long has line 0, as is printed.
#[derive(Clone, Copy)]
pub struct Fault {
    pub line: usize,
    pub fault: FolderFault,
}
