// The table of classes that ties make: at the place of each term the place of its class's name.
ghost use Rattle.std.specs.Prelude.{◌≡◌, ◌<◌, ◌++◌, map, slice_index};
ghost use Rattle.std.specs.List.{range_with_len};
ghost use Rattle.rewriting.specs.Classes.{class_name, same_ref};
ghost use Rattle.rewriting.specs.Computing.{all};
ghost use Rattle.rewriting.specs.Joining.{relabelled, joined_table, written_ties};
ghost use Rattle.rewriting.specs.Judging.{ends, constant_alone};
ghost use Rattle.rewriting.specs.Steps.{Ref, Ties};
ghost use Rattle.rewriting.specs.Tables.{Names, Groups, ties_from, TiesWithin, place};
ghost use Rattle.rewriting.specs.Written.{part_of, step_ref};

use crate::places::{Placed, StepTerm, TERMS};
use crate::steps::Part;
use notation::terms::Tie;

const CONSTANTS: usize = 1000;

// By value through the joining of ties and the tests: nothing here may want memory.
// Which ties they are the classes of is said in the clauses: the ties are in none of the fields, so that the type cannot.
#[derive(Clone, Copy)]
pub struct Classes {
    pub(crate) names: [u16; TERMS],
}

// `to` in place of `from`.
fn replaced(name: u16, from: u16, to: u16) -> u16
    ensures { result ≡ relabelled from to name }
{
    if name == from { to } else { name }
}

impl Classes {
    // Each term its own class; in place too, where `from_fn` makes an array of options first.
    fn apart() -> Classes
        ensures { result.names ≡ range_with_len 0 1160 }
    {
        let mut names = [0; TERMS];
        let mut place = 0;
        for name in names.iter_mut() {
            *name = place;
            place += 1;
        }
        Classes { names }
    }

    // Each name `from` made `to`, in place: `map` of an array makes others of it on the way, and is called for each tie.
    fn renamed(mut self, from: u16, to: u16) -> Classes
        ensures { result.names ≡ map (relabelled from to) self.names }
    {
        for name in self.names.iter_mut() {
            *name = replaced(*name, from, to);
        }
        self
    }

    // The classes of the terms made one: a name that is a constant stays.
    fn joined(self, x: Placed, y: Placed) -> Classes
        ensures { result.names ≡ joined_table self.names (place (step_ref x.term)) (place (step_ref y.term)) }
    {
        let first = self.name(x);
        let second = self.name(y);
        if (first as usize) < CONSTANTS {
            self.renamed(second, first)
        } else {
            self.renamed(first, second)
        }
    }

    // The ties of part i joined too, the last first.
    fn with_ties(self, i: usize, ties: &[Tie]) -> Classes
        requires { TiesWithin (written_ties i ties.now) }
        ensures { (ts : Ties) → Names self.names (class_name ts)
            → Names result.names (class_name (written_ties i ties.now ++ ts)) }
    {
        let mut classes = self;
        for tie in ties.iter().rev() {
            let left = Placed {
                term: StepTerm::of_end(i, tie.left),
            };
            let right = Placed {
                term: StepTerm::of_end(i, tie.right),
            };
            classes = classes.joined(left, right);
        }
        classes
    }

    // The classes that the ties of all parts make.
    pub(crate) fn of(parts: &[Part]) -> Classes
        requires { TiesWithin (ties_from 0 (map part_of parts.now)) }
        ensures names { Names result.names (class_name (ties_from 0 (map part_of parts.now))) }
        ensures groups { Groups result.names (ties_from 0 (map part_of parts.now)) }
    {
        let mut classes = Classes::apart();
        for (i, part) in parts.iter().enumerate().rev() {
            classes = classes.with_ties(i, &part.ties);
        }
        classes
    }

    // Whether no class has two different constants: each constant is its own name.
    pub(crate) fn constants_apart(self) -> bool
        ensures { (ts : Ties) → TiesWithin ts → Names self.names (class_name ts)
            → result ≡ all (constant_alone (class_name ts)) (ends ts) }
    {
        self.names
            .iter()
            .take(CONSTANTS)
            .enumerate()
            .all(|(k, name)| *name as usize == k)
    }

    // The name of a term's class.
    pub(crate) fn name(&self, x: Placed) -> u16
        ensures { result ≡ slice_index self.now.names (place (step_ref x.term)) }
    {
        self.names[x.place()]
    }

    // Whether two terms are in one class.
    pub(crate) fn join(&self, x: Placed, y: Placed) -> bool
        ensures { (f : Ref → Ref) → Names self.now.names f
            → result ≡ same_ref (f (step_ref x.term)) (f (step_ref y.term)) }
    {
        self.name(x) == self.name(y)
    }
}
