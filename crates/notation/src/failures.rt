// What may keep a reader from its answer: a fault of the text, or want of memory.
ghost use Rattle.std.specs.Prelude.{◌≡◌};
ghost use Rattle.notation.specs.declared.failures.Failure.TheVariants.{Memory};
ghost use Rattle.notation.specs.Failures.{failure_up, ForFault, IsFaultAnd, MatchFailure};

use crate::faults::{FolderFault, LineFault};
use std::alloc::{AllocError, AllocFailed};

#[derive(Clone, Copy)]
pub enum Failure<F> {
    Memory,
    Fault(F),
}

impl<F> From<AllocError> for Failure<F> {
    ghost from_gives = { λ e r. r ≡ Memory };

    fn from(e: AllocError) -> Failure<F> {
        Failure::Memory
    }
}

impl<T: Drop, F> From<AllocFailed<T>> for Failure<F> {
    ghost from_gives = { λ e r. r ≡ Memory };

    fn from(e: AllocFailed<T>) -> Failure<F> {
        Failure::Memory
    }
}

impl<F> Failure<F> {
    // The fault changed, if it is one.
    pub fn map<G, C: FnOnce(F) -> G>(self, change: C) -> Failure<G>
        requires { ForFault self (C.pre change) }
        ensures { MatchFailure self (result ≡ Memory) (λ e. IsFaultAnd result (C.post change e)) }
    {
        match self {
            Failure::Memory => Failure::Memory,
            Failure::Fault(e) => Failure::Fault(change(e)),
        }
    }
}

impl<F: From<LineFault>> From<LineFault> for Failure<F> {
    ghost from_gives = { λ e r. IsFaultAnd r (F.from_gives e) };

    fn from(e: LineFault) -> Failure<F> {
        Failure::Fault(F::from(e))
    }
}

// Apart from the one above: an impl for every kind of fault would meet that of `AllocError`.
impl<F: From<FolderFault>> From<FolderFault> for Failure<F> {
    ghost from_gives = { λ e r. IsFaultAnd r (F.from_gives e) };

    fn from(e: FolderFault) -> Failure<F> {
        Failure::Fault(F::from(e))
    }
}

// A generic impl would meet the conversion of a type into itself.
impl From<Failure<LineFault>> for Failure<FolderFault> {
    ghost from_gives = { λ e r. r ≡ failure_up e };

    fn from(e: Failure<LineFault>) -> Failure<FolderFault> {
        e.map(FolderFault::InLine)
    }
}
