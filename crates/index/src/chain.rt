// For a list of keys: the first place of each key, and from each place the next with the same key.
ghost use Rattle.std.specs.Prelude.{◌≡◌, ℕ, ◌<◌, ◌≤◌, length, replicate, IfOk, vec_len, slice_index};
ghost use Rattle.index.specs.Seek.{place_of, IsChain};

use std::alloc::{AllocError, Global};

// No place. A place is kept in two bytes: tables of `Option<u16>` made the program a third slower on a small folder.
const NOWHERE: u16 = 65535;

// The places of each key in ascending order. It does not keep its keys: what it is a chain of is said where it is made and
// where it is kept. Two tables, and no map of lists: each list would be a heap block of its own, made for each question.
#[derive(Drop)]
pub struct Chain {
    first: Vec<u16>,
    next: Vec<u16>,
    ghost wide: { vec_len first ≡ 65536 },
}

// Goes through the keys from the last to the first; by number, since it writes at the number that it reads.
fn link(keys: &[u16], first: &mut [u16], next: &mut [u16])
    requires few { length keys.now ≤ 65535 }
    requires whole { length next.old ≡ length keys.now }
    requires wide { length first.old ≡ 65536 }
    requires clear { (c : ℕ) → c < 65536 → slice_index first.old c ≡ 65535 }
    ensures { IsChain keys.now first.new next.new }
{
    for k in (0..keys.len()).rev() {
        let c = keys[k] as usize;
        next[k] = first[c];
        first[c] = k as u16;
    }
}

// No place, n times.
fn nowhere(heap: Global, n: usize) -> Result<Vec<u16>, AllocError>
    ensures { IfOk result (λ v. v.items ≡ replicate n 65535) }
{
    vec![in heap; NOWHERE; n]
}

// The place that is kept as k.
fn place(k: u16) -> Option<usize>
    ensures { result ≡ place_of k }
{
    (k != NOWHERE).then_some(k as usize)
}

impl Chain {
    // The chain of a list of keys.
    pub fn new(heap: Global, keys: &[u16]) -> Result<Chain, AllocError>
        requires { length keys.now ≤ 65535 }
        ensures { IfOk result (λ x. IsChain keys.now x.first.items x.next.items) }
    {
        let mut first = nowhere(heap, 65536)?;
        let mut next = nowhere(heap, keys.len())?;
        link(keys, first.as_mut_slice(), next.as_mut_slice());
        Ok(Chain { first, next })
    }

    // The first place with the key c.
    pub fn first(&self, c: u16) -> Option<usize>
        ensures { result ≡ place_of (slice_index self.now.first.items c) }
    {
        place(self.first[c as usize])
    }

    // The next place after k with the key that k has.
    pub fn after(&self, k: usize) -> Option<usize>
        requires { k < vec_len self.now.next }
        ensures { result ≡ place_of (slice_index self.now.next.items k) }
    {
        place(self.next[k])
    }
}
