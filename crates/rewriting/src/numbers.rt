// Lists of numbers by which a part names atoms.
ghost use Rattle.std.specs.Prelude.{◌≡◌};
ghost use Rattle.rewriting.specs.Judging.{numbers_fit};

// The same of a list that may be of any length.
fn rise_below(numbers: &[usize], count: usize) -> bool
    ensures { result ≡ numbers_fit count numbers.now }
{
    !numbers.is_empty()
        && numbers.is_sorted_by(|a, b| *a < *b)
        && numbers.iter().all(|n| *n < count)
}

// Whether there is a number, and they ascend and are below `count`. At most `count` do, so that a longer list is not gone
// through.
pub(crate) fn ascending(numbers: &[usize], count: usize) -> bool
    ensures { result ≡ numbers_fit count numbers.now }
{
    numbers.len() <= count && rise_below(numbers, count)
}
