// A text at the start of a lent buffer.
ghost use Rattle.std.specs.Prelude.{◌≡◌};
ghost use Rattle.folder.specs.Buffers.{Copied};

// Why a printout is not written.
#[derive(Clone, Copy, PartialEq, Eq)]
pub enum Unprinted {
    // the buffer is shorter than the printout
    Short,
    // want of memory
    Memory,
}

// Copies `text` to the start of `out`, and leaves the rest; where it does not fit, nothing is written.
pub(crate) fn copy_in(text: &[u8], out: &mut [u8]) -> Result<usize, Unprinted>
    ensures { Copied text.now out.old out.new result }
{
    let n = text.len();
    if out.len() < n {
        return Err(Unprinted::Short);
    }
    out[0..n].copy_from_slice(text);
    Ok(n)
}
