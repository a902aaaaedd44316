// Reads a folder from standard input, and writes its printout to standard output.
#![tactic(auto)]

ghost use Rattle.std.specs.Prelude.{◌≤◌, length, IfOk};

use folder::buffer::Unprinted;
use folder::printout::printout;
use std::io;
use std::io::{Read, Write};

// A folder with one byte more is too long, and no more of it need be read.
const MOST_READ: usize = 65537;

const BUFFER: usize = 65536;

// Reads until the input ends or the buffer is full; how much was read.
// A loop, since a must-fail edit turns it: a reading that loses bytes would not be refused at `read_to_end`.
fn fill(rt: &HostRuntime, buffer: &mut [u8]) -> io::Result<usize>
    ensures { IfOk result (λ n. n ≤ length buffer.old) }
{
    let mut input = rt.stdin();
    let mut n = 0;
    while n < buffer.len() {
        let got = input.read(&mut buffer[n..])?;
        if got == 0 {
            break;
        }
        n += got;
    }
    Ok(n)
}

fn main(rt: HostRuntime) -> io::Result<()> {
    let heap = rt.alloc();
    let mut text = vec![in heap; 0u8; MOST_READ]?;
    let n = fill(&rt, &mut text)?;
    let mut out = vec![in heap; 0u8; BUFFER]?;
    match printout(heap, &text[0..n], &mut out) {
        Ok(written) => {
            out.truncate(written);
            rt.stdout().write_all(&out)
        }
        Err(Unprinted::Short) => rt.stdout().write_all(b"fault=22,0\n"),
        Err(Unprinted::Memory) => Err(io::Error::from(io::ErrorKind::OutOfMemory)),
    }
}
