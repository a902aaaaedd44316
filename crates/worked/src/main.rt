// Runs folders, named on standard input, and tells whether each prints what is stored beside it.
#![tactic(auto)]

use folder::buffer::Unprinted;
use folder::printout::printout;
use std::{fs, io};

const BUFFER: usize = 65536;

// Whether the folder of this name prints what is stored for it. The program matches the same three answers, and writes.
fn as_stored(rt: &HostRuntime, name: &str) -> io::Result<bool> {
    let heap = rt.alloc();
    let folder = format!(in heap; "{name}.folder")?;
    let stored = format!(in heap; "{name}.out")?;
    let text = fs::read(rt, folder.as_str())?;
    let want = fs::read(rt, stored.as_str())?;
    let mut out = vec![in heap; 0u8; BUFFER]?;
    match printout(heap, &text, &mut out) {
        Ok(n) => {
            out.truncate(n);
            Ok(out.as_slice() == want.as_slice())
        }
        Err(Unprinted::Short) => Ok(want.as_slice() == b"fault=22,0\n".as_slice()),
        Err(Unprinted::Memory) => Err(io::Error::from(io::ErrorKind::OutOfMemory)),
    }
}

fn main(rt: HostRuntime) -> io::Result<()> {
    for line in rt.lines(rt.alloc()) {
        let name = line?;
        if as_stored(&rt, name.as_str())? {
            println!(rt; "{name}: as stored")?;
        } else {
            println!(rt; "{name}: DIFFERS")?;
        }
    }
    Ok(())
}
