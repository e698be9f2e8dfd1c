// The card, the sheet and the line.
use std::alloc::Global;
use std::io::Read;
use std::{fs, io};

// The most bytes that are read of each: more than any of them may have.
const MOST: u64 = 4104;

// The first bytes of an input.
pub fn read_part<R: Read + Drop>(input: R, heap: Global) -> io::Result<Vec<u8>> {
    let mut bytes = Vec::new(heap);
    input.take(MOST).read_to_end(&mut bytes)?;
    Ok(bytes)
}

// The first bytes of a file.
pub fn read_file(rt: &HostRuntime, name: &str) -> io::Result<Vec<u8>> {
    read_part(fs::open(rt, name)?, rt.alloc())
}
