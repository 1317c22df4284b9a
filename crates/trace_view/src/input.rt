//! The front of what a reader has.

use std::alloc::Global;
use std::io;
use std::io::Read;

/// As many bytes are read at once.
const CHUNK: usize = 16_384;

/// Reads up to the end, or so many bytes.
pub fn read_front<R: Read>(reader: &mut R, alloc: Global, most: usize) -> io::Result<Vec<u8>> {
    let mut bytes = Vec::new(alloc);
    let mut chunk = [0u8; CHUNK];
    while bytes.len() < most {
        let room = CHUNK.min(most - bytes.len());
        let count = reader.read(&mut chunk[..room])?;
        if count == 0 {
            break;
        }
        bytes.extend_from_slice(&chunk[..count])?;
    }
    Ok(bytes)
}
