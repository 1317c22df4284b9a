//! What the two types do with real files and with the real standard output, of which no contract can speak.

use base_host::{FolderLibrary, StdSink};
use base_types::{Fetch, FetchFault, Library, Sink};
use std::alloc::Global;
use std::fs;
use std::test::Fail;

fn is_front(fetch: &Result<Fetch, FetchFault>, front: &[u8]) -> bool {
    match fetch {
        Ok(Fetch::Found(bytes)) => bytes.as_slice() == front,
        _ => false,
    }
}

fn is_absent(fetch: &Result<Fetch, FetchFault>) -> bool {
    matches!(fetch, Ok(Fetch::Absent))
}

fn is_failed(fetch: &Result<Fetch, FetchFault>) -> bool {
    matches!(fetch, Err(FetchFault::Failed))
}

fn long_text(alloc: Global, length: usize) -> Result<Vec<u8>, Fail> {
    let mut text = Vec::new(alloc);
    for _ in 0..length {
        text.push(b'x')?;
    }
    Ok(text)
}

#[test]
fn a_folder_gives_the_fronts_of_its_files(rt: HostRuntime) -> Result<(), Fail> {
    let alloc = rt.alloc();
    fs::write(&rt, "a.als", "sig A {}")?;
    fs::write(&rt, "empty.als", "")?;
    let mut folder = FolderLibrary::new(rt.clone()?);
    assert!(rt; is_front(&folder.fetch(alloc, "a.als", 5), b"sig A"));
    assert!(rt; is_front(&folder.fetch(alloc, "a.als", 9), b"sig A {}"));
    assert!(rt; is_front(&folder.fetch(alloc, "a.als", 0), b""));
    assert!(rt; is_front(&folder.fetch(alloc, "empty.als", 9), b""));
    assert!(rt; is_absent(&folder.fetch(alloc, "b.als", 5)));
    assert!(rt; is_absent(&folder.fetch(alloc, "none/a.als", 5)));
    Ok(())
}

#[test]
fn a_long_file_is_read_in_pieces(rt: HostRuntime) -> Result<(), Fail> {
    let alloc = rt.alloc();
    let text = long_text(alloc, 40_000)?;
    fs::write(&rt, "long.als", text.as_slice())?;
    let mut folder = FolderLibrary::new(rt.clone()?);
    assert!(rt; is_front(&folder.fetch(alloc, "long.als", 50_000), text.as_slice()));
    let front = long_text(alloc, 33_001)?;
    assert!(rt; is_front(&folder.fetch(alloc, "long.als", 33_001), front.as_slice()));
    Ok(())
}

#[test]
fn what_cannot_be_read_is_a_failure(rt: HostRuntime) -> Result<(), Fail> {
    let alloc = rt.alloc();
    fs::write(&rt, "c.als", "sig C {}")?;
    let mut folder = FolderLibrary::new(rt.clone()?);
    // A folder can be opened, but not read; below a file there are no paths.
    assert!(rt; is_failed(&folder.fetch(alloc, ".", 5)));
    assert!(rt; is_failed(&folder.fetch(alloc, "c.als/d.als", 5)));
    Ok(())
}

#[test]
fn the_standard_output_takes_bytes(rt: HostRuntime) -> Result<(), Fail> {
    let mut out = StdSink::new(rt.clone()?);
    assert!(rt; out.write(b"").is_ok());
    assert!(rt; out.write(b"written by a test\n").is_ok());
    Ok(())
}
