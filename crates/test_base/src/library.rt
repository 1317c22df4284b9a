//! The texts by their lengths, lines and sums of bytes, which were taken from the documents and not from the code.

use base_library::EmbeddedLibrary;
use base_types::{Fetch, Library};
use std::alloc::Global;
use std::test::Fail;

fn fetched(alloc: Global, name: &str, most: usize) -> Result<Vec<u8>, Fail> {
    match EmbeddedLibrary::new().fetch(alloc, name, most)? {
        Fetch::Found(bytes) => Ok(bytes),
        Fetch::Absent => Ok(Vec::new(alloc)),
    }
}

fn sum(bytes: &[u8]) -> u64 {
    let mut sum: u64 = 0;
    for byte in bytes {
        sum = sum.wrapping_add(*byte as u64);
    }
    sum
}

#[test]
fn the_five_texts(rt: HostRuntime) -> Result<(), Fail> {
    let alloc = rt.alloc();
    let texts = [
        ("util/ordering.als", 888, 22, 73999),
        ("util/integer.als", 1230, 30, 97587),
        ("util/boolean.als", 472, 11, 38993),
        ("util/relation.als", 1365, 21, 119001),
        ("util/ternary.als", 690, 10, 57780),
    ];
    for (name, length, lines, total) in texts {
        let text = fetched(alloc, name, 1_048_577)?;
        assert_eq!(rt; text.len(), length, "{name}");
        let ends = text.iter().filter(|byte| **byte == b'\n').count();
        assert_eq!(rt; ends, lines, "{name}");
        assert_eq!(rt; sum(&text), total, "{name}");
    }
    Ok(())
}
