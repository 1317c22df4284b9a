//! Words that spell no number, and the longest numbers.

use base_words::{decimal, literal, positive, push_literal, push_number};
use std::test::Fail;

#[test]
fn refuses_other_words(rt: HostRuntime) {
    for word in [
        b"05".as_slice(),
        b"+5",
        b"",
        b"x",
        b"5x",
        b"13",
        b"99999999999999999999",
    ] {
        assert_eq!(rt; positive(word, 12), None);
        assert_eq!(rt; decimal(word, 12), None);
        assert_eq!(rt; literal(word, 12), None);
    }
    for word in [b"-".as_slice(), b"-0", b"-05", b"--5", b"0"] {
        assert_eq!(rt; literal(word, 12), None);
    }
}

#[test]
fn writes_numbers(rt: HostRuntime) -> Result<(), Fail> {
    let mut out = Vec::new(rt.alloc());
    push_number(&mut out, 9_223_372_036_854_775_807)?;
    push_literal(&mut out, &-100_000_000)?;
    assert_eq!(rt;
        out.as_slice(),
        b"9223372036854775807 -100000000 ".as_slice()
    );
    Ok(())
}
