//! Bytes that mean something in XML, Graphviz and JSON.

use std::test::Fail;
use view_quotes::{push_entities, push_json, push_number};

#[test]
fn writes_bytes_that_mean_something(rt: HostRuntime) -> Result<(), Fail> {
    let mut out = Vec::new(rt.alloc());
    push_entities(&mut out, b"a\"&'<>\\")?;
    assert_eq!(rt;
        out.as_slice(),
        b"a&quot;&amp;&#39;&lt;&gt;&#92;".as_slice()
    );
    let mut out = Vec::new(rt.alloc());
    push_json(&mut out, b"a\"&'<>\\\n\xff")?;
    push_number(&mut out, 10)?;
    assert_eq!(rt;
        out.as_slice(),
        b"a\\u0022\\u0026'\\u003c\\u003e\\u005c\\u000a\\u00ff10".as_slice()
    );
    Ok(())
}
