//! A trace as one page that needs nothing else.

use crate::json::push_trace;
use crate::page::{BODY, HEAD, STYLE};
use crate::script::SCRIPT;
use crate::script_graph::SCRIPT_GRAPH;
use std::alloc::{AllocError, Global};
use view_trace::Trace;

/// A trace as an HTML page: fixed parts, and the trace as JSON in an element of its own.
pub fn write_html(alloc: Global, trace: &Trace) -> Result<Vec<u8>, AllocError> {
    let mut out = Vec::new(alloc);
    out.extend_from_slice(HEAD.as_bytes())?;
    out.extend_from_slice(STYLE.as_bytes())?;
    out.extend_from_slice(BODY.as_bytes())?;
    push_trace(&mut out, trace)?;
    out.extend_from_slice(SCRIPT.as_bytes())?;
    out.extend_from_slice(SCRIPT_GRAPH.as_bytes())?;
    Ok(out)
}
