//! A trace written as a picture (dot), as a page (html), as the instances of the Alloy Analyzer's visualizer (xml), or as
//! data (json).
//!
//! Each writer gives a whole text in memory. Names from the trace go through `view_quotes`, which adds no byte that means
//! something there.
#![tactic(auto)]

mod change;
mod dot;
mod edges;
mod html;
mod json;
mod nodes;
mod page;
mod script;
mod script_graph;
mod types;
mod xml;

pub use dot::write_dot;
pub use html::write_html;
pub use json::write_json;
pub use xml::write_xml;
