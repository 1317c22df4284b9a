//! What the words of the command line ask for.

/// What a trace is written as.
#[derive(Clone, Copy, Debug, PartialEq, Eq)]
pub enum Format {
    /// A graph for Graphviz.
    Dot,
    /// One page for a browser.
    Html,
    /// The instances of the Alloy Analyzer's visualizer.
    Xml,
    /// Data.
    Json,
}

/// What is asked for.
#[derive(Clone, Copy)]
pub struct Request<'a> {
    pub format: Format,
    /// The file of the trace; `-` is the standard input.
    pub file: &'a str,
}

/// The format of this name.
fn format_named(name: &str) -> Option<Format> {
    if name == "dot" {
        Some(Format::Dot)
    } else if name == "html" {
        Some(Format::Html)
    } else if name == "xml" {
        Some(Format::Xml)
    } else if name == "json" {
        Some(Format::Json)
    } else {
        None
    }
}

/// What the words ask for: the program's name, a format, and perhaps a file.
pub fn request_of(words: &[String]) -> Option<Request<'_>> {
    match words {
        [_, format] => Some(Request {
            format: format_named(format.as_str())?,
            file: "-",
        }),
        [_, format, file] => Some(Request {
            format: format_named(format.as_str())?,
            file: file.as_str(),
        }),
        _ => None,
    }
}
