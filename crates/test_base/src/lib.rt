//! Tests of what all others stand on: words, lists, the library modules, files and the standard output.
#![tactic(auto)]

#[cfg(test)]
mod host;
#[cfg(test)]
mod library;
#[cfg(test)]
mod lists;
#[cfg(test)]
mod words;
