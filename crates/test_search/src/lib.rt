//! Tests of the search: its lists of nodes, its trail, what is picked, and its answers beside those of the plain search.
#![tactic(auto)]

#[cfg(test)]
mod choosers;
#[cfg(test)]
mod nodes;
#[cfg(test)]
mod searches;
#[cfg(test)]
mod trails;
