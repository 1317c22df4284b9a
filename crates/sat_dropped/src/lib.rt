//! An index of the lemmas that a search has dropped, by which a clause that contains one of them is known.
//!
//! A clause that contains another says nothing new. A search that wants each lemma to be new has to
//! ask this of the lemmas too that it propagates no more, so they are kept here by their numbers.
//!
//! Each has one entry, in the list of one of its literals: the one whose list was shortest when it
//! came. A clause that contains the lemma contains that literal, so the lists of the clause's own
//! literals are all that has to be walked (subsumption by one watched literal: Zhang 2005).
//!
//! An entry is a signature beside a number. A signature has 64 bits, and each literal of the lemma
//! sets one of them. Where it has a bit that the clause's signature lacks, the lemma isn't part of
//! the clause (Eén and Biere 2005), and mostly this is all that is read of it. The signatures of a
//! list lie side by side for this.
//!
//! Else each literal of the lemma is looked up among those of the clause: a table gives for each
//! literal the place where it stood in the clause that was asked for last, and it is among these if
//! it stands there (Briggs and Torczon 1993). So the table is never cleared.
#![tactic(auto)]

mod dropped;
mod find;
mod list;
mod part;

pub use dropped::Dropped;
