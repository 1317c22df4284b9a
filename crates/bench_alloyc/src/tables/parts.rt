//! Cuts an answer into its clauses and its proof.

use std::alloc::{AllocError, Global};

/// The clauses and the proof of an answer.
#[derive(Drop)]
pub struct Parts {
    pub clauses: Vec<u8>,
    pub proof: Vec<u8>,
    pub lemmas: usize,
}

/// Which part a line belongs to.
#[derive(Clone, Copy, Drop)]
enum At {
    Answer,
    Clauses,
    Proof,
}

/// Cuts an answer: the clauses stand after the line `clauses`, and the proof after the line `refutation` or `derivation` and
/// before the line `end`.
pub fn cut(alloc: Global, answer: &str) -> Result<Parts, AllocError> {
    let mut parts = Parts {
        clauses: Vec::new(alloc),
        proof: Vec::new(alloc),
        lemmas: 0,
    };
    let mut at = At::Answer;
    for line in answer.lines() {
        at = match (at, line) {
            (At::Answer, "clauses") => At::Clauses,
            (At::Clauses, "refutation" | "derivation") => At::Proof,
            (At::Proof, "end") => At::Answer,
            _ => {
                keep(&mut parts, at, line)?;
                at
            }
        };
    }
    Ok(parts)
}

/// Puts a line into its part.
fn keep(parts: &mut Parts, at: At, line: &str) -> Result<(), AllocError> {
    match at {
        At::Answer => {}
        At::Clauses => {
            parts.clauses.extend_from_slice(line.as_bytes())?;
            parts.clauses.push(b'\n')?;
        }
        At::Proof => {
            parts.proof.extend_from_slice(line.as_bytes())?;
            parts.proof.push(b'\n')?;
            parts.lemmas = parts.lemmas.saturating_add(1);
        }
    }
    Ok(())
}
