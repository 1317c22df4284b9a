//! Writing clauses: the table's rows as comments, the header, and a line for each clause.

ghost use Rattle.std.specs.Prelude.{◌≡◌, ◌++◌, length, OnOk, IfOk, flat_map};
ghost use Rattle.sat_dimacs.specs.Text.{row_text, clause_text, header_text, cnf_text};

use crate::clause::{Clause, ClauseList};
use crate::cnf::Cnf;
use crate::table::Table;
use base_words::{push_literal, push_number};
use itoa::Buffer;
use std::alloc::{AllocError, Global};

/// Writes the rows of a table.
fn push_rows(out: &mut Vec<u8>, table: &Table) -> Result<(), AllocError>
    ensures { OnOk result (out.new.items ≡ out.old.items ++ flat_map row_text table.now) }
{
    for row in table.rows() {
        out.extend_from_slice(b"c ")?;
        out.extend_from_slice(row.text())?;
        out.push(b'\n')?;
    }
    Ok(())
}

/// Writes the header.
fn push_header(out: &mut Vec<u8>, variables: u64, count: usize) -> Result<(), AllocError>
    ensures { OnOk result (out.new.items ≡ out.old.items ++ header_text variables count) }
{
    out.extend_from_slice(b"p cnf ")?;
    push_number(out, variables)?;
    let mut buffer = Buffer::new();
    out.extend_from_slice(buffer.format(count as u64).as_bytes())?;
    out.push(b'\n')?;
    Ok(())
}

/// Writes a clause.
fn push_clause(out: &mut Vec<u8>, clause: &Clause) -> Result<(), AllocError>
    ensures { OnOk result (out.new.items ≡ out.old.items ++ clause_text clause.now) }
{
    for literal in clause.literals() {
        push_literal(out, literal)?;
    }
    out.extend_from_slice(b"0\n")
}

/// Writes clauses.
fn push_clauses(out: &mut Vec<u8>, clauses: &ClauseList) -> Result<(), AllocError>
    ensures { OnOk result (out.new.items ≡ out.old.items ++ flat_map clause_text clauses.now) }
{
    for clause in clauses.clauses() {
        push_clause(out, clause)?;
    }
    Ok(())
}

/// Writes clauses in the DIMACS CNF format behind a text: the table's rows as comments, the header, and each clause on a
/// line of its own.
pub fn push_cnf(out: &mut Vec<u8>, table: &Table, cnf: &Cnf) -> Result<(), AllocError>
    ensures { OnOk result (out.new.items ≡ out.old.items
        ++ cnf_text table.now cnf.now.variables cnf.now.clauses) }
{
    push_rows(out, table)?;
    push_header(out, cnf.variables, cnf.clauses.len())?;
    push_clauses(out, &cnf.clauses)
}

/// The text of clauses in the DIMACS CNF format, as `push_cnf` writes it.
pub fn print_cnf(alloc: Global, table: &Table, cnf: &Cnf) -> Result<Vec<u8>, AllocError>
    ensures { IfOk result (λ text. text.items ≡ cnf_text table.now cnf.now.variables
        cnf.now.clauses) }
{
    let mut out = Vec::new(alloc);
    push_cnf(&mut out, table, cnf)?;
    Ok(out)
}
