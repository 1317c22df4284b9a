//! Limits within which the analyser works. Past each of them a source is refused by the rule that
//! is named. The other limits stand where they are tested: the digits of a literal in
//! `syntax_lexer` (S03), the readings of a root in `resolve_readings` (S43), the columns of a
//! relation in `resolve_expr` (S47), the variables of the table in `bound_uppers` (S67), and the
//! numbers of a clause file's header in `sat_dimacs` (C01).

/// Bytes of a module's text, and of the text of one expression (S04).
pub const MODULE_BYTES: usize = 1_048_576;

/// Bytes of a file of clauses, of a proof or of a trace (S04).
pub const FILE_BYTES: usize = 67_108_864;

/// Depth of a syntax tree (S11).
pub const TREE_DEPTH: u32 = 250;

/// Depth of a formula once its calls are written out (S49).
pub const INLINED_DEPTH: u32 = 2_000;

/// Instances of modules; the implicitly opened `util/integer` isn't counted (S24).
pub const MODULE_INSTANCES: u32 = 64;

/// How deep past operators nest (S48).
pub const PAST_DEPTH: u32 = 8;

/// The greatest bitwidth of integers; the least is 1 (S64).
pub const BITWIDTH: u32 = 12;

/// The greatest number of states of a trace; the least is 1 (S65).
pub const STEPS: u32 = 32;

/// Atoms of sigs and integers together (S66).
pub const ATOMS: u32 = 16_384;
