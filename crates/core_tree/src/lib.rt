//! Resolved models: the lists that make up a model, and its formulas and expressions.
//! Every name in them has been read: it is the number of a sig, a field, a body or a variable.
#![tactic(auto)]

pub mod call_rank;
pub mod copy;
pub mod list;
pub mod model;
pub mod operators;
pub mod tree;

pub use call_rank::rank;
pub use list::ItemList;
pub use model::{
    Assert, AssertList, Body, BodyForm, BodyList, Bound, Column, Command, CommandKind, CommandList,
    Fact, FactList, Field, FieldBound, FieldList, FormulaList, Model, Origin, Parameter,
    ParameterList, ParentList, Row, RowList, ScopeEntry, ScopeEntryList, ScopeSubject, Sig,
    SigKind, SigList,
};
pub use operators::{
    Comparison, Connective, IntOp, Multiplicity, Quantity, RelationOp, TemporalBinary,
    TemporalUnary, UnaryRelation,
};
pub use tree::{Expr, Formula, Variable};
