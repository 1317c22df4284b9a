//! Tokens, the trees that the parsers make of them, and the modules of an analysis.
#![tactic(auto)]

mod expr;
mod instance;
mod levels;
mod loaded;
mod module;
mod nesting;
mod operator;
mod shape;
mod token;

pub use expr::{Access, Binding, Decl, Expr, Named, QualName};
pub use instance::{
    ArgumentList, Instance, InstanceList, Opened, OpenedList, SigRef, Text, TextList,
};
pub use levels::{decls_right, shape_of};
pub use loaded::Loaded;
pub use module::{
    Bound, Bracket, Claim, Command, Enumeration, Field, FieldWord, Fun, Header, Module, Numeral,
    Open, Paragraph, Parameter, Parameters, Parents, Pred, Qualifier, Scope, ScopeEntry,
    ScopeTarget, Sig, SigName, Subject,
};
pub use nesting::{deepest_bound, depth};
pub use operator::{
    Comparator, Comparison, Constant, Infix, Multiplicity, Negation, Prefix, Quantifier,
};
pub use shape::Shape;
pub use token::{Symbol, Token, TokenKind, Word, same_symbol, same_word};
