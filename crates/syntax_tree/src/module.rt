//! The trees of a module and its paragraphs, as they were written.

use crate::expr::{Decl, Expr, Named, QualName};
use crate::operator::Multiplicity;
use base_lists::Items;
use base_types::Position;

/// The name of a sig, or `Int`.
#[derive(Drop)]
pub enum SigName {
    Name(QualName),
    Int(Position),
}

/// A parameter of a module.
#[derive(Drop)]
pub struct Parameter {
    pub is_exact: bool,
    pub name: Named,
}

/// The line that names a module.
#[derive(Drop)]
pub struct Header {
    /// The place of its first token.
    pub place: Position,
    pub path: QualName,
    /// The parameters in brackets; where there are none, no brackets stand.
    pub parameters: Items<Parameter>,
}

/// The opening of another module.
#[derive(Drop)]
pub struct Open {
    /// The place of its first token.
    pub place: Position,
    pub is_private: bool,
    pub path: QualName,
    /// The arguments in brackets; where there are none, no brackets stand.
    pub arguments: Items<SigName>,
    /// The name after `as`.
    pub alias: Option<Named>,
}

/// An expression with the multiplicity word before it.
#[derive(Drop)]
pub struct Bound {
    /// The place of its first token.
    pub place: Position,
    pub word: Option<Multiplicity>,
    pub tree: Expr,
}

/// A word before `sig`.
#[derive(Clone, Copy, Debug, PartialEq, Eq)]
pub enum Qualifier {
    Private,
    Var,
    Abstract,
    Lone,
    One,
    Some,
}

/// A word before the names of fields.
#[derive(Clone, Copy, Debug, PartialEq, Eq)]
pub enum FieldWord {
    Private,
    Var,
    Disj,
}

/// Fields with one bound.
#[derive(Drop)]
pub struct Field {
    /// The place of its first token.
    pub place: Position,
    pub words: Items<FieldWord>,
    pub names: Items<Named>,
    /// Whether `disj` stands after the colon.
    pub is_disjoint: bool,
    pub bound: Bound,
}

/// What stands between the names of sigs and their fields.
#[derive(Drop)]
pub enum Parents {
    Top,
    /// `extends`
    Extends(SigName),
    /// `in`
    Subset(Items<SigName>),
}

/// Sigs that are declared together.
#[derive(Drop)]
pub struct Sig {
    /// The place of its first token.
    pub place: Position,
    pub qualifiers: Items<Qualifier>,
    pub names: Items<Named>,
    pub parents: Parents,
    pub fields: Items<Field>,
    /// Whether a comma stands after the last field.
    pub has_comma: bool,
    /// The block after the fields.
    pub block: Option<Expr>,
}

/// A sig with its members.
#[derive(Drop)]
pub struct Enumeration {
    /// The place of its first token.
    pub place: Position,
    pub name: Named,
    pub members: Items<Named>,
    /// Whether a comma stands after the last member.
    pub has_comma: bool,
}

/// A block that may have a name.
#[derive(Drop)]
pub struct Claim {
    /// The place of its first token.
    pub place: Position,
    pub name: Option<Named>,
    pub block: Expr,
}

/// The brackets round parameters.
#[derive(Clone, Copy, Debug, PartialEq, Eq)]
pub enum Bracket {
    Square,
    Round,
}

/// The parameters of a predicate or a function, which may be none.
#[derive(Drop)]
pub struct Parameters {
    pub bracket: Bracket,
    pub decls: Items<Decl<Expr>>,
}

/// A predicate.
#[derive(Drop)]
pub struct Pred {
    /// The place of its first token.
    pub place: Position,
    pub is_private: bool,
    /// The sig before the dot.
    pub receiver: Option<SigName>,
    pub name: Named,
    pub parameters: Option<Parameters>,
    pub block: Expr,
}

/// A function.
#[derive(Drop)]
pub struct Fun {
    /// The place of its first token.
    pub place: Position,
    pub is_private: bool,
    /// The sig before the dot.
    pub receiver: Option<SigName>,
    pub name: Named,
    pub parameters: Option<Parameters>,
    pub result: Bound,
    /// The expression in braces.
    pub value: Expr,
}

/// A number that was written.
#[derive(Clone, Copy, Debug, PartialEq, Eq)]
pub struct Numeral {
    pub place: Position,
    pub value: u32,
}

/// What a number of a scope is for.
#[derive(Drop)]
pub enum ScopeTarget {
    Sig(SigName),
    /// `int`
    Bits(Position),
}

/// A number of a scope.
#[derive(Drop)]
pub struct ScopeEntry {
    pub is_exact: bool,
    pub number: Numeral,
    pub target: ScopeTarget,
}

/// What stands after `for`.
#[derive(Drop)]
pub enum Scope {
    Overall(Numeral),
    /// `but`
    But(Numeral, Items<ScopeEntry>),
    Entries(Items<ScopeEntry>),
}

/// What a command runs or checks.
#[derive(Drop)]
pub enum Subject {
    Name(QualName),
    Block(Expr),
    /// A label and a block.
    Labelled(QualName, Expr),
}

/// A command.
#[derive(Drop)]
pub struct Command {
    /// The place of its first token.
    pub place: Position,
    /// The name before the colon.
    pub label: Option<Named>,
    /// The place of `run` or `check`.
    pub keyword: Position,
    pub is_check: bool,
    pub subject: Subject,
    pub scope: Option<Scope>,
    /// The number after `expect`.
    pub expected: Option<u32>,
}

/// A paragraph of a module.
#[derive(Drop)]
pub enum Paragraph {
    Sig(Sig),
    Enum(Enumeration),
    Fact(Claim),
    Assert(Claim),
    Pred(Pred),
    Fun(Fun),
    Command(Command),
}

/// A text as it was written.
#[derive(Drop)]
pub struct Module {
    /// The line `module ..`, where it stands.
    pub header: Option<Header>,
    pub opens: Items<Open>,
    pub paragraphs: Items<Paragraph>,
}
