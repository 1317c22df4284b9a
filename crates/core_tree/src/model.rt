//! The parts of a resolved model: sigs, fields, facts, assertions, bodies and commands.

use crate::list::ItemList;
use crate::operators::Multiplicity;
use crate::tree::{Expr, Formula};
use base_types::{Name, Position};

/// The sigs of a model: those of all instances in load order and then text order, then `String`,
/// then the literals' sigs.
pub type SigList = ItemList<Sig>;
/// The fields of a model, in load order and then text order; relation parameters' fields come last.
pub type FieldList = ItemList<Field>;
/// The facts of a model, in load order and then text order.
pub type FactList = ItemList<Fact>;
/// The assertions of a model, in load order and then text order.
pub type AssertList = ItemList<Assert>;
/// The predicates and functions of a model, in load order and then text order.
pub type BodyList = ItemList<Body>;
/// The commands of the root, in text order.
pub type CommandList = ItemList<Command>;
/// The parameters of a body, in order.
pub type ParameterList = ItemList<Parameter>;
/// The entries of a command's scope, in text order.
pub type ScopeEntryList = ItemList<ScopeEntry>;
/// The parents of an `in` sig, in text order.
pub type ParentList = ItemList<Column>;
/// One row of a type: what stands in each column.
pub type Row = ItemList<Column>;
/// A type: its rows.
pub type RowList = ItemList<Row>;
/// Formulas in order.
pub type FormulaList = ItemList<Formula>;

/// What a column of a type, or a parent of an `in` sig, is.
#[derive(Clone, Copy, Debug, PartialEq, Eq, Drop)]
pub enum Column {
    /// A sig, by its number.
    Sig(u32),
    /// The integers.
    Int,
}

/// Where a sig stands in the hierarchy.
#[derive(Drop)]
pub enum SigKind {
    /// A top-level sig.
    Top,
    /// A sig that extends the one of this number; a literal's sig extends `String`.
    Extends(u32),
    /// An `in` sig, inside the union of these parents.
    Subset(ParentList),
}

/// Where something was written: the instance's number in load order, and a place in its text.
#[derive(Clone, Copy, Debug, PartialEq, Eq, Drop)]
pub struct Origin {
    pub instance: u32,
    pub place: Position,
}

/// A sig.
#[derive(Drop)]
pub struct Sig {
    /// Its instance and the place of its paragraph's first token; `String` and the literals' sigs
    /// have none.
    pub origin: Option<Origin>,
    /// Its label; of a literal's sig the literal with its quotes.
    pub label: Name,
    /// Whether it is `var`.
    pub is_var: bool,
    /// Whether it is abstract.
    pub is_abstract: bool,
    /// Its word before `sig`, `Set` where it has none.
    pub multiplicity: Multiplicity,
    /// Its parents.
    pub kind: SigKind,
    /// Its appended fact, in which `this` is name 0.
    pub appended: Option<Formula>,
    /// The instance and the path of the first open that gives it to an `exactly` parameter.
    pub exactly: Option<Origin>,
}

/// A bound with its multiplicity: the written word, else `One` for one column and `Set` for more.
#[derive(Drop)]
pub struct Bound {
    pub multiplicity: Multiplicity,
    pub expr: Expr,
}

/// What a declared field's text says of it.
#[derive(Drop)]
pub struct FieldBound {
    /// Its bound, in which `this` is name 0.
    pub bound: Bound,
    /// The number of its leading `disj` list, if any: fields of one owner with equal numbers share
    /// no tuple at any atom.
    pub disj_list: Option<u32>,
    /// Whether `disj` stands after its colon: different atoms have disjoint values.
    pub disj_values: bool,
}

/// A field.
#[derive(Drop)]
pub struct Field {
    /// Its label.
    pub label: Name,
    /// Its number of columns, the owner's column among them.
    pub columns: u32,
    /// Its type. Here a `var` sig stands as its nearest ancestor that isn't `var`, or else as its
    /// top-level sig.
    pub rows: RowList,
    /// Whether it is `var`.
    pub is_var: bool,
    /// Its sig; a relation parameter's field has none.
    pub owner: Option<u32>,
    /// Its bound, there exactly where it has an owner.
    pub declared: Option<FieldBound>,
}

/// A fact.
#[derive(Drop)]
pub struct Fact {
    pub instance: u32,
    /// The place of its paragraph's first token.
    pub place: Position,
    pub name: Option<Name>,
    pub formula: Formula,
}

/// An assertion.
#[derive(Drop)]
pub struct Assert {
    pub instance: u32,
    /// The place of its paragraph's first token.
    pub place: Position,
    pub name: Option<Name>,
    pub formula: Formula,
}

/// A parameter of a predicate or function. Its number in the body is its place among the parameters.
#[derive(Drop)]
pub struct Parameter {
    /// How it is called where it is declared.
    pub label: Name,
    /// From how many of the parameters just before it it differs, as in `Variable`.
    pub apart: u32,
    /// Its bound, in which earlier parameters may stand. It doesn't constrain a call.
    pub bound: Bound,
}

/// What a body is.
#[derive(Drop)]
pub enum BodyForm {
    /// A predicate's formula.
    Test(Formula),
    /// A function's expression, and its result bound, which doesn't constrain a call.
    Term(Expr, Bound),
}

/// A predicate or function.
#[derive(Drop)]
pub struct Body {
    pub instance: u32,
    pub parameters: ParameterList,
    pub form: BodyForm,
    /// Its call rank: above the rank of each body that it calls.
    pub rank: u32,
}

/// Whether a command runs or checks.
#[derive(Clone, Copy, Debug, PartialEq, Eq, Drop)]
pub enum CommandKind {
    Run,
    Check,
}

/// What an entry of a scope is for.
#[derive(Clone, Copy, Debug, PartialEq, Eq, Drop)]
pub enum ScopeSubject {
    /// A sig, by its number.
    Sig(u32),
    /// `Int` or `int`: the bitwidth.
    Int,
    /// `steps`.
    Steps,
    /// The overall number of top-level sigs.
    Overall,
    /// A name that is not one sig.
    Unknown,
}

/// One entry of a command's scope.
#[derive(Drop)]
pub struct ScopeEntry {
    /// The place of its number.
    pub number_place: Position,
    /// The place of its name; of the overall number's entry that of its number.
    pub name_place: Position,
    pub number: u32,
    /// Whether `exactly` stands before the number.
    pub exactly: bool,
    pub subject: ScopeSubject,
}

/// A command of the root.
#[derive(Drop)]
pub struct Command {
    pub kind: CommandKind,
    /// The place of `run` or `check`.
    pub keyword: Position,
    /// The place of its first token, which is its label where one stands before `:`.
    pub first: Position,
    /// The place of the name after the keyword, if any.
    pub name_place: Option<Position>,
    /// Its label, or else the name that it runs or checks.
    pub label: Option<Name>,
    /// The predicate that it runs, if any.
    pub body: Option<u32>,
    /// What it asks of a lasso at position 0: of `run` the body under `some` over its parameters,
    /// of `check` the negated assertion.
    pub formula: Formula,
    pub scope: ScopeEntryList,
}

/// A resolved model.
#[derive(Drop)]
pub struct Model {
    pub sigs: SigList,
    pub fields: FieldList,
    pub facts: FactList,
    pub asserts: AssertList,
    pub bodies: BodyList,
    pub commands: CommandList,
}
