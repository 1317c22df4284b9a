//! Threads: each is a stack of what may come next in a text, whatever comes after it.

use syntax_tree::Bracket;

/// What may stand where an expression is needed.
#[derive(Clone, Copy)]
pub struct Goal {
    /// Operators outside brackets have this level or a tighter one.
    pub least: u8,
    /// Whether a level 0 form may stand in it, outside brackets.
    pub has_forms: bool,
    /// Whether such a form may be written with `|`.
    pub has_bars: bool,
    /// Whether it may itself be a level 0 form that begins with `some`, `lone` or `one`.
    pub has_words: bool,
    /// Whether it may begin with `-`.
    pub has_minus: bool,
    /// Whether it is a block.
    pub is_block: bool,
    /// How deep it may be, where there is a limit.
    pub room: Option<u32>,
}

/// What the rules ask of an operand that stands on the left of an operator.
#[derive(Clone, Copy)]
pub struct Mark {
    /// The level of its form.
    pub level: u8,
    /// Whether its last token lies in the body of a level 0 form written with `|`, outside brackets.
    pub is_open: bool,
    /// Whether it, or the last operand with which it ends, is an implication without `else`.
    pub is_bare: bool,
}

/// A token, or one of several.
#[derive(Clone, Copy)]
pub enum Expected {
    Name,
    Number,
    /// The name of an operation on integers, after `fun/`.
    Arithmetic,
    /// A multiplicity word.
    Multiplicity,
    Slash,
    Comma,
    Colon,
    Equal,
    Arrow,
    Dot,
    OpenBrace,
    CloseBrace,
    /// `open`
    Open,
    /// `but`
    But,
}

/// What variables are declared for.
#[derive(Clone, Copy)]
pub enum Declared {
    /// A form with variables, whether it is a `sum`, and how deep it is so far.
    Quantified(Goal, bool, u32),
    /// The same for a comprehension.
    Comprehension(Goal, u32),
    /// Parameters, with the room of their bounds.
    Parameters(Option<u32>, Bracket),
}

/// Where one of several continuations comes.
#[derive(Clone, Copy)]
pub enum State {
    /// The rest of a path, behind a `/`.
    Names,
    /// A path, maybe with `this/` before it.
    Path,
    /// The items of a block so far as deep as this, and whether there are none yet.
    Items(Goal, u32, bool),
    /// The arguments of a box, or its end.
    Arguments(Goal, u32),
    /// What follows an argument.
    NextArgument(Goal, u32),
    /// A comparator behind a negation.
    Comparator(Goal, u32),
    /// A list of variables, maybe with `disj` before it.
    Declare(Declared),
    /// A variable.
    Variable(Declared),
    /// A bound of variables.
    Bound(Declared),
    /// What follows a list of variables.
    NextDecl(Declared),
    /// What follows a value of a `let`.
    NextBinding(Goal, u32),
}

/// What an expression that was read is a part of, and what goes on behind it.
#[derive(Clone, Copy)]
pub enum Frame {
    /// A parenthesis.
    Parenthesis(Goal),
    /// The last operand of an operator of this level, and how deep the operands before it are.
    Last(Goal, u8, u32),
    /// The consequence of an implication.
    Consequence(Goal, u32),
    /// An item of a block.
    Item(Goal, u32),
    /// An argument of a box.
    Argument(Goal, u32),
    /// The bound of variables.
    Bound(Declared),
    /// A value of a `let`.
    Value(Goal, u32),
    /// The body of a form with variables, and whether `|` stands before it.
    Body(Goal, bool, u32),
    /// The body of a comprehension.
    Inside(Goal, u32),
}

/// The qualifiers before a sig so far.
#[derive(Clone, Copy)]
pub struct Qualified {
    pub is_private: bool,
    pub is_var: bool,
    pub is_abstract: bool,
    /// Whether a multiplicity word is among them.
    pub has_word: bool,
}

/// Where one of several continuations comes in a module, outside its expressions. The numbers are
/// the rooms of trees.
#[derive(Clone, Copy)]
pub enum Piece {
    SigName,
    /// What follows an argument of an `open`.
    NextSigName,
    Parameter,
    NextParameter,
    /// The paragraphs that are left, and the end.
    Paragraphs(Option<u32>),
    /// `run` or `check`
    Keyword(Option<u32>),
    /// A predicate or a function.
    Callable(Option<u32>),
    /// What follows the qualifiers of a sig.
    Sig(Qualified, Option<u32>),
    SigNames,
    /// The fields, or the end of them.
    Fields(Option<u32>),
    Field(Option<u32>),
    /// A further name of a field.
    FieldName(Option<u32>),
    FieldBound(Option<u32>),
    Bound(Option<u32>),
    NextField(Option<u32>),
    Member,
    NextMember,
    /// A block, maybe with a name before it.
    Title(Option<u32>),
    /// Parameters in square brackets, or the end of them.
    Square(Option<u32>),
    /// The same in round brackets.
    Round(Option<u32>),
    Scope,
    Entry,
    Target,
    Subject(Option<u32>),
}

/// What may come next in a module or not.
#[derive(Clone, Copy)]
pub enum Optional {
    Header,
    HeaderParameters,
    Opens,
    Arguments,
    Alias,
    Parents,
    MoreParents,
    Block(Option<u32>),
    Parameters(Option<u32>),
    Scope,
    Expect,
    Entries,
}

/// A part of a thread.
#[derive(Clone, Copy)]
pub enum Item {
    /// This token comes next.
    Token(Expected),
    /// An expression comes next.
    Need(Goal),
    /// One of several continuations comes next.
    Want(State),
    /// An expression was read, which the next token may make longer.
    Have(Goal, Mark, u32),
    /// What goes on behind an expression.
    Then(Frame),
    /// One of several continuations comes next in a module.
    Part(Piece),
    /// What may come next in a module or not.
    May(Optional),
}

/// What a whole text is.
#[derive(Clone, Copy)]
pub enum Root {
    Expr,
    /// The bound of variables, maybe with a multiplicity word before it.
    Bound,
    Block,
    Module,
}
