//! The static rules, and the places at which a source breaks them.
ghost use Rattle.std.specs.Prelude.{◌≡◌};
ghost use Rattle.base_types.specs.Place.{number_of};

/// A place in a text. A line ends with byte 10, and a column counts bytes.
#[derive(Clone, Copy, Debug, PartialEq, Eq)]
pub struct Position {
    /// The number of the text in load order, from 0.
    pub module: u32,
    /// The line, from 1.
    pub line: u32,
    /// The column, from 1.
    pub column: u32,
}

/// A static rule, by what breaks it.
#[derive(Clone, Copy, Debug, PartialEq, Eq)]
pub enum Rule {
    /// S01: a byte begins no token. See docs/RULES.md.
    BadByte,
    /// S02: a comment `/*` has no `*/`. See docs/RULES.md.
    OpenComment,
    /// S03: a number has more than 9 digits. See docs/RULES.md.
    LongNumber,
    /// S04: a text has more bytes than a file may have: 1,048,576, or 67,108,864.
    /// See docs/RULES.md.
    LargeFile,
    /// S10: a token with which no text of the grammar goes on. See docs/RULES.md.
    Syntax,
    /// S11: a token with which each text that goes on has a tree of depth over 250.
    /// See docs/RULES.md.
    TooDeep,
    /// S20: no library has the text. See docs/RULES.md.
    NoModule,
    /// S21: an open of a text that is being opened already. See docs/RULES.md.
    ModuleCycle,
    /// S22: an argument of an open names not one sig, or there aren't as many as parameters.
    /// See docs/RULES.md.
    ModuleArguments,
    /// S23: two opens of a module have one alias. See docs/RULES.md.
    AliasTwice,
    /// S24: there are more than 64 instances of modules. See docs/RULES.md.
    TooManyModules,
    /// S30: two sigs or parameters, or two assertions, of a module have one name.
    /// See docs/RULES.md.
    NameTwice,
    /// S31: a parent's name doesn't mean exactly one sig. See docs/RULES.md.
    NoParent,
    /// S32: a sig is its own ancestor. See docs/RULES.md.
    ParentCycle,
    /// S33: `Int` or a subset sig is extended. See docs/RULES.md.
    ExtendsSubset,
    /// S34: two fields of one sig, or of sigs that overlap, have one name. See docs/RULES.md.
    FieldTwice,
    /// S40: a name names nothing there. See docs/RULES.md.
    UnknownName,
    /// S41: an expression has several readings. See docs/RULES.md.
    Ambiguous,
    /// S42: an expression has no reading. See docs/RULES.md.
    NoReading,
    /// S43: a root has more readings than 4,096. See docs/RULES.md.
    TooManyReadings,
    /// S44: a predicate or function calls itself, directly or not. See docs/RULES.md.
    RecursiveCall,
    /// S45: a variable of a quantifier or comprehension would range over relations.
    /// See docs/RULES.md.
    HigherOrder,
    /// S46: a number doesn't fit the bitwidth of the command. See docs/RULES.md.
    Literal,
    /// S47: an expression or a field has more than 9 columns. See docs/RULES.md.
    ArityLimit,
    /// S48: past operators are nested over 8 deep in a formula. See docs/RULES.md.
    PastDepth,
    /// S49: a formula is over 2,000 deep once its calls are written out. See docs/RULES.md.
    DeepCalls,
    /// S60: the root has no command of the number that was asked for. See docs/RULES.md.
    NoCommand,
    /// S61: a scope for what takes none, for a sig twice, or with `exactly` where it can't stand.
    /// See docs/RULES.md.
    BadScope,
    /// S62: `exactly` for a sig that changes with time. See docs/RULES.md.
    ExactVar,
    /// S63: a scope of a `one` or `lone` sig contradicts it. See docs/RULES.md.
    ScopeConflict,
    /// S64: the bitwidth isn't from 1 to 12. See docs/RULES.md.
    Bitwidth,
    /// S65: the number of steps isn't from 1 to 32. See docs/RULES.md.
    Steps,
    /// S66: a command has more than 16,384 atoms and integers. See docs/RULES.md.
    Atoms,
    /// S67: the table of a command has more than 1,000,000 variables. See docs/RULES.md.
    Cells,
}

impl Rule {
    /// The number under which the rule is printed after an `S`.
    pub fn number(&self) -> u8
        ensures { result ≡ number_of self.now }
    {
        match self {
            Rule::BadByte => 1,
            Rule::OpenComment => 2,
            Rule::LongNumber => 3,
            Rule::LargeFile => 4,
            Rule::Syntax => 10,
            Rule::TooDeep => 11,
            Rule::NoModule => 20,
            Rule::ModuleCycle => 21,
            Rule::ModuleArguments => 22,
            Rule::AliasTwice => 23,
            Rule::TooManyModules => 24,
            Rule::NameTwice => 30,
            Rule::NoParent => 31,
            Rule::ParentCycle => 32,
            Rule::ExtendsSubset => 33,
            Rule::FieldTwice => 34,
            Rule::UnknownName => 40,
            Rule::Ambiguous => 41,
            Rule::NoReading => 42,
            Rule::TooManyReadings => 43,
            Rule::RecursiveCall => 44,
            Rule::HigherOrder => 45,
            Rule::Literal => 46,
            Rule::ArityLimit => 47,
            Rule::PastDepth => 48,
            Rule::DeepCalls => 49,
            Rule::NoCommand => 60,
            Rule::BadScope => 61,
            Rule::ExactVar => 62,
            Rule::ScopeConflict => 63,
            Rule::Bitwidth => 64,
            Rule::Steps => 65,
            Rule::Atoms => 66,
            Rule::Cells => 67,
        }
    }
}

/// The rule that a source breaks first, and the place of the break.
#[derive(Clone, Copy, Debug, PartialEq, Eq)]
pub struct Refusal {
    pub rule: Rule,
    pub place: Position,
}
