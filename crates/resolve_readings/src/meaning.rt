//! What a part of a root is under a choice.

ghost use Rattle.std.specs.Prelude.{◌≡◌, IfOk};

use base_lists::Items;
use resolve_types::Columns;
use std::alloc::{AllocError, Global};

/// What a part is under a choice.
#[derive(Drop)]
pub enum What {
    /// A set with its type.
    Set(Columns),
    /// A call of a predicate.
    Formula,
    /// A body that waits for arguments: the parameters that are left, of which there is at least one, and its result, None of a
    /// predicate.
    Waiting(Items<Columns>, Option<Columns>),
}

/// What a part is under a choice, and what is said of the choice.
#[derive(Drop)]
pub struct Meaning {
    pub what: What,
    /// Whether it is an arrow with a multiplicity word, or has one with nothing but arrows and parentheses above it.
    pub marked: bool,
    /// Whether nothing in it has an empty meet between two types that aren't empty.
    pub relevant: bool,
    /// Whether it names something of the integer module that is opened implicitly.
    pub integer: bool,
    /// The most columns of a part of it.
    pub widest: u32,
}

/// Equal types.
pub fn copy_all(alloc: Global, all: &[Columns]) -> Result<Items<Columns>, AllocError>
    ensures { IfOk result (λ c. c ≡ all.now) }
{
    let mut copies = Items::new(alloc);
    for columns in all {
        copies.push(columns.copy(alloc)?)?;
    }
    Ok(copies)
}

/// An equal type, where there is one.
pub fn copy_some(alloc: Global, columns: &Option<Columns>) -> Result<Option<Columns>, AllocError>
    ensures { IfOk result (λ c. c ≡ columns.now) }
{
    match columns {
        Some(columns) => Ok(Some(columns.copy(alloc)?)),
        None => Ok(None),
    }
}

impl What {
    fn copy(&self, alloc: Global) -> Result<What, AllocError>
        ensures { IfOk result (λ w. w ≡ self.now) }
    {
        match self {
            What::Set(columns) => Ok(What::Set(columns.copy(alloc)?)),
            What::Formula => Ok(What::Formula),
            What::Waiting(parameters, result) => {
                let parameters = copy_all(alloc, parameters.as_slice())?;
                let result = copy_some(alloc, result)?;
                Ok(What::Waiting(parameters, result))
            }
        }
    }
}

impl Meaning {
    /// An equal meaning.
    pub fn copy(&self, alloc: Global) -> Result<Meaning, AllocError>
        ensures { IfOk result (λ m. m ≡ self.now) }
    {
        let what = self.what.copy(alloc)?;
        Ok(Meaning {
            what,
            marked: self.marked,
            relevant: self.relevant,
            integer: self.integer,
            widest: self.widest,
        })
    }
}
