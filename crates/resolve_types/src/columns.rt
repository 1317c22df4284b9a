//! A type is a number of columns and a set of rows, and operators make types of types.

ghost use Rattle.std.specs.Prelude.{◌≡◌, ◌+◌, ◌≤◌, IfOk};
ghost use Rattle.resolve_types.specs.Types.{union_of, product_of, join_of, meets_of, left_restricted_of, right_restricted_of};
ghost use Rattle.resolve_types.specs.Rows.{distinct as distinct_of, transpose_of, closure_of};

use crate::distinct::{closed_rows, distinct_rows};
use crate::member::Member;
use crate::rows::{Way, copy_rows, pair_rows, turned_rows};
use base_lists::Items;
use std::alloc::{AllocError, Global};

/// A type: its number of columns and its rows.
#[derive(Drop)]
pub struct Columns {
    pub count: u32,
    pub rows: Items<Items<Member>>,
}

impl Columns {
    /// An equal type.
    pub fn copy(&self, alloc: Global) -> Result<Columns, AllocError>
        ensures { IfOk result (λ c. c ≡ self.now) }
    {
        let rows = copy_rows(alloc, self.rows.as_slice())?;
        Ok(Columns {
            count: self.count,
            rows,
        })
    }

    /// The rows of both.
    pub fn union(&self, alloc: Global, other: &Columns) -> Result<Columns, AllocError>
        ensures { IfOk result (λ c. c ≡ union_of self.now other.now) }
    {
        let mut rows = copy_rows(alloc, self.rows.as_slice())?;
        rows.append(copy_rows(alloc, other.rows.as_slice())?)?;
        Ok(Columns {
            count: self.count,
            rows,
        })
    }

    /// Each row of the one and then each of the other.
    pub fn product(
        &self,
        alloc: Global,
        lines: &Items<Items<u32>>,
        other: &Columns,
    ) -> Result<Columns, AllocError>
        ensures { IfOk result (λ c. c ≡ product_of lines.now self.now other.now) }
    {
        let rows = pair_rows(
            alloc,
            lines,
            Way::Product,
            self.rows.as_slice(),
            other.rows.as_slice(),
        )?;
        Ok(Columns {
            count: self.count.saturating_add(other.count),
            rows,
        })
    }

    /// The rows that those of the one make with those of the other in a join.
    pub fn join(
        &self,
        alloc: Global,
        lines: &Items<Items<u32>>,
        other: &Columns,
    ) -> Result<Columns, AllocError>
        requires { 3 ≤ self.now.count + other.now.count }
        ensures { IfOk result (λ c. c ≡ join_of lines.now self.now other.now) }
    {
        let rows = pair_rows(
            alloc,
            lines,
            Way::Join,
            self.rows.as_slice(),
            other.rows.as_slice(),
        )?;
        Ok(Columns {
            count: self.count.saturating_add(other.count) - 2,
            rows,
        })
    }

    /// The meets of the rows of the one with those of the other.
    pub fn meets(
        &self,
        alloc: Global,
        lines: &Items<Items<u32>>,
        other: &Columns,
    ) -> Result<Columns, AllocError>
        ensures { IfOk result (λ c. c ≡ meets_of lines.now self.now other.now) }
    {
        let rows = pair_rows(
            alloc,
            lines,
            Way::Meet,
            self.rows.as_slice(),
            other.rows.as_slice(),
        )?;
        Ok(Columns {
            count: self.count,
            rows,
        })
    }

    /// The rows of the other, each with the meet of its first member and one of this type's members.
    pub fn restrict_left(
        &self,
        alloc: Global,
        lines: &Items<Items<u32>>,
        other: &Columns,
    ) -> Result<Columns, AllocError>
        ensures { IfOk result (λ c. c ≡ left_restricted_of lines.now self.now other.now) }
    {
        let rows = pair_rows(
            alloc,
            lines,
            Way::First,
            self.rows.as_slice(),
            other.rows.as_slice(),
        )?;
        Ok(Columns {
            count: other.count,
            rows,
        })
    }

    /// The rows, each with the meet of its last member and one of the other type's members.
    pub fn restrict_right(
        &self,
        alloc: Global,
        lines: &Items<Items<u32>>,
        other: &Columns,
    ) -> Result<Columns, AllocError>
        ensures { IfOk result (λ c. c ≡ right_restricted_of lines.now self.now other.now) }
    {
        let rows = pair_rows(
            alloc,
            lines,
            Way::Last,
            self.rows.as_slice(),
            other.rows.as_slice(),
        )?;
        Ok(Columns {
            count: self.count,
            rows,
        })
    }

    /// Each row turned round.
    pub fn transpose(&self, alloc: Global) -> Result<Columns, AllocError>
        ensures { IfOk result (λ c. c ≡ transpose_of self.now) }
    {
        let rows = turned_rows(alloc, self.rows.as_slice())?;
        Ok(Columns {
            count: self.count,
            rows,
        })
    }

    /// A type of two columns, joined with itself until nothing new comes.
    pub fn closure(&self, alloc: Global, lines: &Items<Items<u32>>) -> Result<Columns, AllocError>
        ensures { IfOk result (λ c. c ≡ closure_of lines.now self.now) }
    {
        let rows = closed_rows(alloc, lines, self.rows.as_slice())?;
        Ok(Columns { count: 2, rows })
    }

    /// The same type, each row once.
    pub fn distinct(&self, alloc: Global) -> Result<Columns, AllocError>
        ensures { IfOk result (λ c. c ≡ distinct_of self.now) }
    {
        let rows = distinct_rows(alloc, self.rows.as_slice())?;
        Ok(Columns {
            count: self.count,
            rows,
        })
    }
}
