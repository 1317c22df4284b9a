//! Laws: every lasso unrolls, the rows of a table rise, and an assignment stands for one lasso.

ghost use Rattle.bound_uppers.specs.Shortest.{Unrolls};
ghost use Rattle.bound_uppers.specs.Table.{RowsInOrder};
ghost use Rattle.bound_uppers.specs.Candidates.{DecodesCandidates, DecodesAgreeing, DecodesOnce};

/// Every lasso of at most so many states shows the sequence of one of exactly so many.
pub fn lassos_unroll()
    ensures { Unrolls }
{}

/// The rows of a table stand state by state, in each state relation by relation in their order, and
/// tuple by tuple: their numbers rise in this order, from 1 to as many as there are.
pub fn rows_rise()
    ensures { RowsInOrder }
{}

/// An assignment stands for a lasso within the upper bounds whose static relations don't change. It
/// tells of this lasso where it chooses one loop, and of no other.
pub fn one_lasso_is_decoded()
    ensures candidate { DecodesCandidates }
    ensures agrees { DecodesAgreeing }
    ensures once { DecodesOnce }
{}
