//! Which clauses are attached, and which watch literals, once marked ones are detached.
//!
//! A clause whose two nodes are at one place of the arena watches nothing: `IsPair` fails of it.

ghost use Rattle.std.specs.Prelude.{◌≡◌, ◌≢◌, ◌<◌, ◌*◌, ◌+◌, ◌⊎◌, length, slice_index, slice_index_or, slice_set, true, false};
ghost use Rattle.sat_trail.specs.Detached.{IsUnwatched, AreCleared};

/// Whether a clause is marked.
fn is_marked(marks: &[bool], clause: usize) -> bool
    ensures { result ≡ slice_index_or marks.now clause false }
{
    clause < marks.len() && marks[clause]
}

/// Whether a clause stays attached: it was so, and it isn't marked, or its two nodes are at one place.
fn stays_attached(was_attached: bool, at: &[u32], marks: &[bool], clause: usize) -> bool
    requires { 2 * clause + 1 < length at.now }
    ensures kept { was_attached ≡ true → (result ≡ true)
        ⊎ ((slice_index_or marks.now clause false ≡ true)
        × (slice_index at.now (2 * clause) ≢ slice_index at.now (2 * clause + 1))) }
    ensures only { result ≡ true → (was_attached ≡ true)
        × ((slice_index_or marks.now clause false ≡ false)
        ⊎ (slice_index at.now (2 * clause) ≡ slice_index at.now (2 * clause + 1))) }
{
    let node = 2 * clause;
    was_attached && (!is_marked(marks, clause) || at[node] == at[node + 1])
}

/// Clears the marks of the attached clauses at those that are to be detached and whose two nodes are at two places.
pub fn clear(attached: &mut Vec<bool>, at: &[u32], marks: &[bool])
    requires { length at.now ≡ 2 * length attached.old.items }
    ensures { AreCleared marks.now at.now attached.old.items attached.new.items }
{
    for clause in 0..attached.len() {
        let stays = stays_attached(attached[clause], at, marks, clause);
        attached[clause] = stays;
    }
}

/// Sets the second node of a marked clause to the place of its first one.
fn unwatch_one(at: &mut Vec<u32>, marks: &[bool], clause: usize)
    requires { 2 * clause + 1 < length at.old.items }
    ensures marked { slice_index_or marks.now clause false ≡ true → at.new.items
        ≡ slice_set at.old.items (2 * clause + 1) (slice_index at.old.items (2 * clause)) }
    ensures unmarked { slice_index_or marks.now clause false ≡ false → at.new.items
        ≡ at.old.items }
{
    if is_marked(marks, clause) {
        let node = 2 * clause;
        at[node + 1] = at[node];
    }
}

/// Sets the second node of each marked clause to the place of its first one.
pub fn unwatch(at: &mut Vec<u32>, count: usize, marks: &[bool])
    requires { length at.old.items ≡ 2 * count }
    ensures { IsUnwatched marks.now at.old.items at.new.items }
{
    for clause in 0..count {
        unwatch_one(at, marks, clause);
    }
}
