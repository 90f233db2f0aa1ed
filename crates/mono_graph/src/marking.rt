//! Marks by number, for lists that are read as sets.
//!
//! A user keeps the marks from one list to the next. The list that set them takes them off, so that a short list costs
//! nothing in proportion to the marks.

ghost use Rattle.std.specs.Prelude.{◌≡◌, ◌<◌, ℕ, All, IsTrue, false, slice_index_or, vec_len};
ghost use Rattle.mono_graph.specs.Digraph.{has};

/// Marks the members, where nothing was marked.
pub fn mark(marks: &mut Vec<bool>, members: &[u32])
    requires within { All (λ u. u < vec_len marks.old) members.now }
    requires clear { (u : ℕ) → slice_index_or marks.old.items u false ≡ false }
    ensures len { vec_len marks.new ≡ vec_len marks.old }
    ensures marked { (u : ℕ) → slice_index_or marks.new.items u false ≡ has members.now u }
{
    for member in members {
        marks[*member as usize] = true;
    }
}

/// Takes the marks off the members. Where no other number was marked, none is marked then.
pub fn unmark(marks: &mut Vec<bool>, members: &[u32])
    requires within { All (λ u. u < vec_len marks.old) members.now }
    ensures len { vec_len marks.new ≡ vec_len marks.old }
    ensures clear { ((u : ℕ) → IsTrue (slice_index_or marks.old.items u false) → IsTrue (has members.now u)) → (u : ℕ)
        → slice_index_or marks.new.items u false ≡ false }
{
    for member in members {
        marks[*member as usize] = false;
    }
}
