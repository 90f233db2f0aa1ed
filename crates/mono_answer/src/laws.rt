//! What is printed is read back.

ghost use Rattle.std.specs.Prelude.{◌≡◌, ℕ, IsTrue};
ghost use Rattle.mono_answer.specs.Items.{items_of};
ghost use Rattle.mono_answer.specs.Printed.{answer_text, answer_text_as, answer_items, in_lines, in_lines_as, is_within_format, is_within_format_as};
ghost use Rattle.mono_answer.specs.declared.answer.Answer.{Answer};
ghost use Rattle.mono_answer.specs.declared.version.Version.{Version};

/// The items of an answer's printed text are the answer's items, one a line, for every answer whose numbers are within
/// the format and whose chains name at least one clause.
pub fn printed_answer_is_read()
    ensures { (c : ℕ) (a : Answer) → IsTrue (is_within_format a) → items_of c (answer_text a) ≡ in_lines (answer_items a) }
{}

/// The items of an answer's printed text in either version are the answer's items, from line 2 on in version 2, for every
/// answer that is within the format in that version. In version 2 its chains have to name earlier clauses.
pub fn printed_version_is_read()
    ensures { (c : ℕ) (a : Answer) (v : Version) → IsTrue (is_within_format_as v c a)
        → items_of c (answer_text_as a v c) ≡ in_lines_as v (answer_items a) }
{}
