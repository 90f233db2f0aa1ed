//! Laws of what a text stands for, and of the printed form.

ghost use Rattle.std.specs.Prelude.{◌≡◌, ◌⊎◌, ℕ, List, None, Some};
ghost use Rattle.mono_problem.specs.Instance.{Instance};
ghost use Rattle.mono_problem.specs.WellFormed.{IsInstance};
ghost use Rattle.mono_text.specs.Text.{token_lines};
ghost use Rattle.mono_gnf.specs.declared.fault.GnfFault.{GnfFault};
ghost use Rattle.mono_gnf.specs.Faults.{first_fault};
ghost use Rattle.mono_gnf.specs.Stands.{Stands, instance_of};
ghost use Rattle.mono_gnf.specs.Reading.{reading, outcome};
ghost use Rattle.mono_gnf.specs.Printed.{printed};

/// A text stands for at most one problem.
pub fn one_problem()
    ensures { (text : List ℕ) (p q : Instance) → Stands text p → Stands text q → p ≡ q }
{}

/// A text has a first fault or stands for a problem, and not both.
pub fn fault_or_problem()
    ensures either { (text : List ℕ) → ((line : ℕ) × (f : GnfFault) × (first_fault text ≡ Some (line, f))) ⊎ ((p : Instance) × Stands text p) }
    ensures not_both { (text : List ℕ) (p : Instance) (line : ℕ) (f : GnfFault) → Stands text p → first_fault text ≡ Some (line, f) → ⊥ }
{}

/// Reading a text line after line finds its first fault, or makes the problem of its lines.
pub fn line_after_line()
    ensures { (text : List ℕ) → reading text ≡ outcome (first_fault text) (instance_of (token_lines text)) }
{}

/// What a text stands for is well-formed: it is within the limits, and all that its parts name is there.
pub fn problem_is_well_formed()
    ensures { (text : List ℕ) (p : Instance) → Stands text p → IsInstance p }
{}

/// The printed form of a problem stands for that problem.
pub fn printed_form_stands()
    ensures { (p : Instance) → IsInstance p → Stands (printed p) p }
{}

/// What is read from the printed form of what was read is printed in that form again.
pub fn printing_again()
    ensures { (text : List ℕ) (p q : Instance) → Stands text p → Stands (printed p) q → printed q ≡ printed p }
{}
