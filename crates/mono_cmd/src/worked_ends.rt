//! Worked rows: which file a command comes to that reads FILE alone, and with which limit.

ghost use Rattle.std.specs.Prelude.{◌≡◌, pos, Some, codes};
ghost use Rattle.mono_base.specs.declared.limits.TheConstants.{MAX_INPUT_BYTES};
ghost use Rattle.mono_words.specs.declared.command.Command.TheVariants as command;
ghost use Rattle.mono_forms.specs.Runs.{EachReached};
ghost use Rattle.mono_cmd.specs.Worked.{two_files};

/// `solve`, `ask` and `team` come to FILE and no other, with the limit of an input.
pub fn worked_reached_alone()
    ensures solve { EachReached (λ file limit. (file ≡ codes "f") × (limit ≡ MAX_INPUT_BYTES)) (Some two_files) (command.Solve (codes "f") 1) }
    ensures ask { EachReached (λ file limit. (file ≡ codes "f") × (limit ≡ MAX_INPUT_BYTES)) (Some two_files) (command.Ask (codes "f") 1 (pos 7)) }
    ensures team { EachReached (λ file limit. (file ≡ codes "f") × (limit ≡ MAX_INPUT_BYTES)) (Some two_files) (command.Team (codes "f") 2 1) }
{}
