//! Rows that were worked by hand, as the definitions compute them.

ghost use Rattle.std.specs.Prelude.{◌≡◌, pos, negsuc, true, false, [], ◌∷◌, Some, None, codes};
ghost use Rattle.mono_io.specs.declared.refusal.ReadRefusal.TheVariants as reading;
ghost use Rattle.mono_gnf.specs.declared.fault.GnfFault.TheVariants as fault;
ghost use Rattle.mono_gnf.specs.declared.refusal.GnfRefusal.TheVariants as form;
ghost use Rattle.mono_answer.specs.declared.answer.Answer.TheVariants as answer;
ghost use Rattle.mono_gen.specs.declared.kind.GenKind.TheVariants as kind;
ghost use Rattle.mono_check.specs.declared.reason.Reason.TheVariants as reason;
ghost use Rattle.mono_check.specs.declared.refusal.CheckRefusal.TheVariants as judging;
ghost use Rattle.mono_check.specs.declared.verdict.Verdict.TheVariants as verdict;
ghost use Rattle.mono_problem.specs.Instance.{Instance};
ghost use Rattle.mono_core.specs.Worked.{one_clause};
ghost use Rattle.mono_best.specs.Worked.{weighed};
ghost use Rattle.mono_words.specs.declared.command.Command.TheVariants as command;
ghost use Rattle.mono_forms.specs.declared.status.Status.TheVariants as status;
ghost use Rattle.mono_forms.specs.declared.ending.Ending.TheVariants as ending;
ghost use Rattle.mono_answer.specs.declared.version.Version.TheVariants as version;
ghost use Rattle.mono_words.specs.Commands.{command_of, files_of};
ghost use Rattle.mono_forms.specs.Statuses.{code_of};
ghost use Rattle.mono_forms.specs.Endings.{status_of, text_of, progress_text, unread_ending, unjudged_ending, refused_ending};
ghost use Rattle.mono_forms.specs.Runs.{Writes, CheckWrote, IsHeld, IsHeldWithin, HasNoFault, EachReached, IsCarriedOut, AreAlike, Migrates, Prints, Solves, SolvesGenerated, begun_for, summary_of};
ghost use Rattle.mono_forms.specs.Teams.{PlaysTeam};
ghost use Rattle.mono_cmd.specs.Worked.{empty_problem};

/// Words, and the files that they name.
pub fn worked_commands()
    ensures solve { command_of (codes "solve" ∷ codes "f" ∷ []) ≡ Some (command.Solve (codes "f") 100000) }
    ensures conflicts { command_of (codes "solve" ∷ codes "f" ∷ codes "--conflicts" ∷ codes "0012" ∷ []) ≡ Some (command.Solve (codes "f") 12) }
    ensures most { command_of (codes "solve" ∷ codes "f" ∷ codes "--conflicts" ∷ codes "18446744073709551615" ∷ [])
        ≡ Some (command.Solve (codes "f") 18446744073709551615) }
    ensures beyond { command_of (codes "solve" ∷ codes "f" ∷ codes "--conflicts" ∷ codes "18446744073709551616" ∷ []) ≡ None }
    ensures no_budget { command_of (codes "solve" ∷ codes "f" ∷ codes "--conflicts" ∷ codes "0" ∷ []) ≡ None }
    ensures no_number { command_of (codes "solve" ∷ codes "f" ∷ codes "--conflicts" ∷ codes "x" ∷ []) ≡ None }
    ensures other_option { command_of (codes "solve" ∷ codes "f" ∷ codes "--budget" ∷ codes "1" ∷ []) ≡ None }
    ensures option_first { command_of (codes "solve" ∷ codes "--conflicts" ∷ codes "1" ∷ codes "f" ∷ []) ≡ None }
    ensures five { command_of (codes "solve" ∷ codes "f" ∷ codes "--conflicts" ∷ codes "1" ∷ codes "x" ∷ []) ≡ None }
    ensures check { command_of (codes "check" ∷ codes "f" ∷ codes "a" ∷ []) ≡ Some (command.Check (codes "f") (codes "a")) }
    ensures migrate { command_of (codes "migrate" ∷ codes "f" ∷ codes "a" ∷ codes "2" ∷ []) ≡ Some (command.Migrate (codes "f") (codes "a") version.Two) }
    ensures migrate_back { command_of (codes "migrate" ∷ codes "f" ∷ codes "a" ∷ codes "1" ∷ []) ≡ Some (command.Migrate (codes "f") (codes "a") version.One) }
    ensures version_three { command_of (codes "migrate" ∷ codes "f" ∷ codes "a" ∷ codes "3" ∷ []) ≡ None }
    ensures version_with_a_zero { command_of (codes "migrate" ∷ codes "f" ∷ codes "a" ∷ codes "02" ∷ []) ≡ None }
    ensures no_version { command_of (codes "migrate" ∷ codes "f" ∷ codes "a" ∷ []) ≡ None }
    ensures dashed_answer { command_of (codes "migrate" ∷ codes "f" ∷ codes "-a" ∷ codes "2" ∷ []) ≡ None }
    ensures print { command_of (codes "print" ∷ codes "f" ∷ []) ≡ Some (command.Print (codes "f")) }
    ensures no_words { command_of [] ≡ None }
    ensures one_word { command_of (codes "print" ∷ []) ≡ None }
    ensures other_word { command_of (codes "prints" ∷ codes "f" ∷ []) ≡ None }
    ensures too_few { command_of (codes "check" ∷ codes "f" ∷ []) ≡ None }
    ensures too_many { command_of (codes "print" ∷ codes "f" ∷ codes "a" ∷ []) ≡ None }
    ensures four { command_of (codes "check" ∷ codes "f" ∷ codes "a" ∷ codes "a" ∷ []) ≡ None }
    ensures dash { command_of (codes "print" ∷ codes "-f" ∷ []) ≡ None }
    ensures dash_inside { command_of (codes "print" ∷ codes "f-" ∷ []) ≡ Some (command.Print (codes "f-")) }
    ensures answer_with_dash { command_of (codes "check" ∷ codes "f" ∷ codes "-a" ∷ []) ≡ None }
    ensures file_with_dash { command_of (codes "check" ∷ codes "-f" ∷ codes "a" ∷ []) ≡ None }
    ensures empty_name { command_of (codes "print" ∷ [] ∷ []) ≡ None }

    ensures gen_plain { command_of (codes "gen" ∷ codes "grid" ∷ codes "10" ∷ codes "7" ∷ []) ≡ Some (command.Gen kind.Grid 10 7 false) }
    ensures gen_solve { command_of (codes "gen" ∷ codes "wall" ∷ codes "100" ∷ codes "0" ∷ codes "--solve" ∷ []) ≡ Some (command.Gen kind.Wall 100 0 true) }
    ensures gen_too_small { command_of (codes "gen" ∷ codes "grid" ∷ codes "1" ∷ codes "7" ∷ []) ≡ None }
    ensures gen_too_large { command_of (codes "gen" ∷ codes "grid" ∷ codes "101" ∷ codes "7" ∷ []) ≡ None }
    ensures gen_other_kind { command_of (codes "gen" ∷ codes "maze" ∷ codes "10" ∷ codes "7" ∷ []) ≡ None }
    ensures gen_no_seed { command_of (codes "gen" ∷ codes "grid" ∷ codes "10" ∷ []) ≡ None }
    ensures gen_other_option { command_of (codes "gen" ∷ codes "grid" ∷ codes "10" ∷ codes "7" ∷ codes "--conflicts" ∷ []) ≡ None }

    ensures core { command_of (codes "core" ∷ codes "f" ∷ codes "-7" ∷ codes "0012" ∷ []) ≡ Some (command.Core (codes "f") (negsuc 6 ∷ pos 12 ∷ [])) }
    ensures core_of_none { command_of (codes "core" ∷ codes "f" ∷ []) ≡ None }
    ensures core_of_zero { command_of (codes "core" ∷ codes "f" ∷ codes "0" ∷ []) ≡ None }
    ensures core_beyond { command_of (codes "core" ∷ codes "f" ∷ codes "1000001" ∷ []) ≡ None }
    ensures core_with_dash { command_of (codes "core" ∷ codes "-f" ∷ codes "1" ∷ []) ≡ None }
    ensures check_with { command_of (codes "check-with" ∷ codes "f" ∷ codes "a" ∷ codes "3" ∷ [])
        ≡ Some (command.CheckWith (codes "f") (codes "a") (pos 3 ∷ [])) }
    ensures check_with_none { command_of (codes "check-with" ∷ codes "f" ∷ codes "a" ∷ []) ≡ None }
    ensures literal_for_answer { command_of (codes "check-with" ∷ codes "f" ∷ codes "-1" ∷ codes "3" ∷ []) ≡ None }

    ensures best { command_of (codes "best" ∷ codes "f" ∷ codes "007" ∷ []) ≡ Some (command.Best (codes "f") 7) }
    ensures last_predicate { command_of (codes "best" ∷ codes "f" ∷ codes "100000" ∷ []) ≡ Some (command.Best (codes "f") 100000) }
    ensures predicate_0 { command_of (codes "best" ∷ codes "f" ∷ codes "0" ∷ []) ≡ None }
    ensures predicate_beyond { command_of (codes "best" ∷ codes "f" ∷ codes "100001" ∷ []) ≡ None }
    ensures best_of_no_number { command_of (codes "best" ∷ codes "f" ∷ codes "x" ∷ []) ≡ None }
    ensures ask { command_of (codes "ask" ∷ codes "f" ∷ codes "1" ∷ codes "-1" ∷ []) ≡ Some (command.Ask (codes "f") 1 (negsuc 0)) }
    ensures ask_for_most { command_of (codes "ask" ∷ codes "f" ∷ codes "1" ∷ codes "9007199254740993" ∷ [])
        ≡ Some (command.Ask (codes "f") 1 (pos 9007199254740993)) }
    ensures ask_beyond { command_of (codes "ask" ∷ codes "f" ∷ codes "1" ∷ codes "9007199254740994" ∷ []) ≡ None }
    ensures ask_below { command_of (codes "ask" ∷ codes "f" ∷ codes "1" ∷ codes "-9007199254740994" ∷ []) ≡ None }
    ensures ask_without_a_bound { command_of (codes "ask" ∷ codes "f" ∷ codes "1" ∷ []) ≡ None }

    ensures team { command_of (codes "team" ∷ codes "f" ∷ codes "8" ∷ codes "0100" ∷ []) ≡ Some (command.Team (codes "f") 8 100) }
    ensures no_workers { command_of (codes "team" ∷ codes "f" ∷ codes "0" ∷ codes "1" ∷ []) ≡ None }
    ensures nine_workers { command_of (codes "team" ∷ codes "f" ∷ codes "9" ∷ codes "1" ∷ []) ≡ None }
    ensures no_rounds { command_of (codes "team" ∷ codes "f" ∷ codes "1" ∷ codes "0" ∷ []) ≡ None }
    ensures rounds_beyond { command_of (codes "team" ∷ codes "f" ∷ codes "1" ∷ codes "101" ∷ []) ≡ None }
    ensures rounds_in_words { command_of (codes "team" ∷ codes "f" ∷ codes "1" ∷ codes "x" ∷ []) ≡ None }
    ensures team_without_rounds { command_of (codes "team" ∷ codes "f" ∷ codes "1" ∷ []) ≡ None }
    ensures team_with_dash { command_of (codes "team" ∷ codes "-f" ∷ codes "1" ∷ codes "1" ∷ []) ≡ None }

    ensures files_of_team { files_of (Some (command.Team (codes "f") 2 1)) ≡ codes "f" ∷ [] }
    ensures files_of_best { files_of (Some (command.Best (codes "f") 1)) ≡ codes "f" ∷ [] }
    ensures files_of_ask { files_of (Some (command.Ask (codes "f") 1 (pos 8))) ≡ codes "f" ∷ [] }
    ensures files_of_core { files_of (Some (command.Core (codes "f") (pos 1 ∷ []))) ≡ codes "f" ∷ [] }
    ensures files_of_check_with { files_of (Some (command.CheckWith (codes "f") (codes "a") (pos 1 ∷ []))) ≡ codes "f" ∷ codes "a" ∷ [] }
    ensures files_of_gen { files_of (Some (command.Gen kind.Grid 10 7 true)) ≡ [] }
    ensures files_of_none { files_of None ≡ [] }
    ensures files_of_solve { files_of (Some (command.Solve (codes "f") 1)) ≡ codes "f" ∷ [] }
    ensures files_of_print { files_of (Some (command.Print (codes "f"))) ≡ codes "f" ∷ [] }
    ensures files_of_migrate { files_of (Some (command.Migrate (codes "f") (codes "a") version.Two)) ≡ codes "f" ∷ codes "a" ∷ [] }
    ensures files_of_check { files_of (Some (command.Check (codes "f") (codes "a"))) ≡ codes "f" ∷ codes "a" ∷ [] }
    ensures none_begun { begun_for [] 3 ≡ 3 }
    ensures two_begun { begun_for (codes "f" ∷ codes "a" ∷ []) 3 ≡ 5 }
{}

/// Options and names of files where no other row has them, and the least and the greatest numbers.
pub fn worked_words()
    ensures conflicts_of_another { command_of (codes "print" ∷ codes "f" ∷ codes "--conflicts" ∷ codes "1" ∷ []) ≡ None }
    ensures conflicts_with_dash { command_of (codes "solve" ∷ codes "-f" ∷ codes "--conflicts" ∷ codes "1" ∷ []) ≡ None }
    ensures migrate_with_dash { command_of (codes "migrate" ∷ codes "-f" ∷ codes "a" ∷ codes "2" ∷ []) ≡ None }
    ensures best_with_dash { command_of (codes "best" ∷ codes "-f" ∷ codes "1" ∷ []) ≡ None }
    ensures ask_with_dash { command_of (codes "ask" ∷ codes "-f" ∷ codes "1" ∷ codes "1" ∷ []) ≡ None }
    ensures solve_of_another { command_of (codes "print" ∷ codes "grid" ∷ codes "10" ∷ codes "7" ∷ codes "--solve" ∷ []) ≡ None }
    ensures least_size { command_of (codes "gen" ∷ codes "grid" ∷ codes "2" ∷ codes "7" ∷ []) ≡ Some (command.Gen kind.Grid 2 7 false) }
    ensures greatest_seed { command_of (codes "gen" ∷ codes "grid" ∷ codes "10" ∷ codes "18446744073709551615" ∷ [])
        ≡ Some (command.Gen kind.Grid 10 18446744073709551615 false) }
    ensures seed_beyond { command_of (codes "gen" ∷ codes "grid" ∷ codes "10" ∷ codes "18446744073709551616" ∷ []) ≡ None }
    ensures one_worker { command_of (codes "team" ∷ codes "f" ∷ codes "1" ∷ codes "1" ∷ []) ≡ Some (command.Team (codes "f") 1 1) }
{}

/// Each status has its number.
pub fn worked_statuses()
    ensures satisfiable { code_of status.Satisfiable ≡ 10 }
    ensures unsatisfiable { code_of status.Unsatisfiable ≡ 20 }
    ensures unknown { code_of status.Unknown ≡ 0 }
    ensures accepted { code_of status.Accepted ≡ 0 }
    ensures printed { code_of status.Printed ≡ 0 }
    ensures rejected { code_of status.Rejected ≡ 1 }
    ensures words { code_of status.Words ≡ 2 }
    ensures refused { code_of status.Refused ≡ 3 }
    ensures read_fault { code_of status.ReadFault ≡ 4 }
    ensures write_fault { code_of status.WriteFault ≡ 5 }
    ensures memory { code_of status.Memory ≡ 6 }
    ensures too_long { code_of status.TooLong ≡ 7 }
{}

/// What a run comes to has its status.
pub fn worked_endings()
    ensures words { status_of ending.Words ≡ status.Words }
    ensures read_fault { status_of ending.ReadFault ≡ status.ReadFault }
    ensures memory { status_of ending.Memory ≡ status.Memory }
    ensures too_long { status_of ending.TooLong ≡ status.TooLong }
    ensures refused { status_of (ending.Refused 3 fault.UnknownWord) ≡ status.Refused }
    ensures found_model { status_of (ending.Solved (answer.Model [])) ≡ status.Satisfiable }
    ensures found_refutation { status_of (ending.Solved (answer.Refutation [])) ≡ status.Unsatisfiable }
    ensures found_progress { status_of (ending.Solved (answer.Progress [])) ≡ status.Unknown }
    ensures model { status_of (ending.Judged verdict.Model) ≡ status.Accepted }
    ensures refutation { status_of (ending.Judged verdict.Refutation) ≡ status.Accepted }
    ensures progress { status_of (ending.Judged (verdict.Progress 0)) ≡ status.Accepted }
    ensures rejected { status_of (ending.Judged (verdict.Rejected 2 reason.BadLine)) ≡ status.Rejected }
    ensures printed { status_of (ending.Printed (codes "p gnf 0 0\n")) ≡ status.Printed }

    ensures not_read { unread_ending reading.Fault ≡ ending.ReadFault }
    ensures not_found { unread_ending reading.Memory ≡ ending.Memory }
    ensures beyond { unread_ending reading.TooLong ≡ ending.TooLong }
    ensures answer_not_read { unjudged_ending judging.Fault ≡ ending.ReadFault }
    ensures answer_not_found { unjudged_ending judging.Memory ≡ ending.Memory }
    ensures answer_beyond { unjudged_ending judging.TooLong ≡ ending.TooLong }
    ensures out_of_memory { refused_ending form.Memory ≡ ending.Memory }
    ensures at_line { refused_ending (form.At 3 fault.UnknownWord) ≡ ending.Refused 3 fault.UnknownWord }
{}

/// What a run comes to has its text.
pub fn worked_texts()
    ensures words { text_of ending.Words ≡ codes
        "usage: solve FILE [--conflicts N] | check FILE ANSWER | print FILE | gen KIND SIZE SEED [--solve] | migrate FILE ANSWER VERSION | core FILE LIT.. | check-with FILE ANSWER LIT.. | best FILE ATOM | ask FILE ATOM B | team FILE K R\n" }
    ensures read_fault { text_of ending.ReadFault ≡ codes "read fault\n" }
    ensures memory { text_of ending.Memory ≡ [] }
    ensures too_long { text_of ending.TooLong ≡ codes "too long\n" }
    ensures refused { text_of (ending.Refused 30 fault.UnknownWord) ≡ codes "refused 30 UnknownWord\n" }
    ensures found_progress { text_of (ending.Solved (answer.Progress [])) ≡ codes "s UNKNOWN\n" }
    ensures model { text_of (ending.Judged verdict.Model) ≡ codes "accepted model\n" }
    ensures refutation { text_of (ending.Judged verdict.Refutation) ≡ codes "accepted refutation\n" }
    ensures progress { text_of (ending.Judged (verdict.Progress 12)) ≡ codes "accepted progress 12\n" }
    ensures rejected { text_of (ending.Judged (verdict.Rejected 2 reason.BadLine)) ≡ codes "rejected 2 BadLine\n" }
    ensures clause_false { text_of (ending.Judged (verdict.Rejected 2 (reason.ClauseFalse 5))) ≡ codes "rejected 2 ClauseFalse 5\n" }
    ensures atom_wrong { text_of (ending.Judged (verdict.Rejected 2 (reason.AtomWrong 5))) ≡ codes "rejected 2 AtomWrong 5\n" }
    ensures printed { text_of (ending.Printed (codes "p gnf 0 0\n")) ≡ codes "p gnf 0 0\n" }
    ensures summary { text_of (ending.Summed (record {
      vars = 9;
      clauses = 3;
      edges = 8;
      predicates = 1;
      answer = answer.Refutation [];
      progress = progress_text (answer.Refutation []);
      verdict = verdict.Refutation;
    }))
        ≡ codes "variables 9\nclauses 3\nedges 8\npredicates 1\nresult unsatisfiable\nverdict accepted refutation\n" }
    ensures summary_of_a_model { text_of (ending.Summed (record {
      vars = 1;
      clauses = 0;
      edges = 2;
      predicates = 0;
      answer = answer.Model (true ∷ []);
      progress = progress_text (answer.Model (true ∷ []));
      verdict = verdict.Model;
    }))
        ≡ codes "variables 1\nclauses 0\nedges 2\npredicates 0\nresult satisfiable\nverdict accepted model\n" }
    ensures summary_of_progress { text_of (ending.Summed (record {
      vars = 9;
      clauses = 3;
      edges = 8;
      predicates = 1;
      answer = answer.Progress [];
      progress = progress_text (answer.Progress []);
      verdict = verdict.Progress 0;
    }))
        ≡ codes "variables 9\nclauses 3\nedges 8\npredicates 1\nresult unknown\nverdict accepted progress 0\ns UNKNOWN\n" }
    ensures sizes_of_a_problem { summary_of (weighed ([] ∷ [] ∷ [] ∷ [])) (codes "unknown") (codes "accepted progress 0\n")
        ≡ codes "variables 5\nclauses 3\nedges 2\npredicates 1\nresult unknown\nverdict accepted progress 0\n" }
{}

/// The text is written whole, a prefix of it where a write failed, and nothing where memory was wanting.
pub fn worked_writes()
    ensures whole { Writes ending.TooLong status.TooLong (Some (codes "x")) (Some (codes "xtoo long\n")) }
    ensures other_status { ¬ Writes ending.TooLong status.Words (Some (codes "x")) (Some (codes "xtoo long\n")) }
    ensures other_text { ¬ Writes ending.TooLong status.TooLong (Some (codes "x")) (Some (codes "xread fault\n")) }
    ensures lost { ¬ Writes ending.TooLong status.TooLong (Some (codes "x")) (Some (codes "x")) }
    ensures prefix { Writes ending.TooLong status.WriteFault (Some (codes "x")) (Some (codes "xtoo")) }
    ensures no_memory { Writes (ending.Solved (answer.Model [])) status.Memory (Some (codes "x")) (Some (codes "x")) }
    ensures no_memory_on_the_way { Writes ending.Memory status.Memory (Some (codes "x")) (Some (codes "x")) }
    ensures written_without_memory { ¬ Writes (ending.Solved (answer.Model [])) status.Memory (Some (codes "x")) (Some (codes "xs")) }
    ensures words_hidden { ¬ Writes ending.Words status.Memory (Some (codes "x")) (Some (codes "x")) }
    ensures read_fault_hidden { ¬ Writes ending.ReadFault status.Memory (Some (codes "x")) (Some (codes "x")) }
    ensures too_long_hidden { ¬ Writes ending.TooLong status.Memory (Some (codes "x")) (Some (codes "x")) }
    ensures model_hidden { ¬ Writes (ending.Judged verdict.Model) status.Memory (Some (codes "x")) (Some (codes "x")) }
    ensures refutation_hidden { ¬ Writes (ending.Judged verdict.Refutation) status.Memory (Some (codes "x")) (Some (codes "x")) }
    ensures print_hidden { ¬ Writes (ending.Printed []) status.Memory (Some (codes "x")) (Some (codes "x")) }
    ensures refusal_hidden { ¬ Writes (ending.Refused 3 fault.UnknownWord) status.Memory (Some (codes "x")) (Some (codes "x")) }
    ensures progress_hidden { ¬ Writes (ending.Judged (verdict.Progress 3)) status.Memory (Some (codes "x")) (Some (codes "x")) }
    ensures rejection_hidden { ¬ Writes (ending.Judged (verdict.Rejected 2 reason.BadLine)) status.Memory (Some (codes "x")) (Some (codes "x")) }

    ensures wrote { CheckWrote (Some (command.Check (codes "f") (codes "a"))) (Some ((codes "f", codes "") ∷ [])) (Some (codes "x"))
        (Some (codes "xaccepted model\n")) empty_problem (codes "accepted model\n") }
{}

/// Two runs of one command.
pub fn worked_runs()
    ensures same { AreAlike ending.TooLong ending.TooLong }
    ensures differ { ¬ AreAlike ending.TooLong ending.Words }
    ensures models { AreAlike (ending.Solved (answer.Model (true ∷ []))) (ending.Solved (answer.Model (false ∷ []))) }
    ensures contradict { ¬ AreAlike (ending.Solved (answer.Model [])) (ending.Solved (answer.Refutation [])) }
    ensures not_solved { ¬ AreAlike (ending.Solved (answer.Progress [])) ending.TooLong }

    ensures carried_out { IsCarriedOut (command.Solve (codes "f") 1) status.Unknown }
    ensures generated { IsCarriedOut (command.Gen kind.Wall 2 7 true) status.Unsatisfiable }
    ensures not_refused { ¬ IsCarriedOut (command.Gen kind.Wall 2 7 true) status.Refused }
    ensures not_summed { ¬ IsCarriedOut (command.Gen kind.Wall 2 7 false) status.Unsatisfiable }
    ensures played { IsCarriedOut (command.Team (codes "f") 2 1) status.Unknown }
    ensures not_played { ¬ IsCarriedOut (command.Team (codes "f") 2 1) status.Printed }
    ensures not_printed { ¬ IsCarriedOut (command.Solve (codes "f") 1) status.Printed }
    ensures not_solving { ¬ IsCarriedOut (command.Check (codes "f") (codes "a")) status.Satisfiable }
{}

/// ANSWER is needed only where FILE has no fault.
pub fn worked_needs()
    ensures held { IsHeld (Some ((codes "f", codes "") ∷ [])) (codes "f") 0 }
    ensures missing { ¬ IsHeld (Some ((codes "f", codes "") ∷ [])) (codes "g") 0 }
    ensures untold { ¬ IsHeld None (codes "f") 0 }
    ensures at_limit { IsHeldWithin (Some ((codes "f", codes "0\n") ∷ [])) (codes "f") 2 }
    ensures beyond { ¬ IsHeldWithin (Some ((codes "f", codes "0\n") ∷ [])) (codes "f") 1 }
    ensures no_fault { HasNoFault (Some ((codes "f", codes "") ∷ [])) (codes "f") }
    ensures fault { ¬ HasNoFault (Some ((codes "f", codes "x") ∷ [])) (codes "f") }

    ensures print { EachReached (IsHeld (Some ((codes "f", codes "") ∷ []))) (Some ((codes "f", codes "") ∷ [])) (command.Print (codes "f")) }
    ensures no_file { ¬ EachReached (IsHeld (Some ((codes "a", codes "") ∷ []))) (Some ((codes "a", codes "") ∷ [])) (command.Check (codes "f") (codes "a")) }
    ensures no_answer { ¬ EachReached (IsHeld (Some ((codes "f", codes "") ∷ []))) (Some ((codes "f", codes "") ∷ [])) (command.Check (codes "f") (codes "a")) }
    ensures no_answer_needed { EachReached (IsHeld (Some ((codes "f", codes "x") ∷ []))) (Some ((codes "f", codes "x") ∷ []))
        (command.Check (codes "f") (codes "a")) }
    ensures both { EachReached (IsHeld (Some ((codes "f", codes "") ∷ (codes "a", codes "") ∷ []))) (Some ((codes "f", codes "")
        ∷ (codes "a", codes "") ∷ [])) (command.Check (codes "f") (codes "a")) }
{}

/// What a run shows is said of its command, and of the problem that its FILE stands for where that is told.
pub fn worked_told()
    ensures solve { Solves (Some (command.Solve (codes "f") 7)) (Some ((codes "f", codes "") ∷ [])) empty_problem 7 }
    ensures other_budget { ¬ Solves (Some (command.Solve (codes "f") 7)) (Some ((codes "f", codes "") ∷ [])) empty_problem 8 }
    ensures other_command { ¬ Solves (Some (command.Print (codes "f"))) (Some ((codes "f", codes "") ∷ [])) empty_problem 7 }
    ensures other_problem { ¬ Solves (Some (command.Solve (codes "f") 7)) (Some ((codes "f", codes "") ∷ [])) one_clause 7 }
    ensures untold { ¬ Solves (Some (command.Solve (codes "f") 7)) None empty_problem 7 }
    ensures missing { ¬ Solves (Some (command.Solve (codes "f") 7)) (Some []) empty_problem 7 }
    ensures print { Prints (Some (command.Print (codes "f"))) (Some ((codes "f", codes "") ∷ [])) empty_problem }
    ensures print_of_another { ¬ Prints (Some (command.Print (codes "g"))) (Some ((codes "f", codes "") ∷ [])) empty_problem }
    ensures print_of_none { ¬ Prints (Some (command.Ask (codes "f") 1 (pos 4))) (Some ((codes "f", codes "") ∷ [])) empty_problem }
    ensures migrate { Migrates (Some (command.Migrate (codes "f") (codes "a") version.Two)) (Some ((codes "f", codes "") ∷ (codes "a", codes "x") ∷ []))
        empty_problem (codes "x") version.Two }
    ensures other_version { ¬ Migrates (Some (command.Migrate (codes "f") (codes "a") version.Two)) (Some ((codes "f", codes "")
        ∷ (codes "a", codes "x") ∷ [])) empty_problem (codes "x") version.One }
    ensures other_answer { ¬ Migrates (Some (command.Migrate (codes "f") (codes "a") version.Two)) (Some ((codes "f", codes "")
        ∷ (codes "a", codes "x") ∷ [])) empty_problem (codes "") version.Two }
    ensures missing_answer { ¬ Migrates (Some (command.Migrate (codes "f") (codes "a") version.Two)) (Some ((codes "f", codes "") ∷ []))
        empty_problem (codes "") version.Two }
    ensures answer_to_another { ¬ Migrates (Some (command.Migrate (codes "f") (codes "a") version.Two)) (Some ((codes "f", codes "")
        ∷ (codes "a", codes "x") ∷ [])) one_clause (codes "x") version.Two }
    ensures missing_file { ¬ Migrates (Some (command.Migrate (codes "f") (codes "a") version.Two)) (Some ((codes "a", codes "x") ∷ []))
        empty_problem (codes "x") version.Two }
    ensures judged_alone { ¬ Migrates (Some (command.Check (codes "f") (codes "a"))) (Some ((codes "f", codes "") ∷ (codes "a", codes "x") ∷ []))
        empty_problem (codes "x") version.Two }
    ensures team { PlaysTeam (Some (command.Team (codes "f") 2 3)) (Some ((codes "f", codes "") ∷ [])) empty_problem 2 3 }
    ensures exchanged { ¬ PlaysTeam (Some (command.Team (codes "f") 2 3)) (Some ((codes "f", codes "") ∷ [])) empty_problem 3 2 }
    ensures not_solved { (p : Instance) → ¬ SolvesGenerated (Some (command.Gen kind.Wall 2 7 false)) p }
{}
