//! What the definitions say, worked out, and what is written read back.

ghost use Rattle.std.specs.Prelude.{◌≡◌, [], ◌∷◌, codes, decimal, Some, None, Ok, Err, pos, negsuc, true, false};
ghost use Rattle.std.specs.Fmt.{signed_decimal};
ghost use Rattle.mono_text.specs.Text.{lines_of, numbered_from, tokens_of, token_lines, first_byte, is_comment, is_skipped, spaced};
ghost use Rattle.mono_text.specs.Numbers.{natural, signed, within, signed_within, IsFirstNatural, IsFirstSigned};
ghost use Rattle.mono_text.specs.Fields.{first_fields, fields_behind, fields_of};
ghost use Rattle.mono_text.specs.declared.number.NumberRefusal.TheVariants as refusal;
ghost use Rattle.mono_text.specs.declared.field.FieldRefusal.TheVariants as field;

/// Worked cases of lines.
pub fn worked_lines()
    ensures three { lines_of (codes "ab\n\nc") ≡ codes "ab" ∷ [] ∷ codes "c" ∷ [] }
    ensures none { lines_of [] ≡ [] }
    ensures ended { lines_of (codes "a\n") ≡ codes "a" ∷ [] }
    ensures empty { lines_of (codes "\n") ≡ [] ∷ [] }
    ensures empties { lines_of (codes "\n\n") ≡ [] ∷ [] ∷ [] }
    ensures not_ended { lines_of (codes "a\n ") ≡ codes "a" ∷ codes " " ∷ [] }
    ensures return_stays { lines_of (codes "a\r\n") ≡ codes "a\r" ∷ [] }
    ensures other_bytes { lines_of (9 ∷ 11 ∷ 12 ∷ 13 ∷ 0 ∷ 138 ∷ []) ≡ (9 ∷ 11 ∷ 12 ∷ 13 ∷ 0 ∷ 138 ∷ []) ∷ [] }
    ensures numbers { numbered_from 1 (lines_of (codes "a\n\nb")) ≡ (1, codes "a") ∷ (2, []) ∷ (3, codes "b") ∷ [] }
{}

/// Worked cases of tokens.
pub fn worked_tokens()
    ensures blanks { tokens_of (codes "  edge 0\t1 \r")
        ≡ codes "edge" ∷ codes "0" ∷ codes "1" ∷ [] }
    ensures none { tokens_of (codes " \t\r") ≡ [] }
    ensures return_parts { tokens_of (codes "a\rb") ≡ codes "a" ∷ codes "b" ∷ [] }
    ensures other_bytes { tokens_of (97 ∷ 8 ∷ 10 ∷ 11 ∷ 12 ∷ 14 ∷ 0 ∷ 31 ∷ 33 ∷ 160 ∷ 255 ∷ [])
        ≡ (97 ∷ 8 ∷ 10 ∷ 11 ∷ 12 ∷ 14 ∷ 0 ∷ 31 ∷ 33 ∷ 160 ∷ 255 ∷ []) ∷ [] }
    ensures lines { token_lines (codes "1 0\n\nc x\n")
        ≡ (codes "1" ∷ codes "0" ∷ []) ∷ [] ∷ (codes "c" ∷ codes "x" ∷ []) ∷ [] }
    ensures first_byte { first_byte (codes "-1" ∷ codes "0" ∷ []) ≡ Some 45 }
    ensures no_byte { first_byte [] ≡ None }
{}

/// Worked cases of lines that say nothing.
pub fn worked_comments()
    ensures comment { is_comment (codes "c") ≡ true }
    ensures word { is_comment (codes "cnf") ≡ false }
    ensures great { is_comment (codes "C") ≡ false }
    ensures other { is_comment (codes "d") ≡ false }
    ensures blank { is_skipped (tokens_of (codes "\t")) ≡ true }
    ensures comment_line { is_skipped (tokens_of (codes " c 1 0")) ≡ true }
    ensures word_line { is_skipped (tokens_of (codes "cnf")) ≡ false }
    ensures behind { is_skipped (tokens_of (codes "1 c")) ≡ false }
{}

/// Worked cases of numbers.
pub fn worked_numbers()
    ensures zeros { natural (codes "0017") ≡ Some 17 }
    ensures digits { natural (codes "9876543210") ≡ Some 9876543210 }
    ensures plus { natural (codes "+17") ≡ None }
    ensures minus { natural (codes "-1") ≡ None }
    ensures below { natural (codes "1/") ≡ None }
    ensures above { natural (codes ":1") ≡ None }
    ensures empty { natural [] ≡ None }
    ensures negative { signed (codes "-12") ≡ Some (negsuc 11) }
    ensures positive { signed (codes "12") ≡ Some (pos 12) }
    ensures zero { signed (codes "-0") ≡ Some (pos 0) }
    ensures no_digits { signed (codes "-") ≡ None }
    ensures minuses { signed (codes "--1") ≡ None }
    ensures signed_plus { signed (codes "+1") ≡ None }
    ensures signed_empty { signed [] ≡ None }
{}

/// Worked cases of limits.
pub fn worked_limits()
    ensures at { within 17 (Some 17) ≡ Ok 17 }
    ensures past { within 16 (Some 17) ≡ Err refusal.TooLarge }
    ensures no_number { within 16 None ≡ Err refusal.NotNumber }
    ensures negative_at { signed_within 12 (Some (negsuc 11)) ≡ Ok (negsuc 11) }
    ensures negative_past { signed_within 11 (Some (negsuc 11)) ≡ Err refusal.TooLarge }
    ensures positive_at { signed_within 12 (Some (pos 12)) ≡ Ok (pos 12) }
    ensures positive_past { signed_within 11 (Some (pos 12)) ≡ Err refusal.TooLarge }
    ensures no_signed { signed_within 11 None ≡ Err refusal.NotNumber }
{}

/// Worked cases of a first token that is read as a number.
pub fn worked_first_numbers()
    ensures natural { IsFirstNatural 5 (codes "5" ∷ codes "x" ∷ []) (Some (Ok 5)) (codes "x" ∷ []) }
    ensures natural_past { IsFirstNatural 4 (codes "5" ∷ []) (Some (Err refusal.TooLarge)) [] }
    ensures natural_none { IsFirstNatural 5 [] None [] }
    ensures signed { IsFirstSigned 5 (codes "-5" ∷ codes "x" ∷ []) (Some (Ok (negsuc 4))) (codes "x" ∷ []) }
    ensures signed_past { IsFirstSigned 4 (codes "-5" ∷ []) (Some (Err refusal.TooLarge)) [] }
    ensures signed_none { IsFirstSigned 5 [] None [] }
{}

/// Cases that aren't a first token read as a number, and the tokens behind it.
pub fn worked_other_numbers()
    ensures natural { IsFirstNatural 5 (codes "5" ∷ []) (Some (Ok 4)) [] → ⊥ }
    ensures natural_rest { IsFirstNatural 5 (codes "5" ∷ codes "x" ∷ []) (Some (Ok 5)) [] → ⊥ }
    ensures natural_skipped { IsFirstNatural 5 (codes "5" ∷ []) None [] → ⊥ }
    ensures natural_made { IsFirstNatural 5 [] None (codes "5" ∷ []) → ⊥ }
    ensures natural_past { IsFirstNatural 4 (codes "5" ∷ []) (Some (Ok 5)) [] → ⊥ }
    ensures signed { IsFirstSigned 5 (codes "-5" ∷ []) (Some (Ok (pos 5))) [] → ⊥ }
    ensures signed_rest { IsFirstSigned 5 (codes "-5" ∷ codes "x" ∷ []) (Some (Ok (negsuc 4))) [] → ⊥ }
    ensures signed_skipped { IsFirstSigned 5 (codes "-5" ∷ []) None [] → ⊥ }
    ensures signed_made { IsFirstSigned 5 [] None (codes "5" ∷ []) → ⊥ }
    ensures signed_past { IsFirstSigned 4 (codes "-5" ∷ []) (Some (Ok (negsuc 4))) [] → ⊥ }
{}

/// Worked cases of fields.
pub fn worked_fields()
    ensures all { fields_of (5 ∷ 9 ∷ []) (codes "5" ∷ codes "09" ∷ []) ≡ Ok (5 ∷ 9 ∷ []) }
    ensures none { fields_of [] [] ≡ Ok [] }
    ensures fewer { fields_of (5 ∷ 9 ∷ []) (codes "x" ∷ []) ≡ Err field.Count }
    ensures more { fields_of (5 ∷ 9 ∷ []) (codes "x" ∷ codes "1" ∷ codes "1" ∷ []) ≡ Err field.Count }
    ensures first_fault { fields_of (5 ∷ 9 ∷ []) (codes "6" ∷ codes "x" ∷ []) ≡ Err (field.TooLarge 0) }
    ensures first_number { fields_of (5 ∷ 9 ∷ []) (codes "x" ∷ codes "10" ∷ []) ≡ Err (field.NotNumber 0) }
    ensures second_fault { fields_of (5 ∷ 9 ∷ []) (codes "5" ∷ codes "10" ∷ []) ≡ Err (field.TooLarge 1) }
    ensures second_number { fields_of (5 ∷ 9 ∷ []) (codes "5" ∷ codes "-9" ∷ []) ≡ Err (field.NotNumber 1) }
    ensures first { first_fields (5 ∷ 9 ∷ []) (codes "5" ∷ codes "9" ∷ []) ≡ Ok (5 ∷ 9 ∷ []) }
    ensures first_more { first_fields (5 ∷ 9 ∷ []) (codes "5" ∷ codes "9" ∷ codes "x" ∷ []) ≡ Ok (5 ∷ 9 ∷ []) }
    ensures first_fewer { first_fields (5 ∷ 9 ∷ []) (codes "x" ∷ []) ≡ Err field.Count }
    ensures behind { fields_behind 1 (5 ∷ 9 ∷ []) (codes "x" ∷ codes "5" ∷ codes "9" ∷ []) ≡ Ok (5 ∷ 9 ∷ []) }
    ensures behind_all { fields_behind 2 [] (codes "x" ∷ codes "y" ∷ []) ≡ Ok [] }
    ensures none_behind { fields_behind 2 [] (codes "x" ∷ []) ≡ Err field.Count }
    ensures fewer_behind { fields_behind 1 (5 ∷ 9 ∷ []) (codes "5" ∷ codes "9" ∷ []) ≡ Err field.Count }
    ensures fault_behind { fields_behind 1 (5 ∷ 9 ∷ []) (codes "x" ∷ codes "5" ∷ codes "10" ∷ []) ≡ Err (field.TooLarge 1) }
    ensures first_refused { first_fields (5 ∷ 9 ∷ []) (codes "6" ∷ codes "x" ∷ codes "x" ∷ []) ≡ Err (field.TooLarge 0) }
{}

/// Worked cases of lines as they are written.
pub fn printed_numbers()
    ensures line { spaced (signed_decimal (negsuc 11) ∷ decimal 0 ∷ []) ≡ codes "-12 0\n" }
    ensures three { spaced (codes "a" ∷ codes "b" ∷ codes "c" ∷ []) ≡ codes "a b c\n" }
    ensures no_tokens { spaced [] ≡ codes "\n" }
{}

/// A natural's decimal text is read as that natural.
pub fn natural_of_decimal(n: u64)
    ensures { natural (decimal n) ≡ Some n }
{}

/// A signed number's decimal text is read as that number.
pub fn signed_of_decimal(z: i64)
    ensures { signed (signed_decimal z) ≡ Some z }
{}
