//! The laws of lines, carets and words.
ghost use Rattle.std.specs.Prelude.{◌≡◌, ◌-◌, ◌≤◌, ◌++◌, ℕ, List, bytes_eq, false, length, slice_get, true};
ghost use Rattle.std.specs.List.{list_all, list_any};
ghost use Rattle.std.specs.Option.{option_map};
ghost use Rattle.mr_ast.specs.Words.{binary_words, int_words, intrinsic_words, is_name, kind_words, stmt_words};
ghost use Rattle.mr_ast.specs.Words.{term_words, texts_of, tree_words, type_words, unary_words, value_words};
ghost use Rattle.mr_lex.specs.Places.{column_of, line_of};
ghost use Rattle.mr_refusals.specs.Going.{fixed_words, keywords};
ghost use Rattle.mr_refusals.specs.Lines.{cut_from, inline_byte, line_at, shown_byte, shown_part};

/// A law: the byte over the caret is the one in front of which so many bytes stand in the line.
pub fn caret_is_below()
    ensures { (line : List ℕ) (before : ℕ) →
        slice_get (shown_part line (cut_from before)) (before - cut_from before)
        ≡ option_map shown_byte (slice_get line before) }
{}

/// A law: the line of a place holds the byte there at its column, unless that is the line's end.
pub fn place_is_on_line()
    ensures { (text : List ℕ) (at : ℕ) → at ≤ length text →
        slice_get (line_at text (line_of text at)) (column_of text at - 1) ≡ inline_byte (slice_get text at) }
{}

/// A law: the words that are tried are those of the language; those that may be names stand apart.
pub fn words_are_told()
    ensures named { list_all is_name keywords ≡ true }
    ensures fixed { list_any is_name fixed_words ≡ false }
    ensures known { list_all (λ w. list_any (bytes_eq w) (keywords ++ fixed_words))
        (texts_of int_words ++ texts_of type_words ++ texts_of tree_words ++ texts_of unary_words
        ++ texts_of binary_words ++ texts_of value_words ++ texts_of stmt_words ++ texts_of term_words
        ++ texts_of kind_words ++ texts_of intrinsic_words) ≡ true }
{}
