//! The laws of places.
ghost use Rattle.std.specs.Prelude.{◌≡◌, ℕ, List, length, map, take, slice_get, Some, is_some, true};
ghost use Rattle.std.specs.Option.{option_map};
ghost use Rattle.mr_ast.specs.declared.program.Program.{Program};
ghost use Rattle.mr_ast.specs.declared.program.Function.{Function};
ghost use Rattle.mr_ast.specs.declared.program.Block.{Block};
ghost use Rattle.mr_ast.specs.declared.program.Stmt.{Stmt};
ghost use Rattle.mr_ast.specs.ProgramGrammar.{inside_function, stmt_form, term_form};
ghost use Rattle.mr_lex.specs.Tokens.{Lexeme};
ghost use Rattle.mr_grammar.specs.WordsPlaces.{words_of};
ghost use Rattle.mr_grammar.specs.WordsDefined.{knowing};
ghost use Rattle.mr_grammar.specs.Denotes.{Denotes, definitions_in};
ghost use Rattle.mr_places.specs.Laid.{firsts_of, spot_at, spot_of};
ghost use Rattle.mr_places.specs.Places.{from_place, BeginWith};

/// A law: of a text that denotes a program, the tokens from a place on begin with those that write the place's statement,
/// or the block's terminator, up to the next semicolon.
pub fn places_begin()
    ensures stmt { (text : List ℕ) (p : Program) (d : Denotes text p) (f b k : ℕ)
        → (function : Function) (block : Block) (s : Stmt)
        → slice_get p.functions f ≡ Some function → slice_get function.blocks b ≡ Some block
        → slice_get block.stmts k ≡ Some s
        → BeginWith (inside_function f (knowing (definitions_in (words_of d.lexemes) d.shape))) (stmt_form k) s
        (map (λ l. l.text)
        (from_place (λ l. l.text) (take f p.functions) (take b function.blocks) k d.lexemes)) }
    ensures term { (text : List ℕ) (p : Program) (d : Denotes text p) (f b : ℕ)
        → (function : Function) (block : Block)
        → slice_get p.functions f ≡ Some function → slice_get function.blocks b ≡ Some block
        → BeginWith (inside_function f (knowing (definitions_in (words_of d.lexemes) d.shape))) term_form block.term
        (map (λ l. l.text)
        (from_place (λ l. l.text) (take f p.functions) (take b function.blocks) (length block.stmts) d.lexemes)) }
{}

/// A law: what [`crate::Places::of`] gives is where the first of the tokens from the place on begins.
pub fn places_found()
    ensures { (lexemes : List Lexeme) (functions : List Function) (f b k : ℕ) (function : Function) (block : Block)
        → slice_get functions f ≡ Some function → slice_get function.blocks b ≡ Some block
        → spot_at (record { lexemes = lexemes; firsts = firsts_of 0 functions }) f b k
        ≡ option_map spot_of
        (slice_get (from_place (λ l. l.text) (take f functions) (take b function.blocks) k lexemes) 0) }
{}

/// A law: each statement and each terminator of a program that a text denotes has a place.
pub fn places_are_there()
    ensures stmt { (text : List ℕ) (p : Program) (d : Denotes text p) (f b k : ℕ)
        → (function : Function) (block : Block) (s : Stmt)
        → slice_get p.functions f ≡ Some function → slice_get function.blocks b ≡ Some block
        → slice_get block.stmts k ≡ Some s
        → is_some (spot_at (record { lexemes = d.lexemes; firsts = firsts_of 0 p.functions }) f b k) ≡ true }
    ensures term { (text : List ℕ) (p : Program) (d : Denotes text p) (f b : ℕ)
        → (function : Function) (block : Block)
        → slice_get p.functions f ≡ Some function → slice_get function.blocks b ≡ Some block
        → is_some (spot_at (record { lexemes = d.lexemes; firsts = firsts_of 0 p.functions }) f b (length block.stmts))
        ≡ true }
{}
