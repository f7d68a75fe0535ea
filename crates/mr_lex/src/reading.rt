//! The law that a text has one reading.
ghost use Rattle.std.specs.Prelude.{◌≡◌, ◌↔◌, ℕ, List, Ok, Err};
ghost use Rattle.mr_lex.specs.Tokens.{Lexeme, Lexes, FirstFault};
ghost use Rattle.mr_lex.specs.Reading.{lexed};
ghost use Rattle.mr_lex.specs.declared.token.TextFault.{TextFault};

/// A law, and no code: what reading computes is the tokens of a text or its first fault, so a text has one list of
/// tokens or one first fault, and never both.
pub fn one_reading()
    ensures tokens { (text : List ℕ) (lexemes : List Lexeme) →
        (lexed text ≡ Ok lexemes) ↔ Lexes text lexemes }
    ensures fault { (text : List ℕ) (fault : TextFault) →
        (lexed text ≡ Err fault) ↔ FirstFault text fault }
{}
