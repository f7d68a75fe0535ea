//! The laws of parsing.
ghost use Rattle.std.specs.Prelude.{◌≡◌, ◌↔◌, ◌≤◌, ◌^◌, ℕ, List, length, Ok, Err};
ghost use Rattle.mr_ast.specs.declared.program.Program.{Program};
ghost use Rattle.mr_ast.specs.Canon.{canonical_text};
ghost use Rattle.mr_lex.specs.declared.token.TextFault.{TextFault};
ghost use Rattle.mr_grammar.specs.Denotes.{Denotes};
ghost use Rattle.mr_grammar.specs.Faults.{FirstFault};
ghost use Rattle.mr_grammar.specs.Parsing.{parsed};

/// A law, and no code: parsing computes the program that a text denotes, and a text denotes one program at most.
pub fn one_program()
    ensures program { (text : List ℕ) (p : Program) → (parsed text ≡ Ok p) ↔ Denotes text p }
    ensures one { (text : List ℕ) (p q : Program) → Denotes text p → Denotes text q → p ≡ q }
{}

/// A law, and no code: where parsing computes no program it computes the text's first fault, and a text has one first fault at most.
pub fn one_fault()
    ensures fault { (text : List ℕ) (fault : TextFault) → (parsed text ≡ Err fault) ↔ FirstFault text fault }
    ensures one { (text : List ℕ) (f g : TextFault) → FirstFault text f → FirstFault text g → f ≡ g }
{}

/// A law, and no code: where a text denotes a program whose canonical text has at most 2^20 bytes, that text denotes the same program.
pub fn reads_back()
    ensures { (text : List ℕ) (p : Program) → Denotes text p → length (canonical_text p) ≤ 2 ^ 20
        → Denotes (canonical_text p) p }
{}
