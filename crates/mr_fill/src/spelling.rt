//! A law of orders, and no code.
ghost use Rattle.std.specs.Prelude.{◌≡◌, ℕ, List, Some};
ghost use Rattle.mr_fill.specs.Orders.{turns_of};
ghost use Rattle.mr_fill.specs.Spelled.{Spells};
ghost use Rattle.mr_fill.specs.declared.order.Turns.{Turns};

/// A law: a word is read as what it spells, and what is read of a word it spells.
pub fn words_spell()
    ensures read { (line : ℕ) (word : List ℕ) (ts : Turns) → Spells line word ts → turns_of line word ≡ Some ts }
    ensures spelled { (line : ℕ) (word : List ℕ) (ts : Turns) → turns_of line word ≡ Some ts → Spells line word ts }
{}
