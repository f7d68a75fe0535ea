//! The tokens that are left, and what is taken from their front.
ghost use Rattle.std.specs.Prelude.{◌≡◌, ◌==◌, ◌-◌, ◌||◌, false, [], ◌∷◌, List, length, IfOk, IfSome, MatchOption, ◌≤◌, ◌<◌};
ghost use Rattle.mr_lex.specs.Limits.{max_text};
ghost use Rattle.mr_ast.specs.Forms.{Word, opening, closing};
ghost use Rattle.mr_ast.specs.Writing.{block_use, is_word, judged_int, judged_name, judged_target, local_use, other_than};
ghost use Rattle.mr_parse.specs.ReaderGives.{Gives};
ghost use Rattle.mr_grammar.specs.Reading.{expected, first_at, is_next, limited, opened, read};
ghost use Rattle.mr_words.specs.Places.{words_of};
ghost use Rattle.mr_parse.specs.ReaderViews.{Pushes, beside_of, followed_by};

use mr_ast::{BlockName, Bracket, IntType, Items, LocalName, Role, Target};
use mr_lex::Tokens;
use mr_words::{ReadFault, Scope, Stop, TOO_DEEP, TOO_MANY, UNEXPECTED, int_of, is_name};
use std::marker::Model;

/// The tokens that are left.
#[derive(Drop)]
pub struct Reader<'a> {
    tokens: &'a Tokens<'a>,
    at: usize,
}

impl<'a> Model for Reader<'a> {
    ghost use Rattle.std.specs.Prelude.{List, length, ◌≤◌};
    ghost use Rattle.mr_lex.specs.Limits.{max_text};
    ghost use Rattle.mr_ast.specs.Forms.{Word};
    ghost use Rattle.mr_words.specs.Places.{words_from};

    ghost Value = { List Word };

    ghost view = { λ r. words_from r.at r.tokens.now };

    ghost invariant = { λ r. length r.tokens.now ≤ max_text };
}

/// A token that is next: its text, and its place among the tokens.
#[derive(Clone, Copy)]
pub struct Next<'a> {
    pub text: &'a [u8],
    pub place: usize,
}

impl<'a> Reader<'a> {
    /// All tokens.
    pub fn new(tokens: &'a Tokens<'a>) -> Reader<'a>
        requires { length tokens.now ≤ max_text }
        ensures { result ≡ words_of tokens.now }
    {
        Reader { tokens, at: 0 }
    }

    /// How many tokens are left.
    #[tactic(auto, using(mr_words::proofs::PlaceLaws::words_length))]
    pub fn left(&self) -> usize
        ensures left { result ≡ length self.now }
        ensures few { result ≤ max_text }
    {
        self.tokens.len().saturating_sub(self.at)
    }

    /// The same, for a loop that counts what it reads.
    #[tactic(auto, using(mr_words::proofs::PlaceLaws::words_length))]
    pub fn turns(&self) -> u32
        ensures { result ≡ length self.now }
    {
        self.left() as u32
    }

    /// The fault with this code at the next token, or behind the last.
    pub fn stop(&self, code: u8) -> ReadFault
        ensures { result ≡ ReadFault.At (record { code = code; left = length self.now }) }
    {
        ReadFault::At(Stop {
            code,
            left: self.left(),
        })
    }

    /// The next token.
    #[tactic(auto, using(mr_words::proofs::PlaceLaws::words_here, mr_words::proofs::PlaceLaws::words_end))]
    pub fn peek(&self) -> Option<Next<'a>>
        ensures small { IfSome result (λ next. next.place < max_text) }
        ensures next { MatchOption result (self.now ≡ [])
            (λ next. (rest : List Word) × (self.now ≡ record { text = next.text.now; place = next.place } ∷ rest)) }
    {
        match self.tokens.get(self.at) {
            Some(token) => Some(Next {
                text: token.text,
                place: self.at,
            }),
            None => None,
        }
    }

    /// Goes behind the next token.
    pub fn advance(&mut self)
        ensures { (w : Word) (rest : List Word) → self.old ≡ w ∷ rest → self.new ≡ rest }
    {
        if self.at < self.tokens.len() {
            self.at += 1;
        }
    }

    /// Whether this word is the next.
    pub fn is_next(&self, word: &[u8]) -> bool
        ensures { result ≡ is_next (is_word word.now) self.now }
    {
        match self.peek() {
            Some(next) => next.text == word,
            None => false,
        }
    }

    /// Takes this word, which must be the next.
    pub fn expect(&mut self, word: &[u8]) -> Result<(), ReadFault>
        ensures { Gives (λ _. self.new) result (expected word.now self.old) }
    {
        match self.peek() {
            Some(next) if next.text == word => {
                self.advance();
                Ok(())
            }
            _ => Err(self.stop(UNEXPECTED)),
        }
    }

    /// What was read, where this word stands behind it.
    pub fn followed<T: Drop>(&mut self, thing: T, word: &[u8]) -> Result<T, ReadFault>
        ensures { Gives (λ x. (x, self.new)) result (followed_by word.now thing self.old) }
    {
        self.expect(word)?;
        Ok(thing)
    }

    /// What was read, where this bracket is closed behind it.
    pub fn closed<T: Drop>(&mut self, thing: T, bracket: Bracket) -> Result<T, ReadFault>
        ensures { Gives (λ x. (x, self.new)) result (followed_by (closing bracket) thing self.old) }
    {
        self.followed(thing, closing(bracket))
    }

    /// Whether a word but this is the next.
    pub fn is_other(&self, word: &[u8]) -> bool
        ensures { result ≡ is_next (other_than word.now) self.now }
    {
        match self.peek() {
            Some(next) => next.text != word,
            None => false,
        }
    }

    /// Takes an opening bracket, where so many may be opened. Behind it so many may be.
    pub fn open(&mut self, bracket: Bracket, room: u32) -> Result<u32, ReadFault>
        ensures opened { Gives (λ _. self.new) result (opened (room == 0) bracket self.old) }
        ensures inner { IfOk result (λ inner. ((room == 0) ≡ false) × (inner ≡ room - 1)) }
    {
        match self.peek() {
            Some(next) if next.text == opening(bracket) => {
                if room == 0 {
                    return Err(self.stop(TOO_DEEP));
                }
                self.advance();
                Ok(room - 1)
            }
            _ => Err(self.stop(UNEXPECTED)),
        }
    }

    /// The same of a bracket that may be one postfix too many.
    pub(crate) fn open_limited(
        &mut self,
        bracket: Bracket,
        room: u32,
        over: bool,
    ) -> Result<u32, ReadFault>
        ensures opened { Gives (λ _. self.new) result (opened (over || (room == 0)) bracket self.old) }
        ensures inner { IfOk result (λ inner. ((room == 0) ≡ false) × (inner ≡ room - 1)) }
    {
        if over && self.is_next(opening(bracket)) {
            return Err(self.stop(TOO_DEEP));
        }
        self.open(bracket, room)
    }

    /// Takes a closing bracket.
    pub fn close(&mut self, bracket: Bracket) -> Result<(), ReadFault>
        ensures { Gives (λ _. self.new) result (expected (closing bracket) self.old) }
    {
        self.expect(closing(bracket))
    }

    /// Takes this word, which must be the next, and may be one too many.
    pub(crate) fn expect_limited(
        &mut self,
        word: &[u8],
        over: bool,
        code: u8,
    ) -> Result<(), ReadFault>
        ensures { Gives (λ _. self.new) result (limited code over word.now self.old) }
    {
        match self.peek() {
            Some(next) if next.text == word => {
                if over {
                    return Err(self.stop(code));
                }
                self.advance();
                Ok(())
            }
            _ => Err(self.stop(UNEXPECTED)),
        }
    }

    /// Takes a name, which may be one too many, and gives the number of what it stands for.
    #[tactic(auto, unfolding(mr_ast::specs::Writing::judged_name))]
    pub fn name(&mut self, scope: &Scope, over: bool, role: Role) -> Result<u32, ReadFault>
        ensures { Gives (λ n. (n, self.new)) result (first_at (judged_name over role scope.now) self.old) }
    {
        match self.peek() {
            Some(next) if is_name(next.text) => {
                if over {
                    return Err(self.stop(TOO_MANY));
                }
                match scope.number(role, next.text, next.place) {
                    Ok(number) => {
                        self.advance();
                        Ok(number)
                    }
                    Err(code) => Err(self.stop(code)),
                }
            }
            _ => Err(self.stop(UNEXPECTED)),
        }
    }

    /// Takes the name of a global or a function.
    #[tactic(auto, unfolding(mr_ast::specs::Writing::judged_target))]
    pub fn target(&mut self, scope: &Scope) -> Result<Target, ReadFault>
        ensures { Gives (λ t. (t, self.new)) result (first_at (judged_target scope.now) self.old) }
    {
        match self.peek() {
            Some(next) if is_name(next.text) => match scope.target(next.text, next.place) {
                Ok(target) => {
                    self.advance();
                    Ok(target)
                }
                Err(code) => Err(self.stop(code)),
            },
            _ => Err(self.stop(UNEXPECTED)),
        }
    }

    /// Takes the name of a local that is used.
    pub fn local(&mut self, scope: &Scope) -> Result<LocalName, ReadFault>
        ensures { Gives (λ x. (x, self.new)) result (read 0 scope.now local_use self.old) }
    {
        Ok(LocalName(self.name(scope, false, Role::UsesLocal)?))
    }

    /// Takes the name of a block that is used.
    pub fn block_name(&mut self, scope: &Scope) -> Result<BlockName, ReadFault>
        ensures { Gives (λ x. (x, self.new)) result (read 0 scope.now block_use self.old) }
    {
        Ok(BlockName(self.name(scope, false, Role::UsesBlock)?))
    }

    /// Takes an integer type.
    #[tactic(auto, unfolding(mr_ast::specs::Writing::judged_int))]
    pub(crate) fn int(&mut self) -> Result<IntType, ReadFault>
        ensures { Gives (λ i. (i, self.new)) result (first_at judged_int self.old) }
    {
        let found = match self.peek() {
            Some(next) => int_of(next.text),
            None => None,
        };
        match found {
            Some(int) => {
                self.advance();
                Ok(int)
            }
            None => Err(self.stop(UNEXPECTED)),
        }
    }
}

/// A thing beside what was read behind it.
pub fn beside<T: Drop, U: Drop>(thing: T, read: Result<U, ReadFault>) -> Result<(T, U), ReadFault>
    ensures { result ≡ beside_of thing read }
{
    match read {
        Ok(x) => Ok((thing, x)),
        Err(fault) => Err(fault),
    }
}

/// A list with one more thing at its end, where that was read.
pub fn pushed<T: Drop>(items: Items<T>, read: Result<T, ReadFault>) -> Result<Items<T>, ReadFault>
    ensures { Pushes items read result }
{
    let mut items = items;
    match read {
        Ok(item) => {
            items.push(item)?;
            Ok(items)
        }
        Err(fault) => Err(fault),
    }
}

fn opening(bracket: Bracket) -> &'static [u8]
    ensures { result.now ≡ opening bracket }
{
    match bracket {
        Bracket::Round => b"(",
        Bracket::Curly => b"{",
        Bracket::Square => b"[",
    }
}

fn closing(bracket: Bracket) -> &'static [u8]
    ensures { result.now ≡ closing bracket }
{
    match bracket {
        Bracket::Round => b")",
        Bracket::Curly => b"}",
        Bracket::Square => b"]",
    }
}
