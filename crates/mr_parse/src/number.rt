//! Numbers of a text: within their ranges, or with their sign.
ghost use Rattle.mr_ast.specs.Writing.{judged_any, judged_positive, judged_repeat, judged_u64, num_form};
ghost use Rattle.mr_parse.specs.ReaderGives.{Gives};
ghost use Rattle.mr_grammar.specs.Reading.{first_at, read};

use crate::reader::Reader;
use mr_ast::Num;
use mr_lex::BAD_NUMBER;
use mr_words::{ReadFault, Scope, UNEXPECTED, number_of};

impl<'a> Reader<'a> {
    /// A number below 2^64.
    #[tactic(auto, unfolding(mr_ast::specs::Writing::judged_u64))]
    pub fn number(&mut self) -> Result<u64, ReadFault>
        ensures { Gives (λ n. (n, self.new)) result (first_at judged_u64 self.old) }
    {
        let value = match self.peek() {
            Some(next) => number_of(next.text),
            None => None,
        };
        match value {
            Some(value) if value <= 0xffff_ffff_ffff_ffff => {
                self.advance();
                Ok(value as u64)
            }
            Some(_) => Err(self.stop(BAD_NUMBER)),
            None => Err(self.stop(UNEXPECTED)),
        }
    }

    /// How often an item stands in a row.
    #[tactic(auto, unfolding(mr_ast::specs::Writing::judged_repeat))]
    pub fn repeat(&mut self) -> Result<u32, ReadFault>
        ensures { Gives (λ n. (n, self.new)) result (first_at judged_repeat self.old) }
    {
        let value = match self.peek() {
            Some(next) => number_of(next.text),
            None => None,
        };
        match value {
            Some(value) if 1 <= value && value <= 0x10_0000 => {
                self.advance();
                Ok(value as u32)
            }
            Some(value) if value > 0xffff_ffff_ffff_ffff => Err(self.stop(BAD_NUMBER)),
            _ => Err(self.stop(UNEXPECTED)),
        }
    }

    // Any number.
    #[tactic(auto, unfolding(mr_ast::specs::Writing::judged_any))]
    fn any(&mut self) -> Result<u128, ReadFault>
        ensures { Gives (λ n. (n, self.new)) result (first_at judged_any self.old) }
    {
        let value = match self.peek() {
            Some(next) => number_of(next.text),
            None => None,
        };
        match value {
            Some(value) => {
                self.advance();
                Ok(value)
            }
            None => Err(self.stop(UNEXPECTED)),
        }
    }

    // Any number but 0.
    #[tactic(auto, unfolding(mr_ast::specs::Writing::judged_positive))]
    fn positive(&mut self) -> Result<u128, ReadFault>
        ensures { Gives (λ n. (n, self.new)) result (first_at judged_positive self.old) }
    {
        let value = match self.peek() {
            Some(next) => number_of(next.text),
            None => None,
        };
        match value {
            Some(value) if value != 0 => {
                self.advance();
                Ok(value)
            }
            _ => Err(self.stop(UNEXPECTED)),
        }
    }

    /// A number with its sign.
    pub fn num(&mut self, scope: &Scope, room: u32) -> Result<Num, ReadFault>
        ensures { Gives (λ n. (n, self.new)) result (read room scope.now num_form self.old) }
    {
        if self.is_next(b"-") {
            self.expect(b"-")?;
            let mag = self.positive()?;
            Ok(Num { neg: true, mag })
        } else {
            let mag = self.any()?;
            Ok(Num { neg: false, mag })
        }
    }
}
