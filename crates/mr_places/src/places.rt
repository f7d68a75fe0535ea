//! The places of a program in its text.
ghost use Rattle.std.specs.Prelude.{◌≡◌, slice_get};

use crate::ends::ends_in;
use crate::firsts::firsts;
use mr_ast::Program;
use mr_lex::Tokens;
use std::alloc::{AllocError, Global};
use std::marker::Model;

/// Where a token begins in its text: the number of its first byte, from 0 on, and the line and the column of that, from
/// 1 on; the column is in bytes.
#[derive(Clone, Copy, Debug, PartialEq, Eq)]
pub struct Spot {
    pub at: usize,
    pub line: u32,
    pub col: u32,
}

/// The tokens of a text, its semicolons, and how many of them stand in front of each block.
#[derive(Drop)]
pub struct Places<'a> {
    tokens: Tokens<'a>,
    ends: Vec<usize>,
    firsts: Vec<Vec<usize>>,
}

impl<'a> Model for Places<'a> {
    ghost use Rattle.std.specs.Prelude.{◌≡◌, map};
    ghost use Rattle.mr_places.specs.Laid.{Laid, ends_from};

    ghost Value = { Laid };

    ghost view = { λ p. record { lexemes = p.tokens; firsts = map (λ row. row.items) p.firsts.items } };

    ghost invariant = { λ p. p.ends.items ≡ ends_from 0 p.tokens };
}

impl<'a> Places<'a> {
    ghost use Rattle.std.specs.Prelude.{◌≡◌, ◌+◌, [], IfOk, MatchOption, drop, slice_get};
    ghost use Rattle.std.specs.Option.{option_map};
    ghost use Rattle.mr_places.specs.Laid.{firsts_of, spot_at, spot_behind, spot_of};
    ghost use Rattle.mr_places.specs.Places.{behind, words_of_head};

    /// The places of a program, from the tokens of its text.
    pub fn new(
        alloc: Global,
        tokens: Tokens<'a>,
        program: &Program,
    ) -> Result<Places<'a>, AllocError>
        ensures { IfOk result
            (λ places. places ≡ record { lexemes = tokens.entry; firsts = firsts_of 0 program.now.functions }) }
    {
        let ends = ends_in(alloc, &tokens)?;
        let firsts = firsts(alloc, program.functions.as_slice())?;
        Ok(Places {
            tokens,
            ends,
            firsts,
        })
    }

    /// Where the first token of statement `k`, or of the terminator, of block `b` in function `f` begins.
    pub fn of(&self, f: u32, b: u32, k: usize) -> Option<Spot>
        ensures { result ≡ spot_at self.now f b k }
    {
        match self.firsts.get(f as usize) {
            None => None,
            Some(row) => match row.get(b as usize) {
                None => None,
                Some(first) => self.behind(*first, k),
            },
        }
    }

    // The same, where so many semicolons stand in front of the block's first statement.
    fn behind(&self, first: usize, k: usize) -> Option<Spot>
        ensures { result ≡ spot_behind self.now.lexemes first k }
    {
        let count = self.tokens.len();
        if first > count {
            return None;
        }
        if k > count - first {
            return None;
        }
        match self.start(first + k) {
            None => None,
            Some(start) => self.spot_from(start, k),
        }
    }

    // The same, where the tokens behind the last of these semicolons begin with this one.
    fn spot_from(&self, start: usize, k: usize) -> Option<Spot>
        ensures { result ≡ option_map spot_of (slice_get (drop (words_of_head k) (drop start self.now.lexemes)) 0) }
    {
        if k != 0 {
            return self.spot(start);
        }
        let count = self.tokens.len();
        if start >= count || count - start <= 3 {
            return None;
        }
        self.spot(start + 3)
    }

    // The number of the token behind the semicolon of this number, counted from 1.
    fn start(&self, number: usize) -> Option<usize>
        ensures { MatchOption result (behind (λ l. l.text) number self.now.lexemes ≡ [])
            (λ at. behind (λ l. l.text) number self.now.lexemes ≡ drop at self.now.lexemes) }
    {
        if number == 0 {
            return Some(0);
        }
        number_at(&self.ends, number - 1)
    }

    // Where the token of this number begins.
    fn spot(&self, at: usize) -> Option<Spot>
        ensures { result ≡ option_map spot_of (slice_get (drop at self.now.lexemes) 0) }
    {
        match self.tokens.get(at) {
            None => None,
            Some(token) => Some(Spot {
                at: token.at,
                line: token.line,
                col: token.col,
            }),
        }
    }
}

// The number at a place of the list.
fn number_at(list: &[usize], i: usize) -> Option<usize>
    ensures { result ≡ slice_get list.now i }
{
    list.get(i).copied()
}
