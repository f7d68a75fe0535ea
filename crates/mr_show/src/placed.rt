//! The places of a program in its text.
ghost use Rattle.std.specs.Prelude.{◌≡◌, Ok, IfOk};
ghost use Rattle.mr_places.specs.GrammarParsing.{parsed};
ghost use Rattle.mr_lex.specs.Reading.{lexed};
ghost use Rattle.mr_show.specs.Gathered.{laid_in};

use mr_lex::{LexFault, tokens};
use mr_places::Places;
use mr_wf::Checked;
use std::alloc::{AllocError, Global};

/// The places of a program in the text that denotes it. An `Err` is for want of memory.
pub(crate) fn places_of<'a>(
    alloc: Global,
    text: &'a [u8],
    p: &Checked,
) -> Result<Places<'a>, AllocError>
    requires { parsed text.now ≡ Ok p.now }
    ensures { IfOk result (λ places. places ≡ laid_in p.now (lexed text.now)) }
{
    match tokens(alloc, text) {
        Ok(tokens) => Places::new(alloc, tokens, p.program()),
        Err(LexFault::Bad(_)) => unreachable!(),
        Err(LexFault::Memory) => Err(AllocError),
    }
}
