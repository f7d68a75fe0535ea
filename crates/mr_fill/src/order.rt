//! An order of threads, and its text.
ghost use Rattle.std.specs.Prelude.{◌≡◌, ◌+◌, ◌^◌, ◌<◌, ◌≤◌, [], ◌∷◌, ◌++◌, List, Ok, IfOk, IfSome, length, option_copied};
ghost use Rattle.std.specs.Prelude.{position, replicate, ◌==◌};
ghost use Rattle.std.specs.List.{slice_split};
ghost use Rattle.mr_sched.specs.Reading.{Gives, parts_after, parts_at};
ghost use Rattle.mr_fill.specs.Orders.{alone, count_of, given_of, giving, is_blank, max_turns, number_below, numbered_words};
ghost use Rattle.mr_fill.specs.Orders.{on_line, order_from, order_of, positive, repeated, thread_of, turns_of, turns_then};
ghost use Rattle.mr_fill.specs.Orders.{words_in, words_of};
ghost use Rattle.mr_fill.specs.Reading.{blank_parts, word_or_none};
ghost use Rattle.mr_fill.specs.declared.order.Turn.{Turn};

use mr_sched::{BAD_LINE, Items, MAX_BYTES, SchedFault, TOO_LONG};
use mr_words::number_of;
use std::alloc::Global;

/// The turns that an order may have.
pub const MAX_TURNS: usize = 1 << 20;

// One more than that.
const COUNTS: u128 = (1 << 20) + 1;

/// A turn: the thread that takes the next step, and, where that step gives a lock up for which threads wait, the one
/// that gets it; else that is the first that waits.
#[derive(Clone, Copy, Debug)]
pub struct Turn {
    pub thread: u32,
    pub receiver: Option<u32>,
    /// The line of the order's text on which it stands.
    pub line: u32,
}

// What a word spells: a turn, so many times.
#[derive(Clone, Copy, Debug)]
pub(crate) struct Turns {
    turn: Turn,
    count: usize,
}

/// The order that a text spells, or the first fault of the text.
#[tactic(auto, unfolding(crate::specs::Orders::order_of))]
pub fn read_order(alloc: Global, text: &[u8]) -> Result<Items<Turn>, SchedFault>
    ensures order { Gives result (order_of text.now) }
    ensures few { IfOk result (λ order. length order ≤ max_turns) }
{
    if text.len() > MAX_BYTES {
        return Err(too_long(1));
    }
    read_lines(text, Items::new(alloc))
}

// The turns so far, and those of some lines behind them.
fn read_lines(text: &[u8], turns: Items<Turn>) -> Result<Items<Turn>, SchedFault>
    requires small { length text.now ≤ 2 ^ 26 }
    requires room { length turns ≤ max_turns }
    ensures given { Gives result (order_from turns (numbered_words 1 (parts_at 10 text.now))) }
    ensures few { IfOk result (λ ts. length ts ≤ max_turns) }
{
    let mut turns = turns;
    let mut line: u32 = 1;
    let mut rest = Some(text);
    while let Some(left) = rest {
        let (first, after) = cut(left, b'\n');
        turns = read_line(first, line, turns)?;
        line += 1;
        rest = after;
    }
    Ok(turns)
}

// The turns so far, and those of a line behind them.
fn read_line(text: &[u8], line: u32, turns: Items<Turn>) -> Result<Items<Turn>, SchedFault>
    requires { length turns ≤ max_turns }
    ensures given { Gives result (order_from turns (on_line line (words_of text.now))) }
    ensures few { IfOk result (λ ts. length ts ≤ max_turns) }
{
    let (words, _comment) = cut(text, b'#');
    read_words(words, line, turns)
}

// The turns so far, and those of the words of a line behind them.
fn read_words(text: &[u8], line: u32, turns: Items<Turn>) -> Result<Items<Turn>, SchedFault>
    requires { length turns ≤ max_turns }
    ensures given { Gives result (order_from turns (on_line line (words_in text.now))) }
    ensures few { IfOk result (λ ts. length ts ≤ max_turns) }
{
    let mut turns = turns;
    let mut rest = Some(text);
    while let Some(left) = rest {
        let (word, after) = cut_at_blank(left);
        turns = read_word(word, line, turns)?;
        rest = after;
    }
    Ok(turns)
}

// The turns so far, and those of a word behind them; an empty one spells nothing.
fn read_word(word: &[u8], line: u32, turns: Items<Turn>) -> Result<Items<Turn>, SchedFault>
    requires { length turns ≤ max_turns }
    ensures given { Gives result (word_or_none turns line word.now) }
    ensures few { IfOk result (λ ts. length ts ≤ max_turns) }
{
    if word.is_empty() {
        return Ok(turns);
    }
    match turns_of(word, line) {
        Some(more) => push_turns(more, line, turns),
        None => Err(bad_word(line)),
    }
}

// The turns so far, and those that a word on this line spells.
fn push_turns(more: Turns, line: u32, turns: Items<Turn>) -> Result<Items<Turn>, SchedFault>
    requires { length turns ≤ max_turns }
    ensures given { Gives result (turns_then turns line (Some more)) }
    ensures few { IfOk result (λ ts. length ts ≤ max_turns) }
{
    let room = MAX_TURNS - turns.len();
    if more.count > room {
        return Err(too_long(line));
    }
    push_turn(more.turn, more.count, turns)
}

// The turns so far, and this one so many times.
fn push_turn(turn: Turn, count: usize, turns: Items<Turn>) -> Result<Items<Turn>, SchedFault>
    requires { length turns + count ≤ max_turns }
    ensures given { Gives {A = List Turn} result (Ok (turns ++ replicate count turn)) }
    ensures few { IfOk result (λ ts. length ts ≤ max_turns) }
{
    let mut turns = turns;
    let mut left = count;
    while left > 0 {
        turns.push(turn)?;
        left -= 1;
    }
    Ok(turns)
}

// The turns that a word spells.
#[tactic(auto, unfolding(crate::specs::Orders::turns_of))]
fn turns_of(word: &[u8], line: u32) -> Option<Turns>
    ensures { result ≡ turns_of line word.now }
{
    let (thread, after) = cut(word, b'*');
    let Some(after) = after else {
        return given_of(word, line);
    };
    let (count, other) = cut(after, b'*');
    match other {
        None => repeated(line, thread_of(thread), count_of(count)),
        Some(_) => None,
    }
}

// The turn that a word without `*` spells.
fn given_of(word: &[u8], line: u32) -> Option<Turns>
    ensures { result ≡ given_of line (parts_at 62 word.now) }
{
    let (thread, after) = cut(word, b'>');
    let Some(after) = after else {
        return alone(line, thread_of(thread));
    };
    let (receiver, other) = cut(after, b'>');
    match other {
        None => giving(line, thread_of(thread), thread_of(receiver)),
        Some(_) => None,
    }
}

// `T`.
fn alone(line: u32, thread: Option<u32>) -> Option<Turns>
    ensures { result ≡ alone line thread }
{
    match thread {
        Some(thread) => Some(Turns {
            turn: Turn {
                thread,
                receiver: None,
                line,
            },
            count: 1,
        }),
        None => None,
    }
}

// `T>W`.
fn giving(line: u32, thread: Option<u32>, receiver: Option<u32>) -> Option<Turns>
    ensures { result ≡ giving line thread receiver }
{
    match (thread, receiver) {
        (Some(thread), Some(receiver)) => Some(Turns {
            turn: Turn {
                thread,
                receiver: Some(receiver),
                line,
            },
            count: 1,
        }),
        (Some(_), None) => None,
        (None, _) => None,
    }
}

// `T*N`.
fn repeated(line: u32, thread: Option<u32>, count: Option<usize>) -> Option<Turns>
    ensures { result ≡ repeated line thread count }
{
    match (thread, count) {
        (Some(thread), Some(count)) => Some(Turns {
            turn: Turn {
                thread,
                receiver: None,
                line,
            },
            count,
        }),
        (Some(_), None) => None,
        (None, _) => None,
    }
}

// The thread that a word names.
fn thread_of(word: &[u8]) -> Option<u32>
    ensures { result ≡ thread_of word.now }
{
    match number_below(word, 1 << 32) {
        Some(number) => Some(number as u32),
        None => None,
    }
}

// How often a turn is taken.
fn count_of(word: &[u8]) -> Option<usize>
    ensures { result ≡ count_of word.now }
{
    match number_below(word, COUNTS) {
        Some(number) => positive(number as usize),
        None => None,
    }
}

// A number that isn't 0.
fn positive(number: usize) -> Option<usize>
    ensures { result ≡ positive (Some number) }
{
    if number == 0 { None } else { Some(number) }
}

// A number in decimal, which is below a limit.
fn number_below(word: &[u8], limit: u128) -> Option<u128>
    ensures number { result ≡ number_below limit word.now }
    ensures below { IfSome result (λ n. n < limit) }
{
    let number = number_of(word)?;
    if number < limit { Some(number) } else { None }
}

fn too_long(line: u32) -> SchedFault
    ensures { result ≡ SchedFault.Bad line TOO_LONG }
{
    SchedFault::Bad {
        line,
        code: TOO_LONG,
    }
}

fn bad_word(line: u32) -> SchedFault
    ensures { result ≡ SchedFault.Bad line BAD_LINE }
{
    SchedFault::Bad {
        line,
        code: BAD_LINE,
    }
}

// The part before the first such byte, and what follows that byte, if it is there.
fn cut(text: &[u8], byte: u8) -> (&[u8], Option<&[u8]>)
    ensures parts { parts_at byte text.now ≡ result.0.now ∷ parts_after byte (option_copied result.1) }
    ensures shorter { IfSome result.1 (λ rest. length rest.now < length text.now) }
{
    match position_of(text, byte) {
        None => (text, None),
        Some(at) => (&text[..at], Some(&text[at + 1..])),
    }
}

fn position_of(text: &[u8], byte: u8) -> Option<usize>
    ensures { result ≡ position (λ b. b == byte) text.now }
{
    text.iter().position(|b| *b == byte)
}

// The part before the first blank, and what follows that, if it is there.
fn cut_at_blank(text: &[u8]) -> (&[u8], Option<&[u8]>)
    ensures parts { slice_split is_blank text.now ≡ result.0.now ∷ blank_parts (option_copied result.1) }
    ensures shorter { IfSome result.1 (λ rest. length rest.now < length text.now) }
{
    match blank_in(text) {
        None => (text, None),
        Some(at) => (&text[..at], Some(&text[at + 1..])),
    }
}

fn blank_in(text: &[u8]) -> Option<usize>
    ensures { result ≡ position is_blank text.now }
{
    text.iter().position(|b| is_blank(*b))
}

// A blank, a tab or a carriage return.
fn is_blank(byte: u8) -> bool
    ensures { result ≡ is_blank byte }
{
    byte == b' ' || byte == b'\t' || byte == b'\r'
}
