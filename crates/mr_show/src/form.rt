//! The forms, and the words that ask for them.
ghost use Rattle.std.specs.Prelude.{◌≡◌, [], ◌∷◌, ◌+◌, ◌^◌, if◌then◌else◌, map, string_bytes};
ghost use Rattle.std.specs.Option.{option_map};
ghost use Rattle.mr_input.specs.Numbers.{number_below};
ghost use Rattle.mr_hunt.specs.Aims.{Named, aim_of};
ghost use Rattle.mr_show.specs.Form.{Why, aimed_of, asked, bare_of, code_by, code_named, drawn_of, form_of, four_form};
ghost use Rattle.mr_show.specs.Form.{help_of, hunt_of, is_name_of, is_reason, is_verdict, lines_from, long_form};
ghost use Rattle.mr_show.specs.Form.{part_of, span_of, spanned, three_form, two_aim, two_of, whole_of, word_aim};
ghost use Rattle.mr_show.specs.Form.{selection_of, step_of, witness_of, word_range};
ghost use Rattle.mr_show.specs.Seek.{seek_of, seeking};
ghost use Rattle.mr_why.specs.Why.{entry_of};

use crate::help::{help_with, help_with_all};
use mr_hunt::Aim;
use mr_input::number_below;
use mr_picture::Span;
use mr_run::Selection;
use mr_why::entry;

/// What is shown of a run that was taken to its end.
#[derive(Clone, Copy)]
pub enum Part {
    /// Its steps from one number up to another, counted from 0, the last one left out.
    Steps { from: usize, to: usize },
    /// All of it as JSON.
    Json,
    /// Its races by pairs of places.
    Races,
    /// Its races by two orders, Rust's and the machine's.
    TwoOrders,
    /// The order of two of its steps, counted from 0.
    Order { first: usize, second: usize },
    /// A picture of it: of the steps that are asked for, or without any of those about its first race.
    Picture { asked: Option<Span> },
}

/// What is told of an order of threads.
#[derive(Clone, Copy)]
pub enum Filling {
    /// The schedule that it becomes.
    Schedule,
    /// Where it can't go on.
    Halt,
}

/// What is said of a run.
#[derive(Clone, Copy)]
pub enum Saying {
    /// A part of it.
    OfRun(Part),
    /// How it can go on.
    Next,
    /// What becomes of an order, whose file stands where that of a schedule would.
    OfOrder(Filling),
    /// The schedule that shows the race which is listed for a step, counted from 0.
    Witness { step: u32, selection: Selection },
}

/// What is told of a trace.
#[derive(Clone, Copy)]
pub enum Telling {
    /// Its races by pairs of places.
    Races,
    /// Its races by two orders, Rust's and the machine's.
    TwoOrders,
    /// Its steps from one number up to another, counted from 0, the last one left out.
    Steps { from: usize, to: usize },
    /// A picture of it: of the steps that are asked for, or without any of those about its first race.
    Picture { asked: Option<Span> },
}

/// What is told of a trace without places.
#[derive(Clone, Copy)]
pub enum Alone {
    /// These of its steps.
    Steps(Span),
    /// Its races by two orders.
    TwoOrders,
}

/// Numbers from one to another, and how many entries the schedules have at most that are drawn from them.
#[derive(Clone, Copy)]
pub struct Range {
    pub from: u64,
    pub to: u64,
    pub most: u32,
}

/// What is looked for among the runs of numbers.
#[derive(Clone, Copy)]
pub enum Seek<'a> {
    /// All kinds of ends.
    Ends,
    /// The first run that has what is aimed at.
    First(Aim<'a>),
    /// The schedule itself, of the first number.
    Drawn,
}

/// What is asked for, with the names of files.
#[derive(Clone, Copy)]
pub enum Form<'a> {
    /// What is said of the run of a program under a schedule.
    Shown {
        saying: Saying,
        program: &'a str,
        schedule: &'a str,
    },
    /// What the runs of numbers tell.
    Hunted {
        range: Range,
        seek: Seek<'a>,
        program: &'a str,
    },
    /// What is told of a trace without places.
    Bare {
        alone: Alone,
        trace: &'a str,
    },
    /// What is said of a program by itself.
    CheckedProgram {
        program: &'a str,
    },
    /// What is said of a program and a schedule of it.
    CheckedSchedule {
        program: &'a str,
        schedule: &'a str,
    },
    /// What is said of a code.
    Why {
        code: u16,
    },
    /// Help, by its text.
    Help {
        text: &'static [u8],
    },
}

/// As many entries as a schedule has at most.
pub(crate) const ALL: usize = 1 << 22;

// `--help` behind a word.
fn help_of<'a>(word: &str) -> Option<Form<'a>>
    ensures { option_map asked result ≡ help_of word.now }
{
    let text = help_with(word)?;
    Some(Form::Help { text })
}

// The first code of this name.
fn code_named(word: &str) -> Option<u16>
    ensures { result ≡ code_named word.now }
{
    for code in 0..134 {
        if is_name_of(word, code) {
            return Some(code);
        }
    }
    None
}

// The code that a word is, by its number or by its name.
fn code_by(word: &str) -> Option<u16>
    ensures { result ≡ code_by word.now }
{
    match number_below(word, 1 << 16) {
        Some(code) => Some(code as u16),
        None => code_named(word),
    }
}

// What is said of the code that a word is.
fn code_of<'a>(word: &str) -> Option<Form<'a>>
    ensures { option_map asked result ≡ option_map Why (code_by word.now) }
{
    let code = code_by(word)?;
    Some(Form::Why { code })
}

// `why CODE`, `check P` and `rust T`.
fn two_of<'a>(word: &str, second: &'a str) -> Option<Form<'a>>
    ensures { option_map asked result ≡ two_of word.now second.now }
{
    match word {
        "why" => code_of(second),
        "check" => Some(Form::CheckedProgram { program: second }),
        "rust" => Some(Form::Bare {
            alone: Alone::TwoOrders,
            trace: second,
        }),
        _ => None,
    }
}

// `steps P S`, `json P S`, `races P S`, `rust P S`, `picture P S`, `next P S`, `fill P O` and `halt P O`.
fn whole_of<'a>(word: &str, program: &'a str, schedule: &'a str) -> Option<Form<'a>>
    ensures { option_map asked result ≡ whole_of word.now program.now schedule.now }
{
    let saying = match word {
        "steps" => Saying::OfRun(Part::Steps { from: 0, to: ALL }),
        "json" => Saying::OfRun(Part::Json),
        "races" => Saying::OfRun(Part::Races),
        "rust" => Saying::OfRun(Part::TwoOrders),
        "picture" => Saying::OfRun(Part::Picture { asked: None }),
        "next" => Saying::Next,
        "fill" => Saying::OfOrder(Filling::Schedule),
        "halt" => Saying::OfOrder(Filling::Halt),
        _ => return None,
    };
    Some(Form::Shown {
        saying,
        program,
        schedule,
    })
}

// `check P S`, and the forms of `whole_of`.
fn three_form<'a>(word: &str, program: &'a str, schedule: &'a str) -> Option<Form<'a>>
    ensures { option_map asked result ≡ three_form word.now program.now schedule.now }
{
    match word {
        "check" => Some(Form::CheckedSchedule { program, schedule }),
        _ => whole_of(word, program, schedule),
    }
}

// The steps from one of these numbers to the other, counted from 1; the last one is shown too.
fn span_of(first: &str, last: &str) -> Option<Span>
    ensures { result ≡ span_of (number_below (2 ^ 32) first.now) (number_below (2 ^ 32) last.now) }
{
    let first = number_below(first, 1 << 32)?;
    let last = number_below(last, 1 << 32)?;
    Some(Span {
        from: (first as usize).saturating_sub(1),
        to: last as usize,
    })
}

// What is shown of these steps.
fn spanned(word: &str, span: Span) -> Option<Part>
    ensures { result ≡ spanned word.now span }
{
    match word {
        "steps" => Some(Part::Steps {
            from: span.from,
            to: span.to,
        }),
        "order" => Some(Part::Order {
            first: span.from,
            second: span.to.saturating_sub(1),
        }),
        "picture" => Some(Part::Picture { asked: Some(span) }),
        _ => None,
    }
}

// `steps P S FIRST LAST`, `order P S FIRST LAST` and `picture P S FIRST LAST`.
fn part_of<'a>(
    word: &str,
    program: &'a str,
    schedule: &'a str,
    first: &str,
    last: &str,
) -> Option<Form<'a>>
    ensures { option_map asked result ≡ part_of word.now program.now schedule.now
        (span_of (number_below (2 ^ 32) first.now) (number_below (2 ^ 32) last.now)) }
{
    let span = span_of(first, last)?;
    let part = spanned(word, span)?;
    Some(Form::Shown {
        saying: Saying::OfRun(part),
        program,
        schedule,
    })
}

// `steps T FIRST LAST`.
fn bare_of<'a>(word: &str, trace: &'a str, first: &str, last: &str) -> Option<Form<'a>>
    ensures { option_map asked result ≡ bare_of word.now trace.now
        (span_of (number_below (2 ^ 32) first.now) (number_below (2 ^ 32) last.now)) }
{
    let span = span_of(first, last)?;
    match word {
        "steps" => Some(Form::Bare {
            alone: Alone::Steps(span),
            trace,
        }),
        _ => None,
    }
}

// The numbers from one of these words to another, and the most entries that the third tells.
fn word_range(from: &str, to: &str, most: &str) -> Option<Range>
    ensures { result ≡ word_range from.now to.now most.now }
{
    let from = number_below(from, 1 << 64)?;
    let to = number_below(to, 1 << 64)?;
    let most = number_below(most, (1 << 20) + 1)?;
    if from <= to {
        Some(Range {
            from: from as u64,
            to: to as u64,
            most: most as u32,
        })
    } else {
        None
    }
}

// What is looked for, with an aim or without.
fn seeking(aim: Option<Aim<'_>>) -> Seek<'_>
    ensures { seek_of result ≡ seeking (option_map aim_of aim.entry) }
{
    match aim {
        None => Seek::Ends,
        Some(aim) => Seek::First(aim),
    }
}

// `hunt P FROM TO M`, with what is looked for, if anything is.
fn hunt_of<'a>(
    word: &str,
    program: &'a str,
    range: Option<Range>,
    aim: Option<Aim<'a>>,
) -> Option<Form<'a>>
    ensures { option_map asked result ≡ hunt_of word.now program.now range (option_map aim_of aim.entry) }
{
    let range = range?;
    match word {
        "hunt" => Some(Form::Hunted {
            range,
            seek: seeking(aim),
            program,
        }),
        _ => None,
    }
}

// `draw P N M`.
fn drawn_of(program: &str, range: Option<Range>) -> Option<Form<'_>>
    ensures { option_map asked result ≡ drawn_of program.now range }
{
    let range = range?;
    Some(Form::Hunted {
        range,
        seek: Seek::Drawn,
        program,
    })
}

// `hunt P FROM TO M AIM`.
fn aimed_of<'a>(
    word: &str,
    program: &'a str,
    range: Option<Range>,
    aim: Option<Aim<'a>>,
) -> Option<Form<'a>>
    ensures { option_map asked result ≡ aimed_of word.now program.now range (option_map aim_of aim.entry) }
{
    match aim {
        Some(_) => hunt_of(word, program, range, aim),
        None => None,
    }
}

// Whether this is the name of a code.
fn is_name_of(word: &str, code: u16) -> bool
    ensures { result ≡ is_name_of word.now (entry_of code) }
{
    match entry(code) {
        Some(found) => found.name == word,
        None => false,
    }
}

// Whether this is the name of a reason of undefined behaviour.
fn is_reason(word: &str) -> bool
    ensures { result ≡ is_reason word.now }
{
    for code in 100..134 {
        if is_name_of(word, code) {
            return true;
        }
    }
    false
}

// Whether this is the name of a verdict, or of a reason for which one is undefined.
fn is_verdict(word: &str) -> bool
    ensures { result ≡ is_verdict word.now }
{
    match word {
        "exit" => true,
        "running" => true,
        "leak" => true,
        "abort" => true,
        "deadlock" => true,
        _ => is_reason(word),
    }
}

// An aim of one word.
fn word_aim(word: &str) -> Option<Aim<'_>>
    ensures { option_map aim_of result ≡ word_aim word.now }
{
    match word {
        "any" => Some(Aim::Any),
        "race" => Some(Aim::Race),
        "rust" => Some(Aim::RustRace),
        "undefined" => Some(Aim::Undefined),
        _ => named_aim(word),
    }
}

// The name of a verdict or of a reason.
fn named_aim(word: &str) -> Option<Aim<'_>>
    ensures { option_map aim_of result ≡ (if is_verdict word.now then Some (Named word.now) else None) }
{
    if is_verdict(word) {
        Some(Aim::Named(word))
    } else {
        None
    }
}

// The lines of two words.
fn lines_of<'a>(one: &str, other: &str) -> Option<Aim<'a>>
    ensures { option_map aim_of result ≡ lines_from (number_below (2 ^ 32) one.now) (number_below (2 ^ 32) other.now) }
{
    let one = number_below(one, 1 << 32)?;
    let other = number_below(other, 1 << 32)?;
    Some(Aim::Lines {
        one: one as u32,
        other: other as u32,
    })
}

// An aim of two words: `prints TEXT`, or two lines.
fn two_aim<'a>(word: &str, text: &'a str) -> Option<Aim<'a>>
    ensures { option_map aim_of result ≡ two_aim word.now text.now }
{
    match word {
        "prints" => Some(Aim::Prints(text)),
        _ => lines_of(word, text),
    }
}

// The number of a step, counted from 0, and in words from 1.
fn step_of(word: &str) -> Option<u32>
    ensures { result ≡ step_of (number_below (2 ^ 32) word.now) }
{
    let number = number_below(word, 1 << 32)?;
    if number == 0 {
        None
    } else {
        Some(number as u32 - 1)
    }
}

// `witness P S J`, and that with a word behind it.
fn witness_of<'a>(
    program: &'a str,
    schedule: &'a str,
    step: &str,
    selection: Option<Selection>,
) -> Option<Form<'a>>
    ensures { option_map asked result
        ≡ witness_of program.now schedule.now (step_of (number_below (2 ^ 32) step.now)) selection }
{
    let step = step_of(step)?;
    let selection = selection?;
    Some(Form::Shown {
        saying: Saying::Witness { step, selection },
        program,
        schedule,
    })
}

// Which entries the schedule of a race takes, by a word.
fn selection_of(word: &str) -> Option<Selection>
    ensures { result ≡ selection_of word.now }
{
    match word {
        "short" => Some(Selection::Needed),
        _ => None,
    }
}

// The form of five words.
fn five_form<'a>(
    word: &str,
    program: &'a str,
    third: &'a str,
    fourth: &str,
    fifth: &str,
) -> Option<Form<'a>>
    ensures { option_map asked result ≡ long_form word.now program.now third.now fourth.now fifth.now [] }
{
    match word {
        "hunt" => hunt_of(word, program, word_range(third, fourth, fifth), None),
        "witness" => witness_of(program, third, fourth, selection_of(fifth)),
        _ => part_of(word, program, third, fourth, fifth),
    }
}

// `draw P N M`, `witness P S J` and `steps T FIRST LAST`.
fn four_form<'a>(word: &str, file: &'a str, third: &'a str, fourth: &str) -> Option<Form<'a>>
    ensures { option_map asked result ≡ four_form word.now file.now third.now fourth.now }
{
    match word {
        "draw" => drawn_of(file, word_range(third, third, fourth)),
        "witness" => witness_of(file, third, fourth, Some(Selection::Kept)),
        _ => bare_of(word, file, third, fourth),
    }
}

// The form of five words and more.
fn long_form<'a>(
    word: &str,
    program: &'a str,
    third: &'a str,
    fourth: &str,
    fifth: &str,
    rest: &'a [String],
) -> Option<Form<'a>>
    ensures { option_map asked result
        ≡ long_form word.now program.now third.now fourth.now fifth.now (map string_bytes rest.now) }
{
    let range = word_range(third, fourth, fifth);
    match rest {
        [] => five_form(word, program, third, fourth, fifth),
        [aim] => aimed_of(word, program, range, word_aim(aim.as_str())),
        [aim, text] => aimed_of(word, program, range, two_aim(aim.as_str(), text.as_str())),
        [_, _, _, ..] => None,
    }
}

// `--help`.
fn one_form<'a>(word: &str) -> Option<Form<'a>>
    ensures { option_map asked result ≡ form_of (word.now ∷ []) }
{
    match word {
        "--help" => Some(Form::Help {
            text: help_with_all(),
        }),
        _ => None,
    }
}

// `--help` behind a word, or `why CODE`, `check P` or `rust T`.
fn two_form<'a>(word: &str, option: &'a str) -> Option<Form<'a>>
    ensures { option_map asked result ≡ form_of (word.now ∷ option.now ∷ []) }
{
    match option {
        "--help" => help_of(word),
        _ => two_of(word, option),
    }
}

/// The form of these words: `steps P S`, `steps P S FIRST LAST`, `races P S`, `rust P S`, `picture P S`, `picture P S
/// FIRST LAST`, `order P S FIRST LAST`, `witness P S J`, `witness P S J short`, `next P S`, `steps T FIRST LAST`,
/// `rust T`, `check P`, `check P S`, `fill P O`, `halt P O`, `hunt P FROM TO M` and that with an aim, `draw P N M`,
/// `why CODE`, `--help`, or one of the words `steps`, `races`, `rust`, `picture`, `order`, `witness`, `next`,
/// `check`, `fill`, `halt`, `hunt`, `draw` and `why` with `--help` behind it.
pub fn form_of(words: &[String]) -> Option<Form<'_>>
    ensures { option_map asked result ≡ form_of (map string_bytes words.now) }
{
    match words {
        [] => None,
        [word] => one_form(word.as_str()),
        [word, option] => two_form(word.as_str(), option.as_str()),
        [word, program, schedule] => {
            three_form(word.as_str(), program.as_str(), schedule.as_str())
        }
        [word, file, third, fourth] => {
            four_form(
                word.as_str(),
                file.as_str(),
                third.as_str(),
                fourth.as_str(),
            )
        }
        [word, program, third, fourth, fifth, rest @ ..] => long_form(
            word.as_str(),
            program.as_str(),
            third.as_str(),
            fourth.as_str(),
            fifth.as_str(),
            rest,
        ),
    }
}
