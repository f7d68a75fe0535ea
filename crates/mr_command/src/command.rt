//! The commands, and the words that ask for them.
ghost use Rattle.std.specs.Prelude.{◌≡◌, ◌+◌, ◌^◌, [], ◌∷◌, IfSome, map, string_bytes};
ghost use Rattle.std.specs.Option.{option_map};
ghost use Rattle.mr_input.specs.Numbers.{number_below};
ghost use Rattle.mr_command.specs.Command.{asked, auto_of, command_of, format_of, run_of, shuffle_of, IsBounded};

use mr_answer::Format;
use mr_input::number_below;

/// What is said of a program that breaks no rule.
#[derive(Clone, Copy, Debug)]
pub enum Saying {
    /// Its canonical text.
    Canonical,
    /// A schedule that is drawn for it from a number, with at most so many entries, and the report of the run under it.
    Drawn { number: u64, most: u32 },
}

/// What is asked for, with the names of the files that are read for it.
#[derive(Clone, Copy, Debug)]
pub enum Command<'a> {
    /// A run of a program under a schedule, and how its report is written.
    Run {
        format: Format,
        program: &'a str,
        schedule: &'a str,
    },
    /// What is said of a program.
    OfProgram {
        saying: Saying,
        program: &'a str,
    },
    /// A schedule in version 2.
    OfSchedule {
        schedule: &'a str,
    },
    /// The races that the bytes of footprints show.
    OfTrace {
        trace: &'a str,
    },
    /// The summary of a run of the program of a number.
    OfNumber {
        number: u64,
    },
}

// The format of the report that a word asks for.
fn format_of(word: &str) -> Option<Format>
    ensures { result ≡ format_of word.now }
{
    match word {
        "run" => Some(Format::Text),
        "json" => Some(Format::Json),
        "short" => Some(Format::Short),
        "trace" => Some(Format::Footprints),
        _ => None,
    }
}

// `run P S`, `json P S`, `short P S` and `trace P S`.
fn run_of<'a>(word: &str, program: &'a str, schedule: &'a str) -> Option<Command<'a>>
    ensures command { option_map asked result ≡ run_of (format_of word.now) program.now schedule.now }
    ensures bounded { IfSome result (λ c. IsBounded (asked c)) }
{
    let format = format_of(word)?;
    Some(Command::Run {
        format,
        program,
        schedule,
    })
}

// `auto P N M`.
fn auto_of<'a>(program: &'a str, number: &str, most: &str) -> Option<Command<'a>>
    ensures command { option_map asked result
        ≡ auto_of program.now (number_below (2 ^ 64) number.now) (number_below (2 ^ 20 + 1) most.now) }
    ensures bounded { IfSome result (λ c. IsBounded (asked c)) }
{
    let number = number_below(number, 1 << 64)?;
    let most = number_below(most, (1 << 20) + 1)?;
    let saying = Saying::Drawn {
        number: number as u64,
        most: most as u32,
    };
    Some(Command::OfProgram { saying, program })
}

// `shuffle P S N`.
fn shuffle_of<'a>(program: &'a str, schedule: &'a str, number: &str) -> Option<Command<'a>>
    ensures command { option_map asked result ≡ shuffle_of program.now schedule.now (number_below (2 ^ 64) number.now) }
    ensures bounded { IfSome result (λ c. IsBounded (asked c)) }
{
    let number = number_below(number, 1 << 64)?;
    Some(Command::Run {
        format: Format::Shuffled {
            number: number as u64,
        },
        program,
        schedule,
    })
}

// `check P`, `big N`, `upgrade S` and `offline T`.
fn short_of<'a>(word: &str, name: &'a str) -> Option<Command<'a>>
    ensures command { option_map asked result ≡ command_of (word.now ∷ name.now ∷ []) }
    ensures bounded { IfSome result (λ c. IsBounded (asked c)) }
{
    match word {
        "check" => Some(Command::OfProgram {
            saying: Saying::Canonical,
            program: name,
        }),
        "big" => {
            let number = number_below(name, 1 << 64)?;
            Some(Command::OfNumber {
                number: number as u64,
            })
        }
        "upgrade" => Some(Command::OfSchedule { schedule: name }),
        "offline" => Some(Command::OfTrace { trace: name }),
        _ => None,
    }
}

/// The command of these words. There are ten forms: `run P S`, `json P S`, `short P S`, `trace P S`, `shuffle P S N`,
/// `check P`, `auto P N M`, `big N`, `upgrade S` and `offline T`.
pub fn command_of(words: &[String]) -> Option<Command<'_>>
    ensures command { option_map asked result ≡ command_of (map string_bytes words.now) }
    ensures bounded { IfSome result (λ c. IsBounded (asked c)) }
{
    match words.len() {
        2 => short_of(words[0].as_str(), words[1].as_str()),
        3 => run_of(words[0].as_str(), words[1].as_str(), words[2].as_str()),
        4 if words[0].as_str() == "auto" => auto_of(
            words[1].as_str(),
            words[2].as_str(),
            words[3].as_str(),
        ),
        4 if words[0].as_str() == "shuffle" => shuffle_of(
            words[1].as_str(),
            words[2].as_str(),
            words[3].as_str(),
        ),
        _ => None,
    }
}
