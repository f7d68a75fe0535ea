//! The body of `mirace_show`'s top call: a run as people read it.
//!
//! - [`mirace_show`]: does what the words ask for: `steps P S [FIRST LAST]`, `json P S`, `races P S`, `rust P S`,
//!   `picture P S [FIRST LAST]`, `order P S FIRST LAST`, `witness P S J [short]`, `races T PLACES`, `rust T [PLACES]`,
//!   `steps T PLACES [FIRST LAST]`, `steps T FIRST LAST`,
//!   `picture T PLACES [FIRST LAST]`, `next P S`, `check P [S]`, `fill P O`, `halt P O`, `hunt P FROM TO M [AIM]`,
//!   `draw P N M`, `why CODE` or `--help`. Over files that tell what they hold: what is written is the answer by
//!   definition (`specs/Answer.antt`), or a read failed, which the files counted, or memory ran out before anything was
//!   written. Of a program and a legal schedule of it the answer is the text of its run (`mr_listing`): of the steps of
//!   the machine, each at its place in the program's text, all of it as JSON (`mr_json`), or of its races, also by
//!   Rust's own order (`mr_two_orders`); or its picture, or how two of its steps are ordered (`mr_picture`), or the
//!   schedule that shows the race of a step (`mr_run`), where the machine reports one under it; of a trace its races,
//!   its steps or its picture (`mr_traced`), where the first file of `races`, `rust`, `steps` or `picture` holds one; of
//!   a program, or of a schedule of it, what refuses it (`mr_refusals`); of a code it is what is said of the rule or the
//!   reason (`mr_why`); of many numbers what the runs that are drawn from them show (`mr_hunt`), or of one number the
//!   schedule (`mr_auto`). Over other files there are texts of which the same holds.
//!
//! Laws: [`listed_races_are_told`] (of a race that is listed `witness P S J` writes the schedule where this breaks no
//! rule and its run ends in a data race, and that an earlier race is in its way where not),
//! [`other_steps_race_with_none`] (a step for which none is listed has no partner, and this is written),
//! [`first_race_is_shown`] (of the first race it writes the schedule).
//!
//! Files, refusals and the writing of an answer are those of `mirace` (`mr_input`), and so are the lines of broken
//! rules and the status of a run (`mr_answer`).
#![tactic(auto)]

ghost use Rattle.std.specs.Prelude.{◌≡◌, ◌+◌, ◌≤◌, None, Some, map, string_bytes};
ghost use Rattle.mr_io.specs.Counts.{Rose};
ghost use Rattle.mr_io.specs.Files.{Contents};
ghost use Rattle.mr_input.specs.Writing.{IsWritten};
ghost use Rattle.mr_show.specs.Answer.{usage};
ghost use Rattle.mr_show.specs.Form.{asked, form_of};
ghost use Rattle.mr_show.specs.Outcome.{Ends, EndsOverTexts};
ghost use Rattle.mr_show.specs.Unread.{IsUnreadBecause};

mod answer;
mod checked;
mod filled;
mod form;
mod help;
mod hunted;
mod laid;
mod next;
mod placed;
mod sentences;
mod shown;
mod traced;
mod witness;

use crate::answer::answer;
use crate::form::{Form, form_of};
use mr_input::{finish, refuse};
use mr_io::{Files, Sink};
use std::alloc::Global;
pub use witness::{first_race_is_shown, listed_races_are_told, other_steps_race_with_none};

const USAGE: &[u8] = b"\
usage: steps P S [FIRST LAST] | json P S | races P S | rust P S | picture P S [FIRST LAST] | \
order P S FIRST LAST | witness P S J [short] | races T PLACES | rust T [PLACES] | steps T PLACES [FIRST LAST] | \
steps T FIRST LAST | picture T PLACES [FIRST LAST] | \
next P S | check P [S] | fill P O | halt P O | hunt P FROM TO M [AIM] | draw P N M | why CODE | --help
";

/// Does what the words behind the program's name ask for, and answers the exit status: that of the run's report, or
/// that of what refuses it, as `mirace` answers them; 2 of words without a form.
pub fn mirace_show<F: Files, O: Sink>(
    alloc: Global,
    words: &[String],
    files: &mut F,
    out: &mut O,
) -> u8
    // What is written and answered, over files that tell what they hold.
    ensures ends { (contents : Contents) → F.told files.old ≡ Some contents
        → Ends contents (form_of (map string_bytes words.now)) (Rose (F.faults files.old) (F.faults files.new))
        (Rose (O.faults out.old) (O.faults out.new)) (O.taken out.old) (O.taken out.new) result }

    // Over files that don't: there are texts of which they are.
    ensures untold { F.told files.old ≡ None
        → EndsOverTexts (form_of (map string_bytes words.now)) (Rose (F.faults files.old) (F.faults files.new))
        (Rose (O.faults out.old) (O.faults out.new)) (O.taken out.old) (O.taken out.new) result }

    // Whatever the files tell.
    ensures bounded { result ≤ 9 }
    ensures usage { form_of (map string_bytes words.now) ≡ None
        → IsWritten usage (Rose (O.faults out.old) (O.faults out.new)) (O.taken out.old) (O.taken out.new) result }
    ensures no_usage { result ≡ 2 → form_of (map string_bytes words.now) ≡ None }
    ensures read_fault { result ≡ 6 → IsUnreadBecause (Rose (F.faults files.old) (F.faults files.new))
        (F.told files.old) (form_of (map string_bytes words.now)) }
    ensures write_fault { result ≡ 7 → Rose (O.faults out.old) (O.faults out.new) }
    ensures memory { result ≡ 8 → O.taken out.new ≡ O.taken out.old }
    ensures same { F.told files.new ≡ F.told files.old }
    ensures reads { F.reads files.new ≤ F.reads files.old + 2 }
{
    match form_of(words) {
        None => finish(out, USAGE, 2),
        Some(form) => obeyed(alloc, files, out, form),
    }
}

// Does what a form asks for.
fn obeyed<F: Files, O: Sink>(alloc: Global, files: &mut F, out: &mut O, form: Form<'_>) -> u8
    ensures ends { (contents : Contents) → F.told files.old ≡ Some contents
        → Ends contents (Some (asked form.entry)) (Rose (F.faults files.old) (F.faults files.new))
        (Rose (O.faults out.old) (O.faults out.new)) (O.taken out.old) (O.taken out.new) result }
    ensures untold { F.told files.old ≡ None
        → EndsOverTexts (Some (asked form.entry)) (Rose (F.faults files.old) (F.faults files.new))
        (Rose (O.faults out.old) (O.faults out.new)) (O.taken out.old) (O.taken out.new) result }
    ensures no_usage { ¬ result ≡ 2 }
    ensures bounded { result ≤ 9 }
    ensures read_fault { F.told files.old ≡ None → result ≡ 6 → Rose (F.faults files.old) (F.faults files.new) }
    ensures write_fault { result ≡ 7 → Rose (O.faults out.old) (O.faults out.new) }
    ensures memory { result ≡ 8 → O.taken out.new ≡ O.taken out.old }
    ensures same { F.told files.new ≡ F.told files.old }
    ensures reads { F.reads files.new ≤ F.reads files.old + 2 }
{
    match answer(alloc, files, form) {
        Ok(written) => finish(out, written.text.as_slice(), written.status),
        Err(refusal) => refuse(alloc, out, refusal),
    }
}
