//! The texts of help.
ghost use Rattle.std.specs.Prelude.{◌≡◌, map, option_copied};
ghost use Rattle.mr_ast.specs.Words.{looked_up};
ghost use Rattle.mr_show.specs.Help.{help_with, help_with_all};

const EVERYTHING: &[u8] = b"\
mirace_show steps P S [FIRST LAST]   the steps of a run, each at its place in the program's text
mirace_show json P S                 a run as JSON, for tools
mirace_show races P S                the races of a run by pairs of places
mirace_show picture P S [FIRST LAST] a picture of a run, as an SVG document
mirace_show order P S FIRST LAST     how two steps of a run are ordered, edge by edge
mirace_show witness P S J [short]    a schedule that shows the race of step J
mirace_show rust P S                 the races of a run by Rust's own order beside those by the machine's
mirace_show races T PLACES           the races of a trace by pairs of places
mirace_show rust T [PLACES]          the same of a trace; without PLACES race by race
mirace_show steps T PLACES           the steps of a trace, each at its place; FIRST LAST may stand behind it
mirace_show steps T FIRST LAST       steps of a trace, without places
mirace_show picture T PLACES         a picture of a trace; FIRST LAST may stand behind it
mirace_show next P S                 what each thread would do next, or the entry that breaks a rule
mirace_show check P [S]              the first fault of a program, or of a schedule of it, at its line
mirace_show fill P O                 the schedule that an order of threads becomes
mirace_show halt P O                 where that order can't go on
mirace_show hunt P FROM TO M [AIM]   how many drawn runs end in each way, or the first that has AIM
mirace_show draw P N M               the schedule of at most M entries that is drawn from number N
mirace_show why CODE                 what is said of a code of a rule, a fault or a reason
P is the file of a program, S that of a schedule, O that of an order, T that of a trace, and PLACES that
of the places of its steps.
With --help behind one of the words steps, json, races, rust, picture, order, witness, next, check, fill, halt,
hunt, draw and why it tells more.
";

const OF_STEPS: &[u8] = b"\
mirace_show steps P S [FIRST LAST]
Runs the program in file P under the schedule in file S, and writes a line for each step: its number,
its thread, the line and the column in P, the function, the block and the statement. Below it stand what
it printed, what it did to locks and threads, what it loaded and stored, and the steps with which it
races. At the end stand the verdict, how many races there are, how the threads stand where no step
stopped the run, which blocks a leak has left, for which reason a run is undefined, and of which
allocation that reason speaks. With FIRST and LAST only those steps are written.
mirace_show steps T PLACES [FIRST LAST] | steps T FIRST LAST
Writes a line for each step of the trace in file T, which begins with MRTR: its number, its thread, and the
place and the variable that file PLACES tells of it. Below it stand what it did to locks and threads, what
it loaded and stored, and the steps with which it races. At the end stands how many races there are.
";

const OF_JSON: &[u8] = b"\
mirace_show json P S
Runs the program in file P under the schedule in file S, and writes the run as one JSON object on a line:
what it printed, its steps with their places and what they did, loaded and stored, its races with the
places of their two steps, and its verdict. docs/run.schema.json says which form it has.
";

const OF_RACES: &[u8] = b"\
mirace_show races P S
Runs the program in file P under the schedule in file S, and writes a line for each two places of P at
which steps race, those with most races first, with how many races there are and the steps of the first.
mirace_show races T PLACES
Writes the same of the trace in file T, which begins with MRTR, by the places that file PLACES tells of its
steps. Below each two places stand the two steps of the first race, with what they loaded and stored.
";

const OF_RUST: &[u8] = b"\
mirace_show rust P S
Runs the program in file P under the schedule in file S, and writes a line for each two places of P at
which steps race by Rust's own order or by the machine's: those of Rust's list first. Below it stands which
list has races there, and where one has none why: in which order the two steps are, and by which other
two, or with which later step that list has the second one.
mirace_show rust T [PLACES]
Writes the same of the trace in file T, which begins with MRTR, by the places that file PLACES tells of its
steps, with the two steps of the first race; and without PLACES each race by its steps and threads.
";

const OF_PICTURE: &[u8] = b"\
mirace_show picture P S [FIRST LAST]
Runs the program in file P under the schedule in file S, and writes a picture of the run as an SVG document:
a lane for each thread, its steps from above to below, arrows for what happens before what, and the races.
With FIRST and LAST those steps are drawn, and else those about the first race; 500 at most.
mirace_show picture T PLACES [FIRST LAST]
Draws the same of the trace in file T, which begins with MRTR, each step at the place that file PLACES tells.
";

const OF_NEXT: &[u8] = b"\
mirace_show next P S
Runs the program in file P under the schedule in file S, up to its end or to the first entry that breaks a
rule. Of such an entry it writes the rule, the picks, and the one by which the rule is broken. Behind that
stands of each thread where it is, whether it can go on, what its next step asks for, and what it waits for.
";

const OF_CHECK: &[u8] = b"\
mirace_show check P [S]
Tells the first fault of the program in file P, or the first rule that it breaks: the file, the line and the
column, what the code says, and the line itself with a caret. Of a text it tells what stands there, and where
that doesn't fit, each word that may stand there; of a rule the function and the block. Of a program that
breaks no rule it says so, or with S tells the same of the schedule in file S: of an entry its thread and its
picks, and how many entries there are where it breaks no rule.
";

const OF_FILL: &[u8] = b"\
mirace_show fill P O | halt P O
Writes the schedule of the program in file P whose steps are of the threads of the order in file O, with
addresses that are found for it. An order is numbers of threads between blanks and line ends: T is a turn
of thread T, T*N so many, and in T>W thread W gets the lock that the step gives up. A # begins a comment.
The schedule ends where the order can't go on. Then the status is 1, and halt with the same files tells the
line of the order and the rule that its turn would break.
";

const OF_HUNT: &[u8] = b"\
mirace_show hunt P FROM TO M [AIM]
Draws a schedule of at most M entries for the program in file P from each number from FROM to TO, as mirace
auto does, and runs it. Writes a line for each verdict and for each two places that race: how many numbers
have it, and the first. With AIM it stops at the first number whose run has it, with status 1, and tells it.
AIM is any, race, rust for a race by Rust's own order, undefined, the name of another verdict or of a reason,
prints TEXT, or two lines of P.
mirace_show draw P N M
Writes the schedule that is drawn from number N alone, with at most M entries.
";

const OF_ORDERED: &[u8] = b"\
mirace_show order P S FIRST LAST
Runs the program in file P under the schedule in file S, and writes the way from step FIRST to the later
step LAST: step after step, each behind the one before it for the reason that is told: they are of one
thread, a thread was woken or started, or by a lock, a join, an allocation or what they load and store. Or
it says that nothing orders the two.
";

const OF_WITNESS: &[u8] = b"\
mirace_show witness P S J [short]
Runs the program in file P under the schedule in file S, and writes a schedule that brings the machine to
step J and the step with which it races, side by side, where it reports the data race. With short the
schedule has only the entries that the two steps need. Or it says that step J races with no earlier step, or
that an earlier race is in its way.
";

const OF_WHY: &[u8] = b"\
mirace_show why CODE
Writes what is said of the rule, the fault or the reason of undefined behaviour that has this number, or is
the first with this name: its name, a sentence, what usually causes it, what to do next, and the smallest example.
";

// The words behind which help is asked for, each with the text of its form.
const TEXTS: [(&str, &[u8]); 14] = [
    ("steps", OF_STEPS),
    ("json", OF_JSON),
    ("races", OF_RACES),
    ("rust", OF_RUST),
    ("picture", OF_PICTURE),
    ("next", OF_NEXT),
    ("check", OF_CHECK),
    ("fill", OF_FILL),
    ("halt", OF_FILL),
    ("hunt", OF_HUNT),
    ("draw", OF_HUNT),
    ("order", OF_ORDERED),
    ("witness", OF_WITNESS),
    ("why", OF_WHY),
];

// The text that stands beside a word in a table.
fn text_beside(table: &[(&'static str, &'static [u8])], word: &str) -> Option<&'static [u8]>
    ensures { option_copied result ≡ looked_up (map (λ e. (e.0.now, e.1.now)) table.now) word.now }
{
    for entry in table {
        if word == entry.0 {
            return Some(entry.1);
        }
    }
    None
}

/// The text of help with the form of a word.
pub(crate) fn help_with(word: &str) -> Option<&'static [u8]>
    ensures { option_copied result ≡ help_with word.now }
{
    text_beside(&TEXTS, word)
}

/// The text of help with all forms.
pub(crate) fn help_with_all() -> &'static [u8]
    ensures { result.now ≡ help_with_all }
{
    EVERYTHING
}
