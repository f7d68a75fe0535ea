//! The words of statements and terminators.
ghost use Rattle.std.specs.Prelude.{◌≡◌, ◌∷◌, [], OnOk, flat_map};
ghost use Rattle.mr_ast.specs.CanonValues.{text_at, words_of_place};
ghost use Rattle.mr_ast.specs.Canon.{arguments, block_texts, intrinsic_word, local_texts, optional_block, optional_result, target_words, texts_in, words_of_stmt, words_of_term};
ghost use Rattle.mr_print.specs.Appends.{with_words};
ghost use Rattle.mr_print.specs.Calls.{call_words, do_words};

use crate::OutOfMemory;
use crate::values::{print_place, print_value, print_values};
use crate::words::{signed, word};
use mr_ast::{BlockName, Function, Intrinsic, LocalName, Num, Place, Program, Stmt, Term, Value};

// Writes the words of a statement, without its semicolon.
#[tactic(auto, unfolding(mr_ast::specs::Canon::words_of_stmt))]
pub(crate) fn print_stmt(
    program: &Program,
    function: &Function,
    stmt: &Stmt,
    text: &mut Vec<u8>,
) -> Result<(), OutOfMemory>
    ensures { OnOk result
        (text.new.items ≡ with_words text.old.items (words_of_stmt (texts_in program.now function.now) stmt.now)) }
{
    match stmt {
        Stmt::Live(local) => print_of_local(program, function, "live", *local, text),
        Stmt::Dead(local) => print_of_local(program, function, "dead", *local, text),
        Stmt::Assign(place, value) => print_assign(program, function, place, value, text),
        Stmt::Mention(place) => print_behind(program, function, "mention", place, text),
        Stmt::Disc(place, n) => print_disc(program, function, place, *n, text),
        Stmt::Deinit(place) => print_behind(program, function, "deinit", place, text),
        Stmt::Validate(place) => print_behind(program, function, "validate", place, text),
    }
}

// Writes a word, and the name of a local.
#[tactic(auto, using(crate::proofs::AppendLaws::word_laws))]
fn print_of_local(
    program: &Program,
    function: &Function,
    head: &str,
    local: LocalName,
    text: &mut Vec<u8>,
) -> Result<(), OutOfMemory>
    ensures { OnOk result (text.new.items
        ≡ with_words text.old.items (head.now ∷ text_at (local_texts program.now function.now) local.0 ∷ [])) }
{
    word(head, text)?;
    word(program.local_name(function, local), text)
}

// Writes a word, and a place.
#[tactic(auto, using(crate::proofs::AppendLaws::word_laws))]
fn print_behind(
    program: &Program,
    function: &Function,
    head: &str,
    place: &Place,
    text: &mut Vec<u8>,
) -> Result<(), OutOfMemory>
    ensures { OnOk result (text.new.items
        ≡ with_words text.old.items (head.now ∷ words_of_place (texts_in program.now function.now) place.now)) }
{
    word(head, text)?;
    print_place(program, function, place, text)
}

#[tactic(auto, unfolding(mr_ast::specs::Canon::words_of_stmt), using(crate::proofs::AppendLaws::word_laws))]
fn print_assign(
    program: &Program,
    function: &Function,
    place: &Place,
    value: &Value,
    text: &mut Vec<u8>,
) -> Result<(), OutOfMemory>
    ensures { OnOk result (text.new.items ≡ with_words text.old.items
        (words_of_stmt (texts_in program.now function.now) (Stmt.Assign place.now value.now))) }
{
    print_place(program, function, place, text)?;
    word("=", text)?;
    print_value(program, function, value, text)
}

#[tactic(auto, unfolding(mr_ast::specs::Canon::words_of_stmt), using(crate::proofs::AppendLaws::word_laws))]
fn print_disc(
    program: &Program,
    function: &Function,
    place: &Place,
    n: Num,
    text: &mut Vec<u8>,
) -> Result<(), OutOfMemory>
    ensures { OnOk result (text.new.items
        ≡ with_words text.old.items (words_of_stmt (texts_in program.now function.now) (Stmt.Disc place.now n))) }
{
    word("disc", text)?;
    print_place(program, function, place, text)?;
    word("=", text)?;
    signed(n, text)
}

// Writes the words of a terminator, without its semicolon.
#[tactic(auto, unfolding(mr_ast::specs::Canon::words_of_term, crate::specs::Calls::call_words, crate::specs::Calls::do_words), using(crate::proofs::AppendLaws::word_laws))]
pub(crate) fn print_term(
    program: &Program,
    function: &Function,
    term: &Term,
    text: &mut Vec<u8>,
) -> Result<(), OutOfMemory>
    ensures { OnOk result
        (text.new.items ≡ with_words text.old.items (words_of_term (texts_in program.now function.now) term.now)) }
{
    match term {
        Term::Goto(to) => print_of_block(program, function, "goto", *to, text),
        Term::Switch(value, cases, other) => {
            print_switch(program, function, value, cases.as_slice(), *other, text)
        }
        Term::Unreachable => word("unreachable", text),
        Term::Return => word("return", text),
        Term::Exit => word("exit", text),
        Term::Abort => word("abort", text),
        Term::Resume => word("resume", text),
        Term::Stop(to) => print_stop(program, function, *to, text),
        Term::Unwind(payload, to) => print_unwind(program, function, payload, *to, text),
        Term::Call(callee, args, place, next, unwind) => {
            print_call(program, function, callee, args.as_slice(), place, text)?;
            print_optional(program, function, "to", *next, text)?;
            print_optional(program, function, "unwind", *unwind, text)
        }
        Term::Do(intrinsic, args, place, next) => {
            print_do(program, function, *intrinsic, args.as_slice(), place, text)?;
            print_of_block(program, function, "to", *next, text)
        }
    }
}

// Writes a word, and the name of a block.
#[tactic(auto, using(crate::proofs::AppendLaws::word_laws))]
fn print_of_block(
    program: &Program,
    function: &Function,
    head: &str,
    block: BlockName,
    text: &mut Vec<u8>,
) -> Result<(), OutOfMemory>
    ensures { OnOk result (text.new.items
        ≡ with_words text.old.items (head.now ∷ text_at (block_texts program.now function.now) block.0 ∷ [])) }
{
    word(head, text)?;
    word(program.block_name(function, block), text)
}

#[tactic(auto, unfolding(mr_ast::specs::Canon::words_of_term), using(crate::proofs::AppendLaws::word_laws))]
fn print_stop(
    program: &Program,
    function: &Function,
    to: BlockName,
    text: &mut Vec<u8>,
) -> Result<(), OutOfMemory>
    ensures { OnOk result (text.new.items
        ≡ with_words text.old.items (words_of_term (texts_in program.now function.now) (Term.Stop to))) }
{
    word("stop", text)?;
    print_of_block(program, function, "to", to, text)
}

#[tactic(auto, unfolding(mr_ast::specs::Canon::words_of_term), using(crate::proofs::AppendLaws::word_laws))]
fn print_unwind(
    program: &Program,
    function: &Function,
    payload: &Value,
    to: BlockName,
    text: &mut Vec<u8>,
) -> Result<(), OutOfMemory>
    ensures { OnOk result (text.new.items
        ≡ with_words text.old.items (words_of_term (texts_in program.now function.now) (Term.Unwind payload.now to))) }
{
    word("unwind", text)?;
    print_value(program, function, payload, text)?;
    print_of_block(program, function, "to", to, text)
}

#[tactic(auto, unfolding(mr_ast::specs::Canon::words_of_term), using(crate::proofs::AppendLaws::word_laws))]
fn print_switch(
    program: &Program,
    function: &Function,
    value: &Value,
    cases: &[(Num, BlockName)],
    other: BlockName,
    text: &mut Vec<u8>,
) -> Result<(), OutOfMemory>
    ensures { OnOk result (text.new.items ≡ with_words text.old.items
        (words_of_term (texts_in program.now function.now) (Term.Switch value.now cases.now other))) }
{
    word("switch", text)?;
    print_value(program, function, value, text)?;
    word("{", text)?;
    print_cases(program, function, cases, text)?;
    word("_", text)?;
    print_of_block(program, function, "=>", other, text)?;
    word("}", text)
}

#[tactic(auto, using(crate::proofs::AppendLaws::word_laws))]
fn print_cases(
    program: &Program,
    function: &Function,
    cases: &[(Num, BlockName)],
    text: &mut Vec<u8>,
) -> Result<(), OutOfMemory>
    ensures { OnOk result (text.new.items
        ≡ with_words text.old.items (flat_map (target_words (texts_in program.now function.now)) cases.now)) }
{
    for case in cases {
        print_case(program, function, *case, text)?;
    }
    Ok(())
}

#[tactic(auto, using(crate::proofs::AppendLaws::word_laws))]
fn print_case(
    program: &Program,
    function: &Function,
    case: (Num, BlockName),
    text: &mut Vec<u8>,
) -> Result<(), OutOfMemory>
    ensures { OnOk result
        (text.new.items ≡ with_words text.old.items (target_words (texts_in program.now function.now) case)) }
{
    signed(case.0, text)?;
    print_of_block(program, function, "=>", case.1, text)?;
    word(",", text)
}

// Writes the words of a call up to the place of its result.
#[tactic(auto, unfolding(crate::specs::Calls::call_words), using(crate::proofs::AppendLaws::word_laws))]
fn print_call(
    program: &Program,
    function: &Function,
    callee: &Value,
    args: &[Value],
    place: &Place,
    text: &mut Vec<u8>,
) -> Result<(), OutOfMemory>
    ensures { OnOk result (text.new.items
        ≡ with_words text.old.items (call_words (texts_in program.now function.now) callee.now args.now place.now)) }
{
    word("call", text)?;
    print_value(program, function, callee, text)?;
    print_arguments(program, function, args, text)?;
    word("->", text)?;
    print_place(program, function, place, text)
}

// Writes the words of an intrinsic's call up to the place of its result.
#[tactic(auto, unfolding(crate::specs::Calls::do_words), using(crate::proofs::AppendLaws::word_laws))]
fn print_do(
    program: &Program,
    function: &Function,
    intrinsic: Intrinsic,
    args: &[Value],
    place: &Option<Place>,
    text: &mut Vec<u8>,
) -> Result<(), OutOfMemory>
    ensures { OnOk result (text.new.items
        ≡ with_words text.old.items (do_words (texts_in program.now function.now) intrinsic args.now place.now)) }
{
    word("do", text)?;
    word(intrinsic_word(intrinsic), text)?;
    print_arguments(program, function, args, text)?;
    print_result(program, function, place, text)
}

// Writes values in round brackets.
#[tactic(auto, using(crate::proofs::AppendLaws::word_laws))]
fn print_arguments(
    program: &Program,
    function: &Function,
    args: &[Value],
    text: &mut Vec<u8>,
) -> Result<(), OutOfMemory>
    ensures { OnOk result
        (text.new.items ≡ with_words text.old.items (arguments (texts_in program.now function.now) args.now)) }
{
    word("(", text)?;
    print_values(program, function, args, text)?;
    word(")", text)
}

// Writes the place for a result, where there is one.
#[tactic(auto, using(crate::proofs::AppendLaws::word_laws))]
fn print_result(
    program: &Program,
    function: &Function,
    place: &Option<Place>,
    text: &mut Vec<u8>,
) -> Result<(), OutOfMemory>
    ensures { OnOk result
        (text.new.items ≡ with_words text.old.items (optional_result (texts_in program.now function.now) place.now)) }
{
    match place {
        None => Ok(()),
        Some(place) => print_behind(program, function, "->", place, text),
    }
}

// Writes a word and the name of a block, where there is one.
#[tactic(auto, using(crate::proofs::AppendLaws::word_laws))]
fn print_optional(
    program: &Program,
    function: &Function,
    head: &str,
    block: Option<BlockName>,
    text: &mut Vec<u8>,
) -> Result<(), OutOfMemory>
    ensures { OnOk result (text.new.items
        ≡ with_words text.old.items (optional_block (texts_in program.now function.now) head.now block)) }
{
    match block {
        None => Ok(()),
        Some(block) => print_of_block(program, function, head, block, text),
    }
}

fn intrinsic_word(intrinsic: Intrinsic) -> &'static str
    ensures { result.now ≡ intrinsic_word intrinsic }
{
    match intrinsic {
        Intrinsic::Assume => "assume",
        Intrinsic::Print => "print",
        Intrinsic::Allocate => "allocate",
        Intrinsic::Deallocate => "deallocate",
        Intrinsic::Spawn => "spawn",
        Intrinsic::Join => "join",
        Intrinsic::CreateLock => "create_lock",
        Intrinsic::Acquire => "acquire",
        Intrinsic::Release => "release",
        Intrinsic::AtomicStore => "atomic_store",
        Intrinsic::AtomicLoad => "atomic_load",
        Intrinsic::CompareExchange => "compare_exchange",
        Intrinsic::FetchAdd => "fetch_add",
        Intrinsic::FetchSub => "fetch_sub",
        Intrinsic::FetchAnd => "fetch_and",
        Intrinsic::FetchOr => "fetch_or",
        Intrinsic::FetchXor => "fetch_xor",
        Intrinsic::Payload => "payload",
    }
}
