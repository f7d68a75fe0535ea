//! Statements and terminators.
ghost use Rattle.std.specs.Prelude.{◌≡◌, codes, false};
ghost use Rattle.mr_ast.specs.declared.words.Bracket.TheVariants.{Curly, Round};
ghost use Rattle.mr_ast.specs.Forms.{Cases, Either, Part};
ghost use Rattle.mr_ast.specs.Writing.{ThePlace, TheValue, block_use, listed, num_form, optional, within, ◌▪◌, ◌▸◌};
ghost use Rattle.mr_ast.specs.ProgramGrammar.{assign_form, begins_stmt, call_form, numbered_form, do_form, is_stmt_word, judged_intrinsic, judged_stmt, judged_term, stmt_behind, stmt_form, stmts_form, switch_case_form, switch_cases_form, switch_form, term_behind, term_form, unwind_form, values_form};
ghost use Rattle.mr_parse.specs.ReaderGives.{Gives};
ghost use Rattle.mr_grammar.specs.Reading.{first_at, is_next, read};
ghost use Rattle.mr_parse.specs.Views.{call_end_form, called, called_behind, unwound, ways_form, ways_of};

use crate::{Reader, beside, pushed};
use mr_ast::{
    BlockName, Bracket, Intrinsic, Items, MAX_STMTS, Num, Place, Stmt, StmtWord, Term, TermWord,
    Value,
};
use mr_words::{
    EXPOSED, ReadFault, Scope, TOO_MANY, UNEXPECTED, intrinsic_of, is_exposed, is_name,
    stmt_word_of, term_word_of,
};
use std::alloc::Global;

// Where a call goes on: behind a return, and behind an unwinding.
#[derive(Clone, Copy)]
struct Ways {
    next: Option<BlockName>,
    unwind: Option<BlockName>,
}

fn is_statement_word_next(reader: &Reader<'_>) -> bool
    ensures { result ≡ is_next is_stmt_word reader.now }
{
    match reader.peek() {
        Some(next) => stmt_word_of(next.text).is_some(),
        None => false,
    }
}

fn is_statement_next(reader: &Reader<'_>) -> bool
    ensures { result ≡ is_next begins_stmt reader.now }
{
    match reader.peek() {
        Some(next) => {
            stmt_word_of(next.text).is_some() || reader.is_next(b"deref") || is_name(next.text)
        }
        None => false,
    }
}

#[tactic(auto, unfolding(mr_ast::specs::ProgramGrammar::judged_stmt))]
fn statement_word(reader: &mut Reader<'_>, over: bool) -> Result<StmtWord, ReadFault>
    ensures { Gives (λ w. (w, reader.new)) result (first_at (judged_stmt over) reader.old) }
{
    let found = match reader.peek() {
        Some(next) => stmt_word_of(next.text),
        None => None,
    };
    match found {
        Some(_) if over => Err(reader.stop(TOO_MANY)),
        Some(word) => {
            reader.advance();
            Ok(word)
        }
        None => Err(reader.stop(UNEXPECTED)),
    }
}

// The statement of number k in a block.
#[tactic(auto, unfolding(mr_ast::specs::ProgramGrammar::stmt_form))]
fn statement(
    reader: &mut Reader<'_>,
    alloc: Global,
    scope: &Scope,
    room: u32,
    k: usize,
) -> Result<Stmt, ReadFault>
    ensures { Gives (λ s. (s, reader.new)) result (read room scope.now (stmt_form k) reader.old) }
{
    match bare_statement(reader, alloc, scope, room, k >= MAX_STMTS) {
        Ok(stmt) => reader.followed(stmt, b";"),
        Err(fault) => Err(fault),
    }
}

// A statement without its end.
fn bare_statement(
    reader: &mut Reader<'_>,
    alloc: Global,
    scope: &Scope,
    room: u32,
    over: bool,
) -> Result<Stmt, ReadFault>
    ensures { Gives (λ s. (s, reader.new)) result (read room scope.now
        (Either is_stmt_word (Cases (λ _. judged_stmt over) stmt_behind) (assign_form over)) reader.old) }
{
    if !is_statement_word_next(reader) {
        return assignment(reader, alloc, scope, room, over);
    }
    let word = statement_word(reader, over)?;
    statement_behind(reader, alloc, scope, room, word)
}

// What stands behind the first word of a statement.
fn statement_behind(
    reader: &mut Reader<'_>,
    alloc: Global,
    scope: &Scope,
    room: u32,
    word: StmtWord,
) -> Result<Stmt, ReadFault>
    ensures { Gives (λ s. (s, reader.new)) result (read room scope.now (stmt_behind word) reader.old) }
{
    match word {
        StmtWord::Live => Ok(Stmt::Live(reader.local(scope)?)),
        StmtWord::Dead => Ok(Stmt::Dead(reader.local(scope)?)),
        StmtWord::Mention => Ok(Stmt::Mention(reader.place(alloc, scope, room, false)?)),
        StmtWord::Disc => discriminant(reader, alloc, scope, room),
        StmtWord::Deinit => Ok(Stmt::Deinit(reader.place(alloc, scope, room, false)?)),
        StmtWord::Validate => Ok(Stmt::Validate(reader.place(alloc, scope, room, false)?)),
    }
}

#[tactic(auto, unfolding(mr_ast::specs::ProgramGrammar::numbered_form))]
fn discriminant(
    reader: &mut Reader<'_>,
    alloc: Global,
    scope: &Scope,
    room: u32,
) -> Result<Stmt, ReadFault>
    ensures { Gives (λ s. (s, reader.new)) result
        (read room scope.now (numbered_form (λ p n. Stmt.Disc p n)) reader.old) }
{
    match reader.place(alloc, scope, room, false) {
        Ok(place) => match beside(place, assigned_number(reader, scope, room)) {
            Ok((place, number)) => Ok(Stmt::Disc(place, number)),
            Err(fault) => Err(fault),
        },
        Err(fault) => Err(fault),
    }
}

#[tactic(auto, unfolding(mr_ast::specs::ProgramGrammar::assign_form))]
fn assignment(
    reader: &mut Reader<'_>,
    alloc: Global,
    scope: &Scope,
    room: u32,
    over: bool,
) -> Result<Stmt, ReadFault>
    ensures { Gives (λ s. (s, reader.new)) result (read room scope.now (assign_form over) reader.old) }
{
    match reader.place(alloc, scope, room, over) {
        Ok(place) => match beside(place, assigned_value(reader, alloc, scope, room)) {
            Ok((place, value)) => Ok(Stmt::Assign(place, value)),
            Err(fault) => Err(fault),
        },
        Err(fault) => Err(fault),
    }
}

// A number behind `=`.
fn assigned_number(reader: &mut Reader<'_>, scope: &Scope, room: u32) -> Result<Num, ReadFault>
    ensures { Gives (λ n. (n, reader.new)) result (read room scope.now (codes "=" ▸ num_form) reader.old) }
{
    reader.expect(b"=")?;
    reader.num(scope, room)
}

// A value behind `=`.
fn assigned_value(
    reader: &mut Reader<'_>,
    alloc: Global,
    scope: &Scope,
    room: u32,
) -> Result<Value, ReadFault>
    ensures { Gives (λ v. (v, reader.new)) result (read room scope.now (codes "=" ▸ Part TheValue) reader.old) }
{
    reader.expect(b"=")?;
    reader.value(alloc, scope, room)
}

/// The statements of a block.
#[tactic(auto, unfolding(mr_ast::specs::ProgramGrammar::stmts_form))]
pub fn statements(
    reader: &mut Reader<'_>,
    alloc: Global,
    scope: &Scope,
    room: u32,
) -> Result<Items<Stmt>, ReadFault>
    ensures { Gives (λ ss. (ss, reader.new)) result (read room scope.now stmts_form reader.old) }
{
    let mut stmts = Items::new(alloc);
    let most = reader.left();
    for k in 0..most {
        if !is_statement_next(reader) {
            return Ok(stmts);
        }
        stmts.push(statement(reader, alloc, scope, room, k)?)?;
    }
    Ok(stmts)
}

#[tactic(auto, unfolding(mr_ast::specs::ProgramGrammar::judged_term))]
fn terminator_word(reader: &mut Reader<'_>) -> Result<TermWord, ReadFault>
    ensures { Gives (λ w. (w, reader.new)) result (first_at judged_term reader.old) }
{
    let found = match reader.peek() {
        Some(next) => term_word_of(next.text),
        None => None,
    };
    match found {
        Some(word) => {
            reader.advance();
            Ok(word)
        }
        None => Err(reader.stop(UNEXPECTED)),
    }
}

/// The end of a block.
#[tactic(auto, unfolding(mr_ast::specs::ProgramGrammar::term_form))]
pub fn terminator(
    reader: &mut Reader<'_>,
    alloc: Global,
    scope: &Scope,
    room: u32,
) -> Result<Term, ReadFault>
    ensures { Gives (λ t. (t, reader.new)) result (read room scope.now term_form reader.old) }
{
    let word = terminator_word(reader)?;
    match terminator_behind(reader, alloc, scope, room, word) {
        Ok(term) => reader.followed(term, b";"),
        Err(fault) => Err(fault),
    }
}

// What stands behind the first word of a terminator.
fn terminator_behind(
    reader: &mut Reader<'_>,
    alloc: Global,
    scope: &Scope,
    room: u32,
    word: TermWord,
) -> Result<Term, ReadFault>
    ensures { Gives (λ t. (t, reader.new)) result (read room scope.now (term_behind word) reader.old) }
{
    match word {
        TermWord::Goto => Ok(Term::Goto(reader.block_name(scope)?)),
        TermWord::Switch => switch(reader, alloc, scope, room),
        TermWord::Unreachable => Ok(Term::Unreachable),
        TermWord::Return => Ok(Term::Return),
        TermWord::Exit => Ok(Term::Exit),
        TermWord::Abort => Ok(Term::Abort),
        TermWord::Resume => Ok(Term::Resume),
        TermWord::Stop => Ok(Term::Stop(to_block(reader, scope)?)),
        TermWord::Unwind => unwind(reader, alloc, scope, room),
        TermWord::Call => call(reader, alloc, scope, room),
        TermWord::Do => intrinsic_call(reader, alloc, scope, room),
    }
}

#[tactic(auto, unfolding(mr_ast::specs::ProgramGrammar::switch_form))]
fn switch(
    reader: &mut Reader<'_>,
    alloc: Global,
    scope: &Scope,
    room: u32,
) -> Result<Term, ReadFault>
    ensures { Gives (λ t. (t, reader.new)) result (read room scope.now switch_form reader.old) }
{
    match reader.value(alloc, scope, room) {
        Ok(value) => match beside(value, braced_cases(reader, alloc, scope, room)) {
            Ok((value, (cases, other))) => Ok(Term::Switch(value, cases, other)),
            Err(fault) => Err(fault),
        },
        Err(fault) => Err(fault),
    }
}

// Where the numbers of a switch lead, in their braces.
#[tactic(auto, using(mr_grammar::proofs::Walk::InsideLaws::inside))]
fn braced_cases(
    reader: &mut Reader<'_>,
    alloc: Global,
    scope: &Scope,
    room: u32,
) -> Result<(Items<(Num, BlockName)>, BlockName), ReadFault>
    ensures { Gives (λ cs. (cs, reader.new)) result
        (read room scope.now (within Curly (switch_cases_form ▪ codes "_" ▸ codes "=>" ▸ block_use)) reader.old) }
{
    let inner = reader.open(Bracket::Curly, room)?;
    match all_switch_cases(reader, alloc, scope, inner) {
        Ok(cases) => reader.closed(cases, Bracket::Curly),
        Err(fault) => Err(fault),
    }
}

// Where some numbers lead, and where all others do.
fn all_switch_cases(
    reader: &mut Reader<'_>,
    alloc: Global,
    scope: &Scope,
    room: u32,
) -> Result<(Items<(Num, BlockName)>, BlockName), ReadFault>
    ensures { Gives (λ cs. (cs, reader.new)) result
        (read room scope.now (switch_cases_form ▪ codes "_" ▸ codes "=>" ▸ block_use) reader.old) }
{
    match switch_cases(reader, alloc, scope, room) {
        Ok(cases) => beside(cases, other_case(reader, scope)),
        Err(fault) => Err(fault),
    }
}

// Where all other numbers lead.
fn other_case(reader: &mut Reader<'_>, scope: &Scope) -> Result<BlockName, ReadFault>
    ensures { Gives (λ b. (b, reader.new)) result (read 0 scope.now (codes "_" ▸ codes "=>" ▸ block_use) reader.old) }
{
    reader.expect(b"_")?;
    reader.expect(b"=>")?;
    reader.block_name(scope)
}

// Where some numbers lead.
#[tactic(auto, unfolding(mr_ast::specs::ProgramGrammar::switch_cases_form))]
fn switch_cases(
    reader: &mut Reader<'_>,
    alloc: Global,
    scope: &Scope,
    room: u32,
) -> Result<Items<(Num, BlockName)>, ReadFault>
    ensures { Gives (λ cs. (cs, reader.new)) result (read room scope.now switch_cases_form reader.old) }
{
    let mut cases = Items::new(alloc);
    let most = reader.left();
    for _ in 0..most {
        if !reader.is_other(b"_") {
            return Ok(cases);
        }
        cases.push(switch_case(reader, scope, room)?)?;
    }
    Ok(cases)
}

#[tactic(auto, unfolding(mr_ast::specs::ProgramGrammar::switch_case_form))]
fn switch_case(
    reader: &mut Reader<'_>,
    scope: &Scope,
    room: u32,
) -> Result<(Num, BlockName), ReadFault>
    ensures { Gives (λ c. (c, reader.new)) result (read room scope.now switch_case_form reader.old) }
{
    let number = reader.num(scope, room)?;
    reader.expect(b"=>")?;
    let block = reader.block_name(scope)?;
    reader.expect(b",")?;
    Ok((number, block))
}

#[tactic(auto, unfolding(mr_ast::specs::ProgramGrammar::unwind_form))]
fn unwind(
    reader: &mut Reader<'_>,
    alloc: Global,
    scope: &Scope,
    room: u32,
) -> Result<Term, ReadFault>
    ensures { Gives (λ t. (t, reader.new)) result (read room scope.now unwind_form reader.old) }
{
    match reader.value(alloc, scope, room) {
        Ok(payload) => unwound(reader, scope, payload),
        Err(fault) => Err(fault),
    }
}

// The end of an unwinding behind its payload.
fn unwound(reader: &mut Reader<'_>, scope: &Scope, payload: Value) -> Result<Term, ReadFault>
    ensures { Gives (λ t. (t, reader.new)) result
        (unwound payload (read 0 scope.now (codes "to" ▸ block_use) reader.old)) }
{
    let block = to_block(reader, scope);
    match beside(payload, block) {
        Ok((payload, block)) => Ok(Term::Unwind(payload, block)),
        Err(fault) => Err(fault),
    }
}

// A block behind `to`.
fn to_block(reader: &mut Reader<'_>, scope: &Scope) -> Result<BlockName, ReadFault>
    ensures { Gives (λ b. (b, reader.new)) result (read 0 scope.now (codes "to" ▸ block_use) reader.old) }
{
    reader.expect(b"to")?;
    reader.block_name(scope)
}

// The arguments of a call, in their brackets.
#[tactic(auto, using(mr_grammar::proofs::Walk::InsideLaws::inside))]
fn values(
    reader: &mut Reader<'_>,
    alloc: Global,
    scope: &Scope,
    room: u32,
) -> Result<Items<Value>, ReadFault>
    ensures { Gives (λ vs. (vs, reader.new)) result (read room scope.now (listed Round values_form) reader.old) }
{
    let inner = reader.open(Bracket::Round, room)?;
    if !reader.is_other(b")") {
        reader.close(Bracket::Round)?;
        return Ok(Items::new(alloc));
    }
    match some_values(reader, alloc, scope, inner) {
        Ok(values) => reader.closed(values, Bracket::Round),
        Err(fault) => Err(fault),
    }
}

// One value or more, with commas between them.
#[tactic(auto, unfolding(mr_ast::specs::ProgramGrammar::values_form))]
fn some_values(
    reader: &mut Reader<'_>,
    alloc: Global,
    scope: &Scope,
    room: u32,
) -> Result<Items<Value>, ReadFault>
    ensures { Gives (λ vs. (vs, reader.new)) result (read room scope.now values_form reader.old) }
{
    let first = reader.value(alloc, scope, room)?;
    let mut values = Items::new(alloc);
    values.push(first)?;
    let most = reader.left();
    for _ in 0..most {
        if !reader.is_next(b",") {
            return Ok(values);
        }
        reader.expect(b",")?;
        values = pushed(values, reader.value(alloc, scope, room))?;
    }
    Ok(values)
}

// A block behind a word, where the word is there.
fn block_behind(
    reader: &mut Reader<'_>,
    scope: &Scope,
    room: u32,
    word: &[u8],
) -> Result<Option<BlockName>, ReadFault>
    ensures { Gives (λ b. (b, reader.new)) result (read room scope.now (optional word.now block_use) reader.old) }
{
    if !reader.is_next(word) {
        return Ok(None);
    }
    reader.expect(word)?;
    Ok(Some(reader.block_name(scope)?))
}

#[tactic(auto, unfolding(mr_ast::specs::ProgramGrammar::call_form))]
fn call(reader: &mut Reader<'_>, alloc: Global, scope: &Scope, room: u32) -> Result<Term, ReadFault>
    ensures { Gives (λ t. (t, reader.new)) result (read room scope.now call_form reader.old) }
{
    match reader.value(alloc, scope, room) {
        Ok(callee) => called(reader, alloc, scope, room, callee),
        Err(fault) => Err(fault),
    }
}

// What stands behind the callee of a call.
fn called(
    reader: &mut Reader<'_>,
    alloc: Global,
    scope: &Scope,
    room: u32,
    callee: Value,
) -> Result<Term, ReadFault>
    ensures { Gives (λ t. (t, reader.new)) result (called_behind room scope.now callee reader.old) }
{
    let args = values(reader, alloc, scope, room);
    match beside(callee, args) {
        Ok((callee, args)) => call_end(reader, alloc, scope, room, callee, args),
        Err(fault) => Err(fault),
    }
}

// What stands behind the arguments of a call.
fn call_end(
    reader: &mut Reader<'_>,
    alloc: Global,
    scope: &Scope,
    room: u32,
    callee: Value,
    args: Items<Value>,
) -> Result<Term, ReadFault>
    ensures { Gives (λ t. (t, reader.new)) result (called callee args (read room scope.now call_end_form reader.old)) }
{
    let end = place_and_ways(reader, alloc, scope, room);
    match beside((callee, args), end) {
        Ok(((callee, args), (place, ways))) => {
            Ok(Term::Call(callee, args, place, ways.next, ways.unwind))
        }
        Err(fault) => Err(fault),
    }
}

// The place of a call's result, and the blocks behind it.
fn place_and_ways(
    reader: &mut Reader<'_>,
    alloc: Global,
    scope: &Scope,
    room: u32,
) -> Result<(Place, Ways), ReadFault>
    ensures { Gives (λ e. ((e.0, ways_of e.1), reader.new)) result (read room scope.now call_end_form reader.old) }
{
    let place = place_behind(reader, alloc, scope, room);
    match place {
        Ok(place) => {
            let ways = ways_behind(reader, scope, room);
            beside(place, ways)
        }
        Err(fault) => Err(fault),
    }
}

// The blocks behind a call.
fn ways_behind(reader: &mut Reader<'_>, scope: &Scope, room: u32) -> Result<Ways, ReadFault>
    ensures { Gives (λ w. (ways_of w, reader.new)) result (read room scope.now ways_form reader.old) }
{
    let next = block_behind(reader, scope, room, b"to")?;
    let unwind = block_behind(reader, scope, room, b"unwind")?;
    Ok(Ways { next, unwind })
}

#[tactic(auto, unfolding(mr_ast::specs::ProgramGrammar::judged_intrinsic))]
fn intrinsic_word(reader: &mut Reader<'_>) -> Result<Intrinsic, ReadFault>
    ensures { Gives (λ w. (w, reader.new)) result (first_at judged_intrinsic reader.old) }
{
    let next = match reader.peek() {
        Some(next) => next,
        None => return Err(reader.stop(UNEXPECTED)),
    };
    if is_exposed(next.text) {
        return Err(reader.stop(EXPOSED));
    }
    match intrinsic_of(next.text) {
        Some(intrinsic) => {
            reader.advance();
            Ok(intrinsic)
        }
        None => Err(reader.stop(UNEXPECTED)),
    }
}

#[tactic(auto, unfolding(mr_ast::specs::ProgramGrammar::do_form))]
fn intrinsic_call(
    reader: &mut Reader<'_>,
    alloc: Global,
    scope: &Scope,
    room: u32,
) -> Result<Term, ReadFault>
    ensures { Gives (λ t. (t, reader.new)) result (read room scope.now do_form reader.old) }
{
    let intrinsic = intrinsic_word(reader)?;
    match values(reader, alloc, scope, room) {
        Ok(args) => match beside(args, place_and_next(reader, alloc, scope, room)) {
            Ok((args, (place, next))) => Ok(Term::Do(intrinsic, args, place, next)),
            Err(fault) => Err(fault),
        },
        Err(fault) => Err(fault),
    }
}

// The place of an intrinsic's result, where there is one, and the block behind it.
fn place_and_next(
    reader: &mut Reader<'_>,
    alloc: Global,
    scope: &Scope,
    room: u32,
) -> Result<(Option<Place>, BlockName), ReadFault>
    ensures { Gives (λ e. (e, reader.new)) result
        (read room scope.now (optional (codes "->") (Part (ThePlace false)) ▪ codes "to" ▸ block_use) reader.old) }
{
    match result_place(reader, alloc, scope, room) {
        Ok(place) => beside(place, to_block(reader, scope)),
        Err(fault) => Err(fault),
    }
}

// The place of a result, where there is one.
fn result_place(
    reader: &mut Reader<'_>,
    alloc: Global,
    scope: &Scope,
    room: u32,
) -> Result<Option<Place>, ReadFault>
    ensures { Gives (λ p. (p, reader.new)) result
        (read room scope.now (optional (codes "->") (Part (ThePlace false))) reader.old) }
{
    if !reader.is_next(b"->") {
        return Ok(None);
    }
    Ok(Some(place_behind(reader, alloc, scope, room)?))
}

// A place behind an arrow.
fn place_behind(
    reader: &mut Reader<'_>,
    alloc: Global,
    scope: &Scope,
    room: u32,
) -> Result<Place, ReadFault>
    ensures { Gives (λ p. (p, reader.new)) result
        (read room scope.now (codes "->" ▸ Part (ThePlace false)) reader.old) }
{
    reader.expect(b"->")?;
    reader.place(alloc, scope, room, false)
}
