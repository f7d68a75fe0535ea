//! The line of a rule of well-formedness that a program breaks.
ghost use Rattle.std.specs.Prelude.{◌≡◌, IfOk};
ghost use Rattle.mr_ast.specs.FormRules.{name_by_code};
ghost use Rattle.mr_input.specs.Answer.{form_answer, IsStatus, Tells};
ghost use Rattle.mr_input.specs.Form.{block_text, form_line, item_text};
ghost use Rattle.mr_input.specs.Inputs.{IsUnreadFault};

use crate::refusal::{Refusal, push_number};
use crate::written::Written;
use mr_ast::{BlockName, FnName, GlobalName, Program, Rule};
use mr_typing::{FormFault, Item};
use std::alloc::{AllocError, Global};

/// The line of a rule that a program breaks, and its status.
pub fn form_answer(alloc: Global, p: &Program, fault: FormFault) -> Result<Written, Refusal>
    ensures answer { Tells (form_answer p.now fault) result }
    ensures status { IfOk result (λ a. IsStatus a.status) }
    ensures read { ¬ IsUnreadFault result }
{
    let text = form_line(alloc, p, fault)?;
    Ok(Written { text, status: 4 })
}

// The line of a broken rule of a program, ended by LF.
fn form_line(alloc: Global, p: &Program, fault: FormFault) -> Result<Vec<u8>, AllocError>
    ensures { IfOk result (λ text. text.items ≡ form_line p.now fault) }
{
    let mut text = Vec::from_slice(alloc, b"form ")?;
    text.extend_from_slice(item_name(p, fault.item).as_bytes())?;
    text.push(b' ')?;
    text.extend_from_slice(block_name(p, fault.item, fault.block).as_bytes())?;
    text.push(b' ')?;
    push_number(&mut text, fault.place.into())?;
    text.push(b' ')?;
    push_number(&mut text, fault.code.into())?;
    text.push(b' ')?;
    text.extend_from_slice(rule_name(fault.code).as_bytes())?;
    text.push(b'\n')?;
    Ok(text)
}

// The name of what a broken rule stands in.
fn item_name(p: &Program, item: Item) -> &str
    ensures { result.now ≡ item_text p.now item }
{
    match item {
        Item::Static(number) => p.global_name(GlobalName(number)),
        Item::Function(number) => p.function_name(FnName(number)),
    }
}

// The name of the block that a broken rule stands in, and `-` outside blocks.
fn block_name(p: &Program, item: Item, block: Option<BlockName>) -> &str
    ensures { result.now ≡ block_text p.now item block }
{
    match (item, block) {
        (_, None) => "-",
        (Item::Static(_), Some(_)) => "",
        (Item::Function(number), Some(name)) => match p.functions.get(number as usize) {
            Some(function) => p.block_name(function, name),
            None => "",
        },
    }
}

// The name of a rule, by its code.
fn rule_name(code: u8) -> &'static str
    ensures { result.now ≡ name_by_code code }
{
    match Rule::of_code(code) {
        Some(rule) => rule.name(),
        None => "",
    }
}
