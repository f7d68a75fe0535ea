//! The words of places and values.
ghost use Rattle.std.specs.Prelude.{◌≡◌, ◌∷◌, ◌++◌, [], OnOk, codes, decimal, flat_map, map};
ghost use Rattle.mr_ast.specs.CanonTypes.{int_word, num_words, with_commas};
ghost use Rattle.mr_ast.specs.CanonValues.{binary_word, text_at, unary_word, words_of_place, words_of_value};
ghost use Rattle.mr_ast.specs.Canon.{function_texts, global_texts, texts_in};
ghost use Rattle.mr_print.specs.Appends.{with_words};

use crate::OutOfMemory;
use crate::types::print_type;
use crate::words::{comma, int_type, number, opened, signed, word};
use mr_ast::{
    BinaryOp, FnName, Function, GlobalName, IntType, Num, Place, Program, Ty, UnaryOp, Value,
};

// Writes the words of a place.
#[cycle(print_value)]
#[tactic(auto, using(crate::proofs::ValueLaws::place_laws))]
pub(crate) fn print_place(
    program: &Program,
    function: &Function,
    place: &Place,
    text: &mut Vec<u8>,
) -> Result<(), OutOfMemory>
    ensures { OnOk result
        (text.new.items ≡ with_words text.old.items (words_of_place (texts_in program.now function.now) place.now)) }
{
    match place {
        Place::Local(local) => word(program.local_name(function, *local), text),
        Place::Deref(pointer, ty) => print_deref(program, function, pointer.get(), ty, text),
        Place::Field(whole, field) => {
            print_place(program, function, whole.get(), text)?;
            print_field(*field, text)
        }
        Place::Index(array, index) => {
            print_place(program, function, array.get(), text)?;
            print_index(program, function, index.get(), text)
        }
        Place::Variant(whole, variant) => {
            print_place(program, function, whole.get(), text)?;
            print_variant_of(*variant, text)
        }
    }
}

// Writes the postfixes of a place.
#[tactic(auto, using(crate::proofs::AppendLaws::word_laws))]
fn print_field(field: u64, text: &mut Vec<u8>) -> Result<(), OutOfMemory>
    ensures { OnOk result (text.new.items ≡ with_words text.old.items (codes "." ∷ decimal field ∷ [])) }
{
    word(".", text)?;
    number(field, text)
}

#[tactic(auto, using(crate::proofs::AppendLaws::word_laws))]
fn print_variant_of(variant: Num, text: &mut Vec<u8>) -> Result<(), OutOfMemory>
    ensures { OnOk result (text.new.items ≡ with_words text.old.items (codes "@" ∷ num_words variant)) }
{
    word("@", text)?;
    signed(variant, text)
}

#[cycle(print_value)]
#[tactic(auto, using(crate::proofs::AppendLaws::word_laws))]
fn print_index(
    program: &Program,
    function: &Function,
    index: &Value,
    text: &mut Vec<u8>,
) -> Result<(), OutOfMemory>
    ensures { OnOk result (text.new.items ≡ with_words text.old.items
        (codes "[" ∷ words_of_value (texts_in program.now function.now) index.now ++ codes "]" ∷ [])) }
{
    word("[", text)?;
    print_value(program, function, index, text)?;
    word("]", text)
}

#[cycle(print_value)]
#[tactic(auto, using(crate::proofs::ValueLaws::written_deref))]
fn print_deref(
    program: &Program,
    function: &Function,
    pointer: &Value,
    ty: &Ty,
    text: &mut Vec<u8>,
) -> Result<(), OutOfMemory>
    ensures { OnOk result (text.new.items ≡ with_words text.old.items
        (words_of_place (texts_in program.now function.now) (Place.Deref pointer.now ty.now))) }
{
    opened("deref", text)?;
    print_value(program, function, pointer, text)?;
    word(",", text)?;
    print_type(ty, text)?;
    word(")", text)
}

// Writes the words of a value.
#[cycle(print_value)]
#[tactic(auto, using(crate::proofs::ValueLaws::value_laws))]
pub(crate) fn print_value(
    program: &Program,
    function: &Function,
    value: &Value,
    text: &mut Vec<u8>,
) -> Result<(), OutOfMemory>
    ensures { OnOk result
        (text.new.items ≡ with_words text.old.items (words_of_value (texts_in program.now function.now) value.now)) }
{
    match value {
        Value::Int(int, n) => print_int(*int, *n, text),
        Value::True => word("true", text),
        Value::False => word("false", text),
        Value::Raw(address) => print_raw(*address, text),
        Value::Fn(name) => print_function(program, *name, text),
        Value::Global(name, offset) => print_global(program, *name, *offset, text),
        Value::Tuple(ty, values) => print_tuple(program, function, values.as_slice(), ty, text),
        Value::Union(ty, field, value) => print_union(
            program,
            function,
            value.get(),
            ty,
            *field,
            text,
        ),
        Value::Variant(ty, n, value) => print_variant(program, function, value.get(), ty, *n, text),
        Value::Load(place) => print_of_place(program, function, "load", place, text),
        Value::Disc(place) => print_of_place(program, function, "disc", place, text),
        Value::AddrOf(ty, place) => print_address(program, function, place, ty, text),
        Value::Cast(int, value) => print_cast(program, function, *int, value.get(), text),
        Value::Transmute(ty, value) => print_transmute(program, function, value.get(), ty, text),
        Value::Unary(operator, value) => print_unary(
            program,
            function,
            *operator,
            value.get(),
            text,
        ),
        Value::Binary(operator, left, right) => {
            print_left(program, function, left.get(), *operator, text)?;
            print_right(program, function, right.get(), text)
        }
    }
}

#[tactic(auto, using(crate::proofs::AppendLaws::word_laws))]
fn print_int(int: IntType, n: Num, text: &mut Vec<u8>) -> Result<(), OutOfMemory>
    ensures { OnOk result (text.new.items ≡ with_words text.old.items (int_word int ∷ num_words n)) }
{
    int_type(int, text)?;
    signed(n, text)
}

#[tactic(auto, using(crate::proofs::AppendLaws::word_laws))]
fn print_raw(address: u64, text: &mut Vec<u8>) -> Result<(), OutOfMemory>
    ensures { OnOk result (text.new.items ≡ with_words text.old.items (codes "raw" ∷ decimal address ∷ [])) }
{
    word("raw", text)?;
    number(address, text)
}

#[tactic(auto, using(crate::proofs::AppendLaws::word_laws))]
fn print_function(program: &Program, name: FnName, text: &mut Vec<u8>) -> Result<(), OutOfMemory>
    ensures { OnOk result
        (text.new.items ≡ with_words text.old.items (codes "fn" ∷ text_at (function_texts program.now) name.0 ∷ [])) }
{
    word("fn", text)?;
    word(program.function_name(name), text)
}

#[tactic(auto, using(crate::proofs::AppendLaws::word_laws))]
fn print_global(
    program: &Program,
    name: GlobalName,
    offset: u64,
    text: &mut Vec<u8>,
) -> Result<(), OutOfMemory>
    ensures { OnOk result (text.new.items ≡ with_words text.old.items
        (codes "global" ∷ text_at (global_texts program.now) name.0 ∷ codes "+" ∷ decimal offset ∷ [])) }
{
    word("global", text)?;
    word(program.global_name(name), text)?;
    word("+", text)?;
    number(offset, text)
}

#[cycle(print_value)]
#[tactic(auto, using(crate::proofs::ValueLaws::written_tuple))]
fn print_tuple(
    program: &Program,
    function: &Function,
    values: &[Value],
    ty: &Ty,
    text: &mut Vec<u8>,
) -> Result<(), OutOfMemory>
    ensures { OnOk result (text.new.items ≡ with_words text.old.items
        (words_of_value (texts_in program.now function.now) (Value.Tuple ty.now values.now))) }
{
    opened("tuple", text)?;
    print_type(ty, text)?;
    print_parts(program, function, values, text)?;
    word(")", text)
}

// Writes each of the values behind a comma.
#[cycle(print_value)]
#[tactic(auto, using(crate::proofs::AppendLaws::word_laws))]
fn print_parts(
    program: &Program,
    function: &Function,
    values: &[Value],
    text: &mut Vec<u8>,
) -> Result<(), OutOfMemory>
    ensures { OnOk result (text.new.items ≡ with_words text.old.items
        (flat_map (λ v. codes "," ∷ words_of_value (texts_in program.now function.now) v) values.now)) }
{
    for value in values {
        print_part(program, function, value, text)?;
    }
    Ok(())
}

#[cycle(print_value)]
#[tactic(auto, using(crate::proofs::AppendLaws::word_laws))]
fn print_part(
    program: &Program,
    function: &Function,
    value: &Value,
    text: &mut Vec<u8>,
) -> Result<(), OutOfMemory>
    ensures { OnOk result (text.new.items
        ≡ with_words text.old.items (codes "," ∷ words_of_value (texts_in program.now function.now) value.now)) }
{
    word(",", text)?;
    print_value(program, function, value, text)
}

#[cycle(print_value)]
#[tactic(auto, using(crate::proofs::ValueLaws::written_union))]
fn print_union(
    program: &Program,
    function: &Function,
    value: &Value,
    ty: &Ty,
    field: u64,
    text: &mut Vec<u8>,
) -> Result<(), OutOfMemory>
    ensures { OnOk result (text.new.items ≡ with_words text.old.items
        (words_of_value (texts_in program.now function.now) (Value.Union ty.now field value.now))) }
{
    opened("union", text)?;
    print_type(ty, text)?;
    word(",", text)?;
    number(field, text)?;
    word(",", text)?;
    print_value(program, function, value, text)?;
    word(")", text)
}

#[cycle(print_value)]
#[tactic(auto, using(crate::proofs::ValueLaws::written_variant))]
fn print_variant(
    program: &Program,
    function: &Function,
    value: &Value,
    ty: &Ty,
    n: Num,
    text: &mut Vec<u8>,
) -> Result<(), OutOfMemory>
    ensures { OnOk result (text.new.items ≡ with_words text.old.items
        (words_of_value (texts_in program.now function.now) (Value.Variant ty.now n value.now))) }
{
    opened("variant", text)?;
    print_type(ty, text)?;
    word(",", text)?;
    signed(n, text)?;
    word(",", text)?;
    print_value(program, function, value, text)?;
    word(")", text)
}

// Writes a word, and a place in brackets.
#[cycle(print_value)]
#[tactic(auto, using(crate::proofs::AppendLaws::word_laws))]
fn print_of_place(
    program: &Program,
    function: &Function,
    head: &str,
    place: &Place,
    text: &mut Vec<u8>,
) -> Result<(), OutOfMemory>
    ensures { OnOk result (text.new.items ≡ with_words text.old.items
        (head.now ∷ codes "(" ∷ words_of_place (texts_in program.now function.now) place.now ++ codes ")" ∷ [])) }
{
    opened(head, text)?;
    print_place(program, function, place, text)?;
    word(")", text)
}

#[cycle(print_value)]
#[tactic(auto, using(crate::proofs::ValueLaws::written_addr_of))]
fn print_address(
    program: &Program,
    function: &Function,
    place: &Place,
    ty: &Ty,
    text: &mut Vec<u8>,
) -> Result<(), OutOfMemory>
    ensures { OnOk result (text.new.items ≡ with_words text.old.items
        (words_of_value (texts_in program.now function.now) (Value.AddrOf ty.now place.now))) }
{
    opened("addrof", text)?;
    print_type(ty, text)?;
    word(",", text)?;
    print_place(program, function, place, text)?;
    word(")", text)
}

#[cycle(print_value)]
#[tactic(auto, using(crate::proofs::ValueLaws::written_cast))]
fn print_cast(
    program: &Program,
    function: &Function,
    int: IntType,
    value: &Value,
    text: &mut Vec<u8>,
) -> Result<(), OutOfMemory>
    ensures { OnOk result (text.new.items
        ≡ with_words text.old.items (words_of_value (texts_in program.now function.now) (Value.Cast int value.now))) }
{
    opened("cast", text)?;
    int_type(int, text)?;
    word(",", text)?;
    print_value(program, function, value, text)?;
    word(")", text)
}

#[cycle(print_value)]
#[tactic(auto, using(crate::proofs::ValueLaws::written_transmute))]
fn print_transmute(
    program: &Program,
    function: &Function,
    value: &Value,
    ty: &Ty,
    text: &mut Vec<u8>,
) -> Result<(), OutOfMemory>
    ensures { OnOk result (text.new.items ≡ with_words text.old.items
        (words_of_value (texts_in program.now function.now) (Value.Transmute ty.now value.now))) }
{
    opened("transmute", text)?;
    print_type(ty, text)?;
    word(",", text)?;
    print_value(program, function, value, text)?;
    word(")", text)
}

#[cycle(print_value)]
#[tactic(auto, using(crate::proofs::ValueLaws::written_unary))]
fn print_unary(
    program: &Program,
    function: &Function,
    operator: UnaryOp,
    value: &Value,
    text: &mut Vec<u8>,
) -> Result<(), OutOfMemory>
    ensures { OnOk result (text.new.items ≡ with_words text.old.items
        (words_of_value (texts_in program.now function.now) (Value.Unary operator value.now))) }
{
    opened(unary_word(operator), text)?;
    print_value(program, function, value, text)?;
    word(")", text)
}

// Writes what stands before the second operand of an operator.
#[cycle(print_value)]
#[tactic(auto, using(crate::proofs::AppendLaws::word_laws))]
fn print_left(
    program: &Program,
    function: &Function,
    left: &Value,
    operator: BinaryOp,
    text: &mut Vec<u8>,
) -> Result<(), OutOfMemory>
    ensures { OnOk result (text.new.items ≡ with_words text.old.items (binary_word operator
        ∷ codes "(" ∷ words_of_value (texts_in program.now function.now) left.now ++ codes "," ∷ [])) }
{
    opened(binary_word(operator), text)?;
    print_value(program, function, left, text)?;
    word(",", text)
}

// Writes the second operand of an operator, and what stands behind it.
#[cycle(print_value)]
#[tactic(auto, using(crate::proofs::AppendLaws::word_laws))]
fn print_right(
    program: &Program,
    function: &Function,
    right: &Value,
    text: &mut Vec<u8>,
) -> Result<(), OutOfMemory>
    ensures { OnOk result (text.new.items
        ≡ with_words text.old.items (words_of_value (texts_in program.now function.now) right.now ++ codes ")" ∷ [])) }
{
    print_value(program, function, right, text)?;
    word(")", text)
}

// Writes values with a comma between two of them.
#[tactic(auto, using(crate::proofs::AppendLaws::word_laws))]
pub(crate) fn print_values(
    program: &Program,
    function: &Function,
    values: &[Value],
    text: &mut Vec<u8>,
) -> Result<(), OutOfMemory>
    ensures { OnOk result (text.new.items ≡ with_words text.old.items
        (with_commas (map (words_of_value (texts_in program.now function.now)) values.now))) }
{
    for i in 0..values.len() {
        comma(i, text)?;
        print_value(program, function, &values[i], text)?;
    }
    Ok(())
}

fn unary_word(operator: UnaryOp) -> &'static str
    ensures { result.now ≡ unary_word operator }
{
    match operator {
        UnaryOp::Neg => "neg",
        UnaryOp::Not => "not",
    }
}

fn binary_word(operator: BinaryOp) -> &'static str
    ensures { result.now ≡ binary_word operator }
{
    match operator {
        BinaryOp::Add => "add",
        BinaryOp::Sub => "sub",
        BinaryOp::Mul => "mul",
        BinaryOp::Div => "div",
        BinaryOp::Rem => "rem",
        BinaryOp::And => "and",
        BinaryOp::Or => "or",
        BinaryOp::Xor => "xor",
        BinaryOp::AddUnchecked => "add_unchecked",
        BinaryOp::SubUnchecked => "sub_unchecked",
        BinaryOp::MulUnchecked => "mul_unchecked",
        BinaryOp::AddOverflow => "add_overflow",
        BinaryOp::SubOverflow => "sub_overflow",
        BinaryOp::MulOverflow => "mul_overflow",
        BinaryOp::Shl => "shl",
        BinaryOp::Shr => "shr",
        BinaryOp::ShlUnchecked => "shl_unchecked",
        BinaryOp::ShrUnchecked => "shr_unchecked",
        BinaryOp::Eq => "eq",
        BinaryOp::Ne => "ne",
        BinaryOp::Lt => "lt",
        BinaryOp::Le => "le",
        BinaryOp::Gt => "gt",
        BinaryOp::Ge => "ge",
        BinaryOp::Offset => "offset",
        BinaryOp::WrappingOffset => "wrapping_offset",
    }
}
