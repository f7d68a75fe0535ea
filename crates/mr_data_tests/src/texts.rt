//! Programs whose main function has locals of a test's types.
use mr_ast::{OutOfMemory, Program, Ty};
use std::alloc::Global;
use std::string::String;

const HEAD: &str = "minirust 1 fn main() -> r { let r: unit";

const TAIL: &str = "; b0 regular: exit; } main main";

/// The text of a program whose main function has a local of each of the types, behind its first, which is a unit.
pub fn program_of(alloc: Global, types: &[&str]) -> Result<String, OutOfMemory> {
    let mut text = String::from_str(alloc, HEAD)?;
    for (n, ty) in types.iter().enumerate() {
        write!(text, ", x{n}: {ty}")?;
    }
    text.push_str(TAIL)?;
    Ok(text)
}

/// The type of the main function's local with this number, counted from 0.
pub fn type_of(program: &Program, n: usize) -> Option<&Ty> {
    let function = program.functions.as_slice().get(0)?;
    let local = function.locals.as_slice().get(n)?;
    Some(&local.ty)
}
