//! The rows of numbers by which equal types are found.
//!
//! The row of a type says what it is made of. A part that has parts itself stands in it as one number, its class: so
//! equal types have equal rows, and a row is as long as its type is wide, however deep the type is.
use crate::kinds::has_parts;
use mr_ast::{IntType, Num, OutOfMemory, Tag, Tree, Ty, Variant};
use std::alloc::Global;

// The row of a type, as far as it is written.
#[derive(Drop)]
struct Row<'c> {
    numbers: Vec<u128>,
    // The classes of the parts with parts that are still to come.
    classes: &'c [usize],
}

fn number_of(truth: bool) -> u128 {
    if truth { 1 } else { 0 }
}

impl<'c> Row<'c> {
    fn put(&mut self, numbers: &[u128]) -> Result<(), OutOfMemory> {
        self.numbers.extend_from_slice(numbers)
    }

    fn put_int(&mut self, int: IntType) -> Result<(), OutOfMemory> {
        self.put(&[u128::from(int.bits()), number_of(int.signed())])
    }

    fn put_number(&mut self, number: Num) -> Result<(), OutOfMemory> {
        self.put(&[number_of(number.neg), number.mag])
    }

    // The kind of a type, and what is written of it without its parts.
    fn put_kind(&mut self, t: &Ty) -> Result<(), OutOfMemory> {
        match t {
            Ty::Int(int) => {
                self.put(&[0])?;
                self.put_int(*int)
            }
            Ty::Bool => self.put(&[1]),
            Ty::Raw => self.put(&[2]),
            Ty::FnPtr => self.put(&[3]),
            Ty::Ref { size, align, never } => {
                self.put(&[4, u128::from(*size), u128::from(*align), number_of(*never)])
            }
            Ty::Tuple {
                size,
                align,
                fields,
            } => self.put_shape(5, *size, *align, fields.len()),
            Ty::Array { count, .. } => self.put(&[6, u128::from(*count)]),
            Ty::Union {
                size,
                align,
                fields,
                ..
            } => self.put_shape(7, *size, *align, fields.len()),
            Ty::Enum {
                size,
                align,
                variants,
                ..
            } => self.put_shape(8, *size, *align, variants.len()),
        }
    }

    fn put_shape(
        &mut self,
        kind: u128,
        size: u64,
        align: u64,
        parts: usize,
    ) -> Result<(), OutOfMemory> {
        self.put(&[kind, u128::from(size), u128::from(align), parts as u128])
    }

    // The class of the next part that has one.
    fn put_class(&mut self) -> Result<(), OutOfMemory> {
        let classes = self.classes;
        match classes {
            [class, rest @ ..] => {
                self.classes = rest;
                self.put(&[9, *class as u128])
            }
            [] => Ok(()),
        }
    }

    fn put_part(&mut self, t: &Ty) -> Result<(), OutOfMemory> {
        if has_parts(t) {
            return self.put_class();
        }
        self.put_kind(t)
    }

    fn put_fields(&mut self, fields: &[(u64, Ty)]) -> Result<(), OutOfMemory> {
        for field in fields {
            self.put(&[u128::from(field.0)])?;
            self.put_part(&field.1)?;
        }
        Ok(())
    }

    fn put_chunks(&mut self, chunks: &[(u64, u64)]) -> Result<(), OutOfMemory> {
        for chunk in chunks {
            self.put(&[u128::from(chunk.0), u128::from(chunk.1)])?;
        }
        Ok(())
    }

    fn put_tags(&mut self, tags: &[Tag]) -> Result<(), OutOfMemory> {
        self.put(&[tags.len() as u128])?;
        for tag in tags {
            self.put(&[u128::from(tag.at)])?;
            self.put_int(tag.int)?;
            self.put_number(tag.number)?;
        }
        Ok(())
    }

    // Each variant has a class, also one without parts.
    fn put_variants(&mut self, variants: &[Variant]) -> Result<(), OutOfMemory> {
        for variant in variants {
            self.put_number(variant.number)?;
            self.put_class()?;
            self.put_tags(variant.tags.as_slice())?;
        }
        Ok(())
    }

    #[cycle(put_tree)]
    fn put_tree(&mut self, tree: &Tree) -> Result<(), OutOfMemory> {
        match tree {
            Tree::Known(number) => {
                self.put(&[0])?;
                self.put_number(*number)
            }
            Tree::Invalid => self.put(&[1]),
            Tree::Branch(at, int, cases, rest) => {
                self.put(&[2, u128::from(*at), cases.len() as u128])?;
                self.put_int(*int)?;
                self.put_cases(cases.as_slice())?;
                self.put_tree(rest.get())
            }
        }
    }

    #[cycle(put_tree)]
    fn put_cases(&mut self, cases: &[(Num, Tree)]) -> Result<(), OutOfMemory> {
        for case in cases {
            self.put_number(case.0)?;
            self.put_tree(&case.1)?;
        }
        Ok(())
    }

    // What a type is made of, behind its kind.
    fn put_parts(&mut self, t: &Ty) -> Result<(), OutOfMemory> {
        match t {
            Ty::Tuple { fields, .. } => self.put_fields(fields.as_slice()),
            Ty::Array { elem, .. } => self.put_part(elem.get()),
            Ty::Union { fields, chunks, .. } => {
                self.put_fields(fields.as_slice())?;
                self.put_chunks(chunks.as_slice())
            }
            Ty::Enum {
                disc,
                variants,
                tree,
                ..
            } => {
                self.put_int(*disc)?;
                self.put_variants(variants.as_slice())?;
                self.put_tree(tree)
            }
            Ty::Int(_) | Ty::Bool | Ty::Raw | Ty::FnPtr | Ty::Ref { .. } => Ok(()),
        }
    }
}

/// The row of a type. The classes are those of its listed parts, and of what is listed behind them.
pub fn row_of(alloc: Global, t: &Ty, classes: &[usize]) -> Result<Vec<u128>, OutOfMemory> {
    let mut row = Row {
        numbers: Vec::new(alloc),
        classes,
    };
    row.put_kind(t)?;
    row.put_parts(t)?;
    Ok(row.numbers)
}
