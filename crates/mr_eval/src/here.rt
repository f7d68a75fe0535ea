//! What an evaluation stands in, as it is handed on.
use mr_ast::Local;
use mr_base::Pointer;
use mr_layout::Cache;
use mr_mem::Memory;
use std::alloc::Global;

/// Where an expression is evaluated: the memory, the layouts of the program's types, the locals of its function with the storage that
/// each has, and the pointers to the functions and the globals of the program.
#[derive(Clone, Copy)]
pub struct Here<'p> {
    pub alloc: Global,
    pub memory: &'p Memory,
    pub cache: &'p Cache<'p>,
    pub locals: &'p [Local],
    pub storage: &'p [Option<Pointer>],
    pub functions: &'p [Pointer],
    pub globals: &'p [Pointer],
}
