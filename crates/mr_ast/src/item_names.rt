//! The names of what stands in a program.
ghost use Rattle.std.specs.Prelude.{◌≡◌};
ghost use Rattle.mr_ast.specs.Canon.{block_texts, function_texts, global_texts, local_texts};
ghost use Rattle.mr_ast.specs.CanonValues.{text_at};

use crate::program::{BlockName, FnName, Function, GlobalName, LocalName, Program};

/// The name of what stands at a position; the empty text where nothing stands there.
#[tactic(auto, using(crate::proofs::ItemNameLaws::text_missing))]
impl Program {
    /// The name of a global.
    pub fn global_name(&self, name: GlobalName) -> &str
        ensures { result.now ≡ text_at (global_texts self.now) name.0 }
    {
        match self.globals.get(name.0 as usize) {
            Some(global) => self.names.text_or_empty(global.name),
            None => "",
        }
    }

    /// The name of a function.
    pub fn function_name(&self, name: FnName) -> &str
        ensures { result.now ≡ text_at (function_texts self.now) name.0 }
    {
        match self.functions.get(name.0 as usize) {
            Some(function) => self.names.text_or_empty(function.name),
            None => "",
        }
    }

    /// The name of a local of a function.
    pub fn local_name(&self, function: &Function, name: LocalName) -> &str
        ensures { result.now ≡ text_at (local_texts self.now function.now) name.0 }
    {
        match function.locals.get(name.0 as usize) {
            Some(local) => self.names.text_or_empty(local.name),
            None => "",
        }
    }

    /// The name of a block of a function.
    pub fn block_name(&self, function: &Function, name: BlockName) -> &str
        ensures { result.now ≡ text_at (block_texts self.now function.now) name.0 }
    {
        match function.blocks.get(name.0 as usize) {
            Some(block) => self.names.text_or_empty(block.name),
            None => "",
        }
    }
}
