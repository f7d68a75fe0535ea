//! What a name stands for: its place, or what a text defines.
ghost use Rattle.std.specs.Prelude.{◌≡◌, ◌<◌, ◌≤◌, ◌^◌, None, Some, IfOk, bytes_eq, if◌then◌else◌, length, true};
ghost use Rattle.std.specs.List.{position_or_len};
ghost use Rattle.std.specs.Option.{option_copied};
ghost use Rattle.mr_ast.specs.Limits.{max_items};
ghost use Rattle.mr_ast.specs.ProgramGrammar.{inside_function};
ghost use Rattle.mr_ast.specs.Scope.{all_names, as_function, as_global, each_once, function_names, is_number, item_names, name_number, name_target, names_of, number_in, number_of_name, target_of, used_in};
ghost use Rattle.mr_ast.specs.Words.{is_name};
ghost use Rattle.mr_words.specs.Defined.{knowing, unknown};
ghost use Rattle.mr_words.specs.Naming.{IsAmong, IsSmall, known_names};
ghost use Rattle.mr_words.specs.Numbers.{Numbers};

use crate::definitions::Definitions;
use crate::fault::{DOUBLE_NAME, UNKNOWN_NAME};
use crate::naming::{each_once, item_names, names_of, position, text_of};
use mr_ast::{FnName, GlobalName, Names, OutOfMemory, Role, Target, TextKey};
use std::alloc::Global;
use std::marker::Model;

/// The names that a text defines, each found by its hash: all of them, and those of the globals and functions. The hashes go by
/// the text's key.
#[derive(Drop)]
pub struct Tables<'a> {
    definitions: Definitions<'a>,
    key: TextKey,
    texts: Names,
    items: Names,
}

impl<'a> Model for Tables<'a> {
    ghost use Rattle.std.specs.Prelude.{◌≡◌};
    ghost use Rattle.mr_ast.specs.Scope.{Definitions as Known, each_once, item_names, names_of};
    ghost use Rattle.mr_words.specs.Naming.{IsSmall};

    ghost Value = { Known };

    ghost view = { λ t. t.definitions };

    ghost invariant = { λ t.
        IsSmall t.definitions × (t.texts ≡ names_of t.definitions) × (t.items ≡ each_once (item_names t.definitions)) };
}

impl<'a> Tables<'a> {
    /// The tables of what a text with this key defines.
    pub fn new(
        alloc: Global,
        key: TextKey,
        definitions: Definitions<'a>,
    ) -> Result<Tables<'a>, OutOfMemory>
        requires { IsSmall definitions }
        ensures { IfOk result (λ t. t ≡ definitions.entry) }
    {
        let texts = names_of(alloc, key, &definitions)?;
        let items = item_names(alloc, key, &definitions)?;
        Ok(Tables {
            definitions,
            key,
            texts,
            items,
        })
    }

    /// Each name once.
    pub fn into_names(self) -> Names
        ensures { result ≡ names_of self.entry }
    {
        self.texts
    }

    // How many globals there are.
    fn globals(&self) -> usize
        ensures count { result ≡ length self.now.globals }
        ensures few { result ≤ max_items }
    {
        self.definitions.globals().len()
    }

    // The names of a function's locals, each once.
    #[tactic(auto, unfolding(mr_ast::specs::Scope::each_once), using(crate::proofs::NamingLaws::no_function))]
    fn locals(&self, alloc: Global, k: u32) -> Result<Names, OutOfMemory>
        ensures { IfOk result (λ names. names ≡ each_once (function_names self.now k).locals) }
    {
        match self.definitions.functions().get(k as usize) {
            Some(function) => each_once(alloc, self.key, function.locals()),
            None => Ok(Names::new(alloc)),
        }
    }

    // The names of a function's blocks, each once.
    #[tactic(auto, unfolding(mr_ast::specs::Scope::each_once), using(crate::proofs::NamingLaws::no_function))]
    fn blocks(&self, alloc: Global, k: u32) -> Result<Names, OutOfMemory>
        ensures { IfOk result (λ names. names ≡ each_once (function_names self.now k).blocks) }
    {
        match self.definitions.functions().get(k as usize) {
            Some(function) => each_once(alloc, self.key, function.blocks()),
            None => Ok(Names::new(alloc)),
        }
    }

    // The number of a global or function among both.
    fn item(&self, text: &str) -> Option<u32>
        ensures { result ≡ number_in (item_names self.now) text.now }
    {
        position(&self.items, text)
    }

    // The number of a name that is defined, where it is the first of this name in its space.
    fn defined(&self, text: &str, is_first: bool) -> Result<u32, u8>
        requires { is_first ≡ true → IsAmong (all_names self.now) text.now }
        ensures { Numbers result (
          position_or_len (bytes_eq text.now) (names_of self.now),
          if is_first then None
              else Some 6,
        ) }
    {
        if !is_first {
            return Err(DOUBLE_NAME);
        }
        match position(&self.texts, text) {
            Some(number) => Ok(number),
            None => unreachable!(),
        }
    }
}

/// What names stand for: their places, or what a text defines; and in which function.
#[derive(Drop)]
pub struct Scope<'a> {
    known: Option<&'a Tables<'a>>,
    function: u32,
    locals: Names,
    blocks: Names,
}

impl<'a> Model for Scope<'a> {
    ghost use Rattle.std.specs.Prelude.{◌≡◌};
    ghost use Rattle.std.specs.Option.{option_copied};
    ghost use Rattle.mr_ast.specs.Scope.{Scope as Known, each_once};
    ghost use Rattle.mr_words.specs.Naming.{known_names};

    ghost Value = { Known };

    ghost view = { λ s. record { known = option_copied s.known; function = s.function } };

    ghost invariant = { λ s.
        (s.locals ≡ each_once (known_names (option_copied s.known) s.function).locals)
        × (s.blocks ≡ each_once (known_names (option_copied s.known) s.function).blocks) };
}

// The number of a global, among those of globals and functions.
fn as_global(globals: usize, found: Option<u32>) -> Result<u32, u8>
    ensures { Numbers result (used_in (as_global globals found)) }
{
    match found {
        Some(n) if (n as usize) < globals => Ok(n),
        _ => Err(UNKNOWN_NAME),
    }
}

// The number of a function, among those of globals and functions.
fn as_function(globals: usize, found: Option<u32>) -> Result<u32, u8>
    ensures { Numbers result (used_in (as_function globals found)) }
{
    match found {
        Some(n) if n as usize >= globals => Ok(n - globals as u32),
        _ => Err(UNKNOWN_NAME),
    }
}

// The global or function of a number among both.
fn target_of(globals: usize, found: Option<u32>) -> Result<Target, u8>
    ensures { Numbers result (target_of globals found) }
{
    match found {
        Some(n) if (n as usize) < globals => Ok(Target::Global(GlobalName(n))),
        Some(n) => Ok(Target::Function(FnName(n - globals as u32))),
        None => Err(UNKNOWN_NAME),
    }
}

fn used(found: Option<u32>) -> Result<u32, u8>
    ensures { Numbers result (used_in found) }
{
    found.ok_or(UNKNOWN_NAME)
}

fn is_number(k: usize, found: Option<u32>) -> bool
    ensures { result ≡ is_number k found }
{
    match found {
        Some(n) => n as usize == k,
        None => false,
    }
}

// The names of a function's locals, each once; none where they aren't known.
#[tactic(auto, unfolding(mr_ast::specs::Scope::each_once))]
fn locals_of(alloc: Global, known: Option<&Tables<'_>>, k: u32) -> Result<Names, OutOfMemory>
    ensures { IfOk result (λ names. names ≡ each_once (known_names (option_copied known.entry) k).locals) }
{
    match known {
        Some(tables) => tables.locals(alloc, k),
        None => Ok(Names::new(alloc)),
    }
}

// The names of a function's blocks, each once; none where they aren't known.
#[tactic(auto, unfolding(mr_ast::specs::Scope::each_once))]
fn blocks_of(alloc: Global, known: Option<&Tables<'_>>, k: u32) -> Result<Names, OutOfMemory>
    ensures { IfOk result (λ names. names ≡ each_once (known_names (option_copied known.entry) k).blocks) }
{
    match known {
        Some(tables) => tables.blocks(alloc, k),
        None => Ok(Names::new(alloc)),
    }
}

impl<'a> Scope<'a> {
    /// Names stand for their places.
    #[tactic(auto, unfolding(mr_ast::specs::Scope::each_once))]
    pub fn unknown(alloc: Global) -> Scope<'a>
        ensures { result ≡ unknown }
    {
        Scope {
            known: None,
            function: 0,
            locals: Names::new(alloc),
            blocks: Names::new(alloc),
        }
    }

    /// Names stand for what a text defines.
    pub fn knowing(alloc: Global, tables: &'a Tables<'a>) -> Result<Scope<'a>, OutOfMemory>
        ensures { IfOk result (λ s. s ≡ knowing tables.now) }
    {
        Scope::of(alloc, Some(tables), 0)
    }

    /// The same, in the function of this number.
    pub fn inside(&self, alloc: Global, k: u32) -> Result<Scope<'a>, OutOfMemory>
        ensures { IfOk result (λ s. s ≡ inside_function k self.now) }
    {
        Scope::of(alloc, self.known, k)
    }

    fn of(
        alloc: Global,
        known: Option<&'a Tables<'a>>,
        function: u32,
    ) -> Result<Scope<'a>, OutOfMemory>
        ensures { IfOk result (λ s. s ≡ record { known = option_copied known.entry; function = function }) }
    {
        let locals = locals_of(alloc, known, function)?;
        let blocks = blocks_of(alloc, known, function)?;
        Ok(Scope {
            known,
            function,
            locals,
            blocks,
        })
    }

    // The number of a local of the function.
    fn local(&self, text: &str) -> Option<u32>
        ensures { result ≡ number_in (known_names self.now.known self.now.function).locals text.now }
    {
        position(&self.locals, text)
    }

    // The number of a block of the function.
    fn block(&self, text: &str) -> Option<u32>
        ensures { result ≡ number_in (known_names self.now.known self.now.function).blocks text.now }
    {
        position(&self.blocks, text)
    }

    /// The number of what a name stands for, or the code of its fault.
    pub fn number(&self, role: Role, text: &[u8], place: usize) -> Result<u32, u8>
        requires name { is_name text.now ≡ true }
        requires place { place < 2 ^ 32 }
        ensures { Numbers result (name_number self.now role (record { text = text.now; place = place })) }
    {
        match self.known {
            Some(tables) => self.number_in(tables, role, text_of(text)),
            None => Ok(place as u32),
        }
    }

    // The same where the text's definitions are known.
    fn number_in(&self, tables: &Tables<'a>, role: Role, text: &str) -> Result<u32, u8>
        requires { self.now.known ≡ Some tables.now }
        ensures { Numbers result (number_of_name tables.now self.now.function role text.now) }
    {
        let globals = tables.globals();
        match role {
            Role::DefinesGlobal(k) => {
                tables.defined(text, is_number(k as usize, tables.item(text)))
            }
            Role::DefinesFunction(k) => {
                tables.defined(text, is_number(globals + k as usize, tables.item(text)))
            }
            Role::DefinesLocal(k) => {
                tables.defined(text, is_number(k as usize, self.local(text)))
            }
            Role::DefinesBlock(k) => {
                tables.defined(text, is_number(k as usize, self.block(text)))
            }
            Role::UsesGlobal => as_global(globals, tables.item(text)),
            Role::UsesFunction => as_function(globals, tables.item(text)),
            Role::UsesLocal => used(self.local(text)),
            Role::UsesBlock => used(self.block(text)),
        }
    }

    /// The global or function that a name stands for, or the code of its fault.
    pub fn target(&self, text: &[u8], place: usize) -> Result<Target, u8>
        requires name { is_name text.now ≡ true }
        requires place { place < 2 ^ 32 }
        ensures { Numbers result (name_target self.now (record { text = text.now; place = place })) }
    {
        match self.known {
            Some(tables) => target_of(tables.globals(), tables.item(text_of(text))),
            None => Ok(Target::Global(GlobalName(place as u32))),
        }
    }
}
