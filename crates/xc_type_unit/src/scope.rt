//! What stands at file scope.

ghost use Rattle.std.specs.Prelude.{◌≡◌, length, IfOk, OnOk};
ghost use Rattle.xc_type_unit.specs.Globals as globals;
ghost use Rattle.xc_type_unit.specs.Functions as functions;
ghost use Rattle.xc_type_unit.specs.Texts as texts;

use sqlite_items::Items;
use std::alloc::{AllocError, Global};
use xc_text_place::Span;
use xc_tree::{Func, Object, Ty};
use xc_type_scopes::Env;
use xc_type_statement_parts::followed;

/// What stands at file scope so far.
#[derive(Drop)]
pub struct FileScope {
    pub env: Env,
    /// The globals, each with its first cells.
    pub globals: Items<Object>,
    /// How many cells the globals have together; more than 2^22 count as 2^22 + 1.
    pub cells: u32,
    /// The number of functions that are defined.
    pub defined: u32,
    /// These functions in order, if each was made.
    pub funcs: Option<Items<Func>>,
}

// The most cells of all globals together.
const MOST_CELLS: u64 = 1 << 22;

/// Whether the globals may have so many cells together.
pub(crate) fn fits(cells: u32) -> bool
    ensures { result ≡ globals.fits cells }
{
    u64::from(cells) <= MOST_CELLS
}

fn over_at(cells: u32, at: Span) -> Option<u32>
    ensures { result ≡ globals.over_at cells at }
{
    if fits(cells) { None } else { Some(at.start) }
}

impl FileScope {
    /// Nothing is declared.
    pub(crate) fn new(alloc: Global) -> Result<FileScope, AllocError>
        ensures { IfOk result (λ r. r ≡ texts.empty) }
    {
        Ok(FileScope {
            env: Env::new(alloc)?,
            globals: Items::new(alloc),
            cells: 0,
            defined: 0,
            funcs: Some(Items::new(alloc)),
        })
    }

    /// The number of the next global. Past 2^32 - 1 globals the answer is want of memory.
    pub(crate) fn next_global(&self) -> Result<u32, AllocError>
        ensures { IfOk result (λ r. r ≡ length self.now.globals) }
    {
        let number = self.globals.len();
        if number > u32::MAX as usize {
            return Err(AllocError);
        }
        Ok(number as u32)
    }

    /// How many cells the globals have with one more of this type.
    #[tactic(auto, unfolding(crate::specs::Globals::cells_with))]
    pub(crate) fn cells_with(&self, ty: &Ty) -> u32
        ensures { result ≡ globals.cells_with ty.now self.now }
    {
        let all = u64::from(self.cells) + u64::from(self.env.structs().cells(ty));
        all.min(MOST_CELLS + 1) as u32
    }

    /// More functions, where so many are defined. Past 2^32 - 1 definitions the answer is want of memory.
    pub(crate) fn add_funcs(
        &mut self,
        defined: u32,
        funcs: Option<Items<Func>>,
    ) -> Result<(), AllocError>
        ensures { OnOk result (self.new ≡ (functions.with_funcs defined funcs self.old).scope) }
    {
        self.defined = self.defined.checked_add(defined).ok_or(AllocError)?;
        let before = std::mem::replace(&mut self.funcs, None);
        self.funcs = followed(before, funcs)?;
        Ok(())
    }

    /// The next global, with its first cells.
    #[tactic(auto, unfolding(crate::specs::Globals::with_object))]
    pub(crate) fn add_object(
        &mut self,
        at: Span,
        ty: Ty,
        init: Items<(u64, bool)>,
    ) -> Result<(), AllocError>
        ensures { OnOk result (self.new ≡ globals.with_object at ty init self.old) }
    {
        let cells = self.cells_with(&ty);
        self.env.pass(over_at(cells, at));
        self.cells = cells;
        Ok(self.globals.push(Object { name: at, ty, init })?)
    }
}
