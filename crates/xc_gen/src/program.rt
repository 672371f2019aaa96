//! From typed programs to code.

ghost use Rattle.std.specs.Prelude.{◌≡◌, None, IfOk, map};
ghost use Rattle.xc_tree_sizes.specs.Nodes.{IsSmall};
ghost use Rattle.xc_meaning.specs.Terms.{program_of};
ghost use Rattle.xc_gen.specs.Unbuilt.{unbuilt_of};
ghost use Rattle.xc_gen.specs.Globals.{cell_of, runs_of};
ghost use Rattle.xc_gen.specs.Faithful.{Faithful, NoStuck, Ends};

use crate::emit::emit_whole;
use sqlite_items::Items;
use std::alloc::{AllocError, Global};
use xc_isa::{Code, Run};
use xc_tree::{Object, Tree};
use xc_word::Cell;

fn cell_of(init: &[(u64, bool)]) -> Cell
    ensures { result ≡ cell_of init.now }
{
    match init.first() {
        Some((value, full)) => Cell {
            value: *value,
            full: *full,
        },
        None => Cell {
            value: 0,
            full: true,
        },
    }
}

fn runs_of(alloc: Global, global: &Object) -> Result<Items<Run>, AllocError>
    ensures { IfOk result (λ runs. runs ≡ runs_of global.now) }
{
    let cell = cell_of(global.init.as_slice());
    let mut runs = Items::new(alloc);
    runs.push(Run { count: 1, cell })?;
    Ok(runs)
}

fn all_runs(alloc: Global, globals: &[Object]) -> Result<Items<Items<Run>>, AllocError>
    ensures { IfOk result (λ all. all ≡ map runs_of globals.now) }
{
    let mut all = Items::new(alloc);
    for global in globals {
        all.push(runs_of(alloc, global)?)?;
    }
    Ok(all)
}

fn copies_of(alloc: Global, formats: &[Items<u8>]) -> Result<Items<Items<u8>>, AllocError>
    ensures { IfOk result (λ copies. copies ≡ formats.now) }
{
    let mut copies = Items::new(alloc);
    for format in formats {
        copies.push(Items::from_slice(alloc, format.as_slice())?)?;
    }
    Ok(copies)
}

/// The code of a small program whose forms all have code. Each run of it stands for a source run of the program; none gets
/// stuck or goes on for ever. An `Err` says that the host's memory is used up.
pub fn code_of(alloc: Global, tree: &Tree) -> Result<Code, AllocError>
    requires built { unbuilt_of tree.now ≡ None }
    requires small { IsSmall tree.now }
    ensures faithful { IfOk result (λ code. Faithful (program_of tree.now) code) }
    ensures no_stuck { IfOk result NoStuck }
    ensures ends { IfOk result (λ code. Ends (program_of tree.now) code) }
{
    let globals = all_runs(alloc, tree.globals.as_slice())?;
    let formats = copies_of(alloc, tree.formats.as_slice())?;
    let instrs = emit_whole(alloc, tree.main_func().body.get())?;
    Ok(Code {
        globals,
        formats,
        loops: Items::new(alloc),
        instrs,
    })
}
