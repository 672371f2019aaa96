//! The first cells of a global object.

ghost use Rattle.std.specs.Prelude.{◌≡◌, ◌++◌, replicate, IfOk, OnOk};
ghost use Rattle.xc_type_initialiser_objects.specs.Cells as spec;
ghost use Rattle.xc_type_initialiser_objects.specs.InnerCells as inner_spec;

use sqlite_items::Items;
use std::alloc::{AllocError, Global};

/// The first cells of an object, and how many cells that are full and 0 stand behind them.
#[derive(Drop)]
pub struct Laid {
    pub first: Items<(u64, bool)>,
    pub rest: u64,
}

/// No cells.
pub(crate) fn no_cells(alloc: Global) -> Laid
    ensures { result ≡ inner_spec.no_cells }
{
    Laid {
        first: Items::new(alloc),
        rest: 0,
    }
}

/// So many cells more that are full and 0, which take no memory yet.
pub(crate) fn skip(laid: &mut Laid, count: u64) -> Result<(), AllocError>
    ensures { OnOk result (laid.new ≡ inner_spec.with_fresh laid.old count) }
{
    if u64::MAX - laid.rest < count {
        return Err(AllocError);
    }
    laid.rest += count;
    Ok(())
}

fn push_rest(first: &mut Items<(u64, bool)>, count: u64) -> Result<(), AllocError>
    ensures { OnOk result (first.new ≡ first.old ++ replicate count spec.fresh) }
{
    'rest: for _ in 0..count {
        first.push((0, true))?;
    }
    Ok(())
}

/// One more cell.
#[tactic(auto, unfolding(crate::specs::InnerCells::with_cell))]
pub(crate) fn put(laid: &mut Laid, word: u64, full: bool) -> Result<(), AllocError>
    ensures { OnOk result (laid.new ≡ inner_spec.with_cell laid.old (word, full)) }
{
    if full && word == 0 {
        return skip(laid, 1);
    }
    push_rest(&mut laid.first, laid.rest)?;
    laid.first.push((word, full))?;
    laid.rest = 0;
    Ok(())
}

/// The first cells of a global that has initialisers with these words, in ascending order of their offsets.
#[tactic(auto, using(crate::proofs::Laying::cell_rules))]
pub fn initialised(alloc: Global, words: &[(u32, u64)]) -> Result<Items<(u64, bool)>, AllocError>
    ensures { IfOk result (λ r. r ≡ spec.initialised words.now) }
{
    let mut laid = no_cells(alloc);
    let mut at: u64 = 0;
    'words: for word in words {
        let off = u64::from(word.0);
        skip(&mut laid, off.saturating_sub(at))?;
        put(&mut laid, word.1, true)?;
        at = off + 1;
    }
    Ok(laid.first)
}
