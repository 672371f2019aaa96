ghost use Rattle.std.specs.Prelude.{map, string_bytes};
ghost use Rattle.xc_tree.specs.declared.tree.Tree.{Tree};
ghost use Rattle.xc_meaning_trees.specs.Trees.{program_of};
ghost use Rattle.xc_top_words.specs.Words.{command_of};
ghost use Rattle.xc_top.specs.Seen.{shelf_seen, sink_seen};
ghost use Rattle.xc_top.specs.Answers.{CanRun, IsRunToEnd};

use std::alloc::Global;
use xc_edge::{Shelf, Sink};
use xc_top::{Status, xmtc};

pub fn run_to_end<F: Shelf, O: Sink, E: Sink>(
    alloc: Global,
    words: &[String],
    shelf: &mut F,
    out: &mut O,
    err: &mut E,
) -> Status
    ensures completes { (tree : Tree) → CanRun (command_of (map string_bytes words.now)) (shelf_seen F.files F.faults F.taken shelf.old shelf.new) (sink_seen O.written O.faults out.old out.new) (sink_seen E.written E.faults err.old err.new) tree → IsRunToEnd (program_of tree) (sink_seen O.written O.faults out.old out.new) result }
{
    xmtc(alloc, words, shelf, out, err)
}
