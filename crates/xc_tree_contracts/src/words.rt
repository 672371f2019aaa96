ghost use Rattle.std.specs.Prelude.{◌≡◌};
ghost use Rattle.xc_tree_words.specs.Words.{works_on_uint as works_on_uint_by, binary_word, unary_word};

use xc_tree::{BinOp, Ty, UnOp};

pub fn works_on_uint(op: BinOp, a: &Ty, b: &Ty) -> bool
    ensures { result ≡ works_on_uint_by op a.now b.now }
{
    xc_tree_words::works_on_uint(op, a, b)
}

pub fn binary(op: BinOp, unsigned: bool, a: u64, b: u64) -> Option<u64>
    ensures { result ≡ binary_word op unsigned a b }
{
    xc_tree_words::binary(op, unsigned, a, b)
}

pub fn unary(op: UnOp, a: u64) -> u64
    ensures { result ≡ unary_word op a }
{
    xc_tree_words::unary(op, a)
}
