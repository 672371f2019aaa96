ghost use Rattle.std.specs.Prelude.{◌≡◌, ◌≤◌, ◌^◌, length, IfOk, IfErr};
ghost use Rattle.std.specs.List.{All};
ghost use Rattle.xc_lex.specs.Numbers.{number_of};
ghost use Rattle.xc_lex.specs.Source.{AreTokens, AreOnly, IsSpelled, FaultFits, IsOnlyFault};

use std::alloc::Global;
use xc_lex::{LexFault, Number, Tokens, lex, read_number};

pub fn lexed(alloc: Global, source: &[u8]) -> Result<Tokens, LexFault>
    requires { length source.now ≤ 2 ^ 20 }
    ensures tokens { IfOk result (λ tokens. AreTokens source.now tokens) }
    ensures only_tokens { IfOk result (λ tokens. AreOnly source.now tokens) }
    ensures few { IfOk result (λ tokens. length tokens ≤ 2 ^ 20) }
    ensures spelled { IfOk result (λ tokens. All (IsSpelled source.now) tokens) }
    ensures fault { IfErr result (λ e. FaultFits source.now e) }
    ensures only_fault { IfErr result (λ e. IsOnlyFault source.now e) }
{
    lex(alloc, source)
}

pub fn number(run: &[u8]) -> Option<Number>
    ensures { result ≡ number_of run.now }
{
    read_number(run)
}
