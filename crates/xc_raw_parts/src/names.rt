//! Names.

ghost use Rattle.std.specs.Prelude.{◌≡◌, ◌++◌, ◌+◌, ◌^◌, ◌<◌, length, IfOk, OnOk};
ghost use Rattle.xc_raw_parts.specs.Names as spec;

use crate::spans::behind;
use crate::words::between;
use sqlite_items::Items;
use std::alloc::{AllocError, Global};
use xc_lex::{Token, TokenKind};
use xc_raw::Raw;

fn is_name(token: Token) -> bool
    ensures { result ≡ spec.is_name token }
{
    token.kind == TokenKind::Name
}

fn name_at(tokens: &[Token], number: usize) -> Option<usize>
    ensures { result ≡ spec.name_at tokens.now number }
{
    match tokens.get(number) {
        Some(token) if is_name(*token) => Some(number),
        _ => None,
    }
}

fn first_name(tokens: &[Token], from: u32, to: u32) -> Option<usize>
    ensures { result ≡ spec.first_name tokens.now from to }
{
    let own = between(tokens, from, to);
    let mut number = from as usize;
    'tokens: for token in own {
        if is_name(*token) {
            return Some(number);
        }
        number += 1;
    }
    None
}

/// The number of the token that names a struct, of a node `Struct`.
pub fn struct_name(tokens: &[Token], node: &Raw) -> Option<usize>
    ensures { result ≡ spec.struct_name tokens.now node.now }
{
    name_at(tokens, node.first as usize + 1)
}

/// The number of the token that names a function, of a node `Callee`.
pub fn callee_name(tokens: &[Token], node: &Raw) -> Option<usize>
    ensures { result ≡ spec.callee_name tokens.now node.now }
{
    name_at(tokens, (node.end as usize).saturating_sub(1))
}

/// The number of the token that a node `Declr` declares.
pub fn declarator_name(tokens: &[Token], node: &Raw) -> Option<usize>
    ensures { result ≡ spec.declarator_name tokens.now node.now }
{
    first_name(tokens, node.first, node.end)
}

pub(crate) fn first_bound(node: &Raw) -> u32
    ensures { result ≡ spec.first_bound node.now }
{
    match node.parts.as_slice().get(1) {
        Some(bound) => bound.first,
        None => node.end,
    }
}

/// The number of the token that names a parameter, of a node `Param`; none where it has no name.
pub fn parameter_name(tokens: &[Token], node: &Raw) -> Option<usize>
    ensures { result ≡ spec.parameter_name tokens.now node.now }
{
    first_name(tokens, behind(node)?, first_bound(node))
}

/// The number of the token behind the `.` or `->` of a node `Postfix`, which names a member.
pub fn member_name(tokens: &[Token], node: &Raw) -> Option<usize>
    ensures { result ≡ spec.member_name tokens.now node.now }
{
    name_at(tokens, behind(node)? as usize + 1)
}

fn push_names(tokens: &[Token], first: usize, names: &mut Items<usize>) -> Result<(), AllocError>
    requires { first + length tokens.now < 2 ^ 64 }
    ensures { OnOk result (names.new ≡ names.old ++ spec.names_from first tokens.now) }
{
    let mut number = first;
    'tokens: for token in tokens {
        if is_name(*token) {
            names.push(number)?;
        }
        number += 1;
    }
    Ok(())
}

/// The numbers of the names between the place and the block of a node `Future`.
pub fn captured_names(
    alloc: Global,
    tokens: &[Token],
    node: &Raw,
) -> Result<Items<usize>, AllocError>
    ensures { IfOk result (λ names. names ≡ spec.captured_names tokens.now node.now) }
{
    let mut names = Items::new(alloc);
    if let [place, block, ..] = node.parts.as_slice() {
        let own = between(tokens, place.end, block.first);
        push_names(own, place.end as usize, &mut names)?;
    }
    Ok(names)
}
