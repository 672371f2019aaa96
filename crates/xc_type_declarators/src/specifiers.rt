//! Declaration specifiers.

ghost use Rattle.std.specs.Prelude.{◌≡◌, IfOk};
ghost use Rattle.xc_type_rule.specs.Least.{least_from};
ghost use Rattle.xc_raw.specs.Kinds as kinds;
ghost use Rattle.xc_type_declarators.specs.Specifiers as spec;

use sqlite_items::Boxed;
use std::alloc::{AllocError, Global};
use xc_raw::{Qualifier, Specifier, Word};
use xc_tree::{Span, Ty};
use xc_type_rule::{Fault, note_type};

/// What the type words of a declaration name.
#[derive(Clone, Copy)]
pub(crate) enum Basic {
    Void,
    Int,
    Uint,
    Struct,
}

/// How a scalar is qualified.
#[derive(Clone, Copy)]
pub(crate) enum Mark {
    Plain,
    Sync,
    Future,
}

/// What a list of specifiers says of a type.
#[derive(Clone, Copy)]
pub(crate) struct Specified {
    basic: Basic,
    mark: Mark,
}

fn voids(words: &[Word]) -> usize
    ensures { result ≡ spec.often kinds.is_void words.now }
{
    words.iter().filter(|w| matches!(**w, Word::Void)).count()
}

fn structs(words: &[Word]) -> usize
    ensures { result ≡ spec.often kinds.is_struct words.now }
{
    words.iter().filter(|w| matches!(**w, Word::Struct)).count()
}

fn ints(words: &[Word]) -> usize
    ensures { result ≡ spec.often spec.is_int words.now }
{
    words
        .iter()
        .filter(|w| matches!(**w, Word::Specifier(Specifier::Int)))
        .count()
}

fn longs(words: &[Word]) -> usize
    ensures { result ≡ spec.often spec.is_long words.now }
{
    words
        .iter()
        .filter(|w| matches!(**w, Word::Specifier(Specifier::Long)))
        .count()
}

fn signs(words: &[Word]) -> usize
    ensures { result ≡ spec.often spec.is_signed words.now }
{
    words
        .iter()
        .filter(|w| matches!(**w, Word::Specifier(Specifier::Signed)))
        .count()
}

fn unsigneds(words: &[Word]) -> usize
    ensures { result ≡ spec.often spec.is_unsigned words.now }
{
    words
        .iter()
        .filter(|w| matches!(**w, Word::Specifier(Specifier::Unsigned)))
        .count()
}

fn statics(words: &[Word]) -> usize
    ensures { result ≡ spec.often spec.is_static words.now }
{
    words
        .iter()
        .filter(|w| matches!(**w, Word::Specifier(Specifier::Static)))
        .count()
}

fn syncs(words: &[Word]) -> usize
    ensures { result ≡ spec.often spec.is_sync words.now }
{
    words
        .iter()
        .filter(|w| matches!(**w, Word::Qualifier(Qualifier::Sync)))
        .count()
}

fn futures(words: &[Word]) -> usize
    ensures { result ≡ spec.often kinds.is_future words.now }
{
    words.iter().filter(|w| matches!(**w, Word::Future)).count()
}

fn lacks_integers(words: &[Word]) -> bool
    ensures { result ≡ spec.lacks_integers words.now }
{
    ints(words) == 0 && longs(words) == 0 && signs(words) == 0 && unsigneds(words) == 0
}

fn has_one_sign(words: &[Word]) -> bool
    ensures { result ≡ spec.has_one_sign words.now }
{
    let signs = signs(words);
    let unsigneds = unsigneds(words);
    signs <= 1 && unsigneds <= 1 && !(signs == 1 && unsigneds == 1)
}

fn is_integer(words: &[Word]) -> bool
    ensures { result ≡ spec.is_integer words.now }
{
    voids(words) == 0
        && structs(words) == 0
        && ints(words) <= 1
        && longs(words) <= 2
        && has_one_sign(words)
        && !lacks_integers(words)
}

#[tactic(auto, unfolding(crate::specs::Specifiers::basic_of))]
fn basic_of(words: &[Word]) -> Option<Basic>
    ensures { result ≡ spec.basic_of words.now }
{
    if voids(words) == 1 && structs(words) == 0 && lacks_integers(words) {
        return Some(Basic::Void);
    }
    if structs(words) == 1 && voids(words) == 0 && lacks_integers(words) {
        return Some(Basic::Struct);
    }
    if !is_integer(words) {
        return None;
    }
    if unsigneds(words) == 0 {
        Some(Basic::Int)
    } else {
        Some(Basic::Uint)
    }
}

#[tactic(auto, unfolding(crate::specs::Specifiers::mark_of))]
fn mark_of(words: &[Word]) -> Option<Mark>
    ensures { result ≡ spec.mark_of words.now }
{
    match (syncs(words), futures(words)) {
        (0, 0) => Some(Mark::Plain),
        (0, _) => Some(Mark::Future),
        (_, 0) => Some(Mark::Sync),
        _ => None,
    }
}

fn may_have(basic: Basic, mark: Mark) -> bool
    ensures { result ≡ spec.may_have basic mark }
{
    match (basic, mark) {
        (_, Mark::Plain) => true,
        (Basic::Int | Basic::Uint, _) => true,
        _ => false,
    }
}

/// What a list of specifiers stands for, none where it breaks a rule. A struct counts as its keyword alone.
fn read_specifiers(words: &[Word]) -> Option<Specified>
    ensures { result ≡ spec.specified words.now }
{
    let basic = basic_of(words)?;
    let mark = mark_of(words)?;
    if may_have(basic, mark) {
        Some(Specified { basic, mark })
    } else {
        None
    }
}

fn basic_type(basic: Basic, number: Option<u32>) -> Option<Ty>
    ensures { result ≡ spec.basic_ty basic number }
{
    match basic {
        Basic::Void => Some(Ty::Void),
        Basic::Int => Some(Ty::Int),
        Basic::Uint => Some(Ty::Uint),
        Basic::Struct => match number {
            Some(number) => Some(Ty::Struct(number)),
            None => None,
        },
    }
}

pub(crate) fn marked(alloc: Global, mark: Mark, ty: Ty) -> Result<Ty, AllocError>
    ensures { IfOk result (λ r. r ≡ spec.marked mark ty) }
{
    match mark {
        Mark::Plain => Ok(ty),
        Mark::Sync => Ok(Ty::Sync(Boxed::new(alloc, ty)?)),
        Mark::Future => Ok(Ty::Future(Boxed::new(alloc, ty)?)),
    }
}

#[tactic(auto, unfolding(crate::specs::Specifiers::base_ty))]
fn base_ty(alloc: Global, words: &[Word], number: Option<u32>) -> Result<Option<Ty>, AllocError>
    ensures { IfOk result (λ r. r ≡ spec.base_ty words.now number) }
{
    let Some(specified) = read_specifiers(words) else {
        return Ok(None);
    };
    match basic_type(specified.basic, number) {
        None => Ok(None),
        Some(ty) => Ok(Some(marked(alloc, specified.mark, ty)?)),
    }
}

#[tactic(auto, unfolding(crate::specs::Specifiers::are_sound))]
fn are_sound(outermost: bool, words: &[Word]) -> bool
    ensures { result ≡ spec.are_sound outermost words.now }
{
    read_specifiers(words).is_some() && (outermost || statics(words) == 0)
}

/// The type that specifiers give, none where it is unknown because of a fault. Of a struct's specifier the words have
/// its keyword alone; `number` is the struct's, none where there is none or it is unknown. `outermost` says that they
/// stand at file scope, and `span` begins with their first token.
#[tactic(auto, using(xc_type_rule::proofs::Least::least_rules))]
pub fn specifier_type(
    alloc: Global,
    span: Span,
    outermost: bool,
    words: &[Word],
    number: Option<u32>,
    first: &mut Option<Fault>,
) -> Result<Option<Ty>, AllocError>
    ensures ty { IfOk result (λ r. r ≡ spec.base_ty words.now number) }
    ensures first { first.new ≡ least_from first.old (spec.specifier_faults outermost span words.now) }
{
    if !are_sound(outermost, words) {
        note_type(first, span);
    }
    base_ty(alloc, words, number)
}
