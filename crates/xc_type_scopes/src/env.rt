//! What is declared at a place of a text.

ghost use Rattle.std.specs.Prelude.{◌≡◌, [], ◌∷◌, length, OnOk, IfOk};
ghost use Rattle.std.specs.Option.{option_copied};
ghost use Rattle.xc_type_names.specs.Scoped.{is_new, found_in};
ghost use Rattle.xc_tree.specs.declared.expr.ExprKind.{out-ExprKind};
ghost use Rattle.xc_type_scopes.specs.Env as spec;

use sqlite_items::Items;
use std::alloc::{AllocError, Global};
use xc_text_place::Span;
use xc_tree::{Expr, ExprKind, Ty};
use xc_type_names::Scopes;
use xc_type_rule::Thing;
use xc_type_structs::{Layout, Structs};

/// What is declared, and what is at work, at a place of a text. Names are numbers.
#[derive(Drop)]
pub struct Env {
    /// What stands at file scope.
    file: Scopes<Thing>,
    /// What the function at work declares, or the body of a `future` statement at work. There is no scope outside
    /// functions.
    own: Scopes<Thing>,
    /// The numbers of the structs by their names, which have a name space of their own: those of file scope.
    file_tags: Scopes<u32>,
    /// Those that the function at work declares, or the body of a `future` statement at work.
    own_tags: Scopes<u32>,
    structs: Structs,
    /// The members so far of the struct at work.
    layout: Layout,
    /// The objects of the function at work: where each is declared, and its type.
    locals: Items<(Span, Ty)>,
    /// Whether each of them has an address: its type asks for one, or `&` is applied to it.
    addressed: Items<bool>,
    /// The number of loops so far.
    loops: u32,
    /// The pragmas directly before what comes next, with nothing but pragmas between.
    before: Items<Span>,
    /// The pragmas without effect so far, in the order of the text.
    notes: Items<Span>,
    /// The first place at which a count passes its limit.
    over: Option<u32>,
}

/// What the function at work declares, while the body of a `future` statement is at work.
#[derive(Drop)]
pub struct Outside {
    own: Scopes<Thing>,
    tags: Scopes<u32>,
}

fn one_scope<T: Drop>(alloc: Global) -> Result<Scopes<T>, AllocError>
    ensures { IfOk result (λ r. r ≡ [] ∷ []) }
{
    let mut scopes = Scopes::new(alloc);
    scopes.enter()?;
    Ok(scopes)
}

impl Env {
    /// Nothing is declared, at file scope.
    pub fn new(alloc: Global) -> Result<Env, AllocError>
        ensures { IfOk result (λ r. r ≡ spec.nothing) }
    {
        let file = one_scope(alloc)?;
        let file_tags = one_scope(alloc)?;
        Ok(Env {
            file,
            own: Scopes::new(alloc),
            file_tags,
            own_tags: Scopes::new(alloc),
            structs: Structs::new(alloc),
            layout: Layout::new(alloc),
            locals: Items::new(alloc),
            addressed: Items::new(alloc),
            loops: 0,
            before: Items::new(alloc),
            notes: Items::new(alloc),
            over: None,
        })
    }

    /// What a name stands for.
    pub fn find(&self, name: u32) -> Option<&Thing>
        ensures { option_copied result ≡ spec.found name self.now }
    {
        match self.own.find(name) {
            None => self.file.find(name),
            Some(thing) => Some(thing),
        }
    }

    /// What a name stands for at file scope.
    pub fn find_global(&self, name: u32) -> Option<&Thing>
        ensures { option_copied result ≡ found_in name self.now.file }
    {
        self.file.find(name)
    }

    /// The number of the struct of this name.
    pub fn tag(&self, name: u32) -> Option<u32>
        ensures { result ≡ spec.tagged name self.now }
    {
        match self.own_tags.find(name) {
            None => self.file_tags.find(name).copied(),
            Some(number) => Some(*number),
        }
    }

    /// The structs.
    pub fn structs(&self) -> &Structs
        ensures { result.now ≡ self.now.structs }
    {
        &self.structs
    }

    /// The objects of the function at work.
    pub fn locals(&self) -> &[(Span, Ty)]
        ensures { result.now ≡ self.now.locals }
    {
        self.locals.as_slice()
    }

    /// Which of them have an address.
    pub fn addressed(&self) -> &[bool]
        ensures { result.now ≡ self.now.addressed }
    {
        self.addressed.as_slice()
    }

    /// Whether file scope lacks this name.
    pub fn is_new_global(&self, name: u32) -> bool
        ensures { result ≡ is_new name self.now.file }
    {
        self.file.is_new(name)
    }

    /// Whether the innermost scope of the function at work lacks this name.
    pub fn is_new_own(&self, name: u32) -> bool
        ensures { result ≡ is_new name self.now.own }
    {
        self.own.is_new(name)
    }

    /// Whether the innermost scope has no struct of this name.
    pub fn is_new_tag(&self, name: u32) -> bool
        ensures { result ≡ spec.is_new_tag name self.now }
    {
        if self.own_tags.is_empty() {
            self.file_tags.is_new(name)
        } else {
            self.own_tags.is_new(name)
        }
    }

    /// A name of file scope.
    pub fn declare_global(&mut self, name: u32, thing: Thing) -> Result<(), AllocError>
        ensures { OnOk result (self.new ≡ spec.with_global name thing self.old) }
    {
        Ok(self.file.declare(name, thing)?)
    }

    /// A name of the innermost scope of the function at work.
    pub fn declare_own(&mut self, name: u32, thing: Thing) -> Result<(), AllocError>
        ensures { OnOk result (self.new ≡ spec.with_own name thing self.old) }
    {
        Ok(self.own.declare(name, thing)?)
    }

    /// A struct's name in the innermost scope.
    pub fn declare_tag(&mut self, name: u32, number: u32) -> Result<(), AllocError>
        ensures { OnOk result (self.new ≡ spec.with_tag name number self.old) }
    {
        if self.own_tags.is_empty() {
            Ok(self.file_tags.declare(name, number)?)
        } else {
            Ok(self.own_tags.declare(name, number)?)
        }
    }

    /// A block begins.
    pub fn enter(&mut self) -> Result<(), AllocError>
        ensures { OnOk result (self.new ≡ spec.inside self.old) }
    {
        self.own.enter()?;
        Ok(self.own_tags.enter()?)
    }

    /// The block ends.
    pub fn leave(&mut self)
        ensures { self.new ≡ spec.outside self.old }
    {
        self.own.leave();
        self.own_tags.leave();
    }

    /// A function begins.
    pub fn begin_function(&mut self, alloc: Global) -> Result<(), AllocError>
        ensures { OnOk result (self.new ≡ spec.in_function self.old) }
    {
        self.own = one_scope(alloc)?;
        self.own_tags = one_scope(alloc)?;
        self.locals = Items::new(alloc);
        self.addressed = Items::new(alloc);
        Ok(())
    }

    /// The function ends.
    pub fn end_function(&mut self, alloc: Global)
        ensures { self.new ≡ spec.after_function self.old }
    {
        self.own = Scopes::new(alloc);
        self.own_tags = Scopes::new(alloc);
        self.locals = Items::new(alloc);
        self.addressed = Items::new(alloc);
    }

    /// The body of a `future` statement begins. The answer has what is declared outside it.
    pub fn begin_future(&mut self, alloc: Global) -> Result<Outside, AllocError>
        ensures outside { IfOk result (λ r. r ≡ spec.outside_of self.old) }
        ensures begun { OnOk result (self.new ≡ spec.in_future self.old) }
    {
        let own = one_scope(alloc)?;
        let tags = one_scope(alloc)?;
        Ok(Outside {
            own: std::mem::replace(&mut self.own, own),
            tags: std::mem::replace(&mut self.own_tags, tags),
        })
    }

    /// The body ends, where this was declared outside it.
    pub fn end_future(&mut self, outside: Outside)
        ensures { self.new ≡ spec.after_future outside self.old }
    {
        let Outside { own, tags } = outside;
        self.own = own;
        self.own_tags = tags;
    }

    /// One more object of the function at work. The answer is its number. Past 2^32 - 1 objects the answer is want of
    /// memory.
    pub fn add_local(&mut self, name: Span, ty: Ty) -> Result<u32, AllocError>
        ensures number { IfOk result (λ r. r ≡ spec.next_local self.old) }
        ensures added { OnOk result (self.new ≡ spec.with_local name ty self.old) }
    {
        let number = self.locals.len();
        if number >= u32::MAX as usize {
            return Err(AllocError);
        }
        self.addressed.push(has_address(&ty))?;
        self.locals.push((name, ty))?;
        Ok(number as u32)
    }

    /// `&` is applied to this place.
    #[tactic(auto, unfolding(crate::specs::Env::with_address))]
    pub fn take_address(&mut self, made: &Option<Expr>)
        ensures { self.new ≡ spec.with_address made.now self.old }
    {
        match made {
            None => {}
            Some(e) => take_kind(&mut self.addressed, &e.kind),
        }
    }

    /// The braces of a new struct begin. The answer has its number, and the layout at work before it.
    pub fn begin_struct(&mut self, alloc: Global) -> Result<(u32, Layout), AllocError>
        ensures number { IfOk result (λ r. r.0 ≡ length self.old.structs.sizes) }
        ensures layout { IfOk result (λ r. r.1 ≡ self.old.layout) }
        ensures begun { OnOk result (self.new ≡ spec.in_struct self.old) }
    {
        let number = self.structs.open(alloc)?;
        Ok((
            number,
            std::mem::replace(&mut self.layout, Layout::new(alloc)),
        ))
    }

    /// The braces of the struct with this number end, where this was the layout at work before them.
    pub fn end_struct(&mut self, number: u32, layout: Layout)
        ensures { self.new ≡ spec.after_struct number layout self.old }
    {
        let own = std::mem::replace(&mut self.layout, layout);
        self.structs.close(number, own);
    }

    /// One more struct, which is never complete.
    pub fn add_struct(&mut self, alloc: Global) -> Result<u32, AllocError>
        ensures number { IfOk result (λ r. r ≡ length self.old.structs.sizes) }
        ensures added { OnOk result (self.new ≡ spec.with_struct self.old) }
    {
        self.structs.open(alloc)
    }

    /// The layout of the struct at work.
    pub fn layout(&self) -> &Layout
        ensures { result.now ≡ self.now.layout }
    {
        &self.layout
    }

    /// One more member of the struct at work.
    pub fn add_member(&mut self, alloc: Global, name: u32, ty: Option<Ty>) -> Result<(), AllocError>
        ensures { OnOk result (self.new ≡ spec.with_member name ty self.old) }
    {
        let layout = std::mem::replace(&mut self.layout, Layout::new(alloc));
        self.layout = layout.with(alloc, &self.structs, name, ty)?;
        Ok(())
    }

    /// A count passes its limit at this place, if at any.
    pub fn pass(&mut self, at: Option<u32>)
        ensures { self.new ≡ spec.with_over at self.old }
    {
        self.over = match (self.over, at) {
            (None, at) => at,
            (Some(a), None) => Some(a),
            (Some(a), Some(b)) => Some(a.min(b)),
        };
    }

    /// The first place at which a count passes its limit.
    pub fn over(&self) -> Option<u32>
        ensures { result ≡ self.now.over }
    {
        self.over
    }

    /// The number of loops so far.
    pub fn loops(&self) -> u32
        ensures { result ≡ self.now.loops }
    {
        self.loops
    }

    /// The pragmas directly before what comes next.
    pub fn before(&self) -> &[Span]
        ensures { result.now ≡ self.now.before }
    {
        self.before.as_slice()
    }

    /// The pragmas without effect so far.
    pub fn notes(&self) -> &[Span]
        ensures { result.now ≡ self.now.notes }
    {
        self.notes.as_slice()
    }

    /// One more pragma directly before what comes next.
    pub fn add_pragma(&mut self, at: Span) -> Result<(), AllocError>
        ensures { OnOk result (self.new ≡ spec.with_pragma at self.old) }
    {
        Ok(self.before.push(at)?)
    }

    /// What comes next is no loop.
    pub fn pass_pragmas(&mut self, alloc: Global) -> Result<(), AllocError>
        ensures { OnOk result (self.new ≡ spec.past_pragmas self.old) }
    {
        let before = std::mem::replace(&mut self.before, Items::new(alloc));
        self.notes.append(before)
    }

    /// A loop begins, whose keyword stands at `at`. `notes` has those of the pragmas directly before it that have no
    /// effect. The answer is the loop's number. Past 2^32 - 1 loops the answer is want of memory.
    pub fn add_loop(
        &mut self,
        alloc: Global,
        at: u32,
        notes: Items<Span>,
    ) -> Result<u32, AllocError>
        ensures number { IfOk result (λ r. r ≡ self.old.loops) }
        ensures added { OnOk result (self.new ≡ spec.with_loop at notes self.old) }
    {
        let number = self.loops;
        if number == u32::MAX {
            return Err(AllocError);
        }
        self.loops = number + 1;
        self.before = Items::new(alloc);
        self.notes.append(notes)?;
        self.pass(over_with(number, at));
        Ok(number)
    }
}

// The most loops of a text.
const MOST_LOOPS: u32 = 4096;

fn over_with(loops: u32, at: u32) -> Option<u32>
    ensures { result ≡ spec.over_with loops at }
{
    if loops < MOST_LOOPS { None } else { Some(at) }
}

fn take_kind(addressed: &mut Items<bool>, kind: &ExprKind)
    ensures { addressed.new ≡ spec.addressed_kind addressed.old (out-ExprKind kind.now) }
{
    match kind {
        ExprKind::Auto(number) => {
            let number = *number as usize;
            if number < addressed.len() {
                addressed.set(number, true);
            }
        }
        _ => {}
    }
}

fn has_address(ty: &Ty) -> bool
    ensures { result ≡ spec.has_address ty.now }
{
    matches!(
        ty,
        Ty::Array(_, _) | Ty::Struct(_) | Ty::Sync(_) | Ty::Future(_)
    )
}
