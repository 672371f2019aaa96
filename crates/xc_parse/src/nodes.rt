//! The nodes at work: those whose parts are still read, one inside the other.

ghost use Rattle.std.specs.Prelude.{◌≡◌, ℕ, ◌+◌, ◌≤◌, ◌<◌, ◌^◌, List, [], ◌∷◌, ◌++◌, length, IsTrue, Some, true, OnOk, IfOk, vec_len};
ghost use Rattle.xc_parse_grammar.specs.Grammar.{Form, begin, ◌▹◌};
ghost use Rattle.xc_parse_grammar.specs.Building.{spell, apply, retitle};
ghost use Rattle.xc_raw.specs.declared.rule.Rule.TheVariants as rule;
ghost use Rattle.xc_parse_depth.specs.Depths.{depth_at};
ghost use Rattle.xc_parse.specs.Depth.{counts};
ghost use Rattle.xc_parse.specs.Raws.{node_at};
ghost use Rattle.xc_parse.specs.Nodes.{IsOpen, Builds, AllWithin, own, inside, nowhere, needed};

use sqlite_items::Items;
use std::alloc::{AllocError, Global};
use xc_parse_depth::Stretch;
use xc_parse_grammar::Shape;
use xc_raw::{Raw, Rule};

/// The greatest height of a tree that is built. Dropping a tree takes host stack for each level, and the rules that
/// do not count for the depth could nest as deep as the text. The highest trees of each kind go through the compiler on a
/// stack of 2 MiB.
const HEIGHT_LIMIT: u32 = 1024;

/// A node whose parts are still read, and how high the highest of them is.
#[derive(Drop)]
pub(crate) struct Open {
    pub(crate) rule: Rule,
    pub(crate) first: u32,
    pub(crate) height: u32,
    pub(crate) parts: Items<Raw>,
}

/// The nodes at work, the innermost last; the stretches of the nodes that count and are parts of others; and whether
/// each part was kept, none being too high.
#[derive(Drop)]
pub(crate) struct Nodes {
    pub(crate) working: Vec<Open>,
    pub(crate) stretches: Vec<Stretch>,
    pub(crate) is_whole: bool,
}

/// Whether a node of the rule counts for the depth.
fn counts(rule: Rule) -> bool
    ensures { result ≡ counts rule }
{
    match rule {
        Rule::Block
        | Rule::Eval
        | Rule::If
        | Rule::While
        | Rule::Do
        | Rule::For
        | Rule::Return
        | Rule::Break
        | Rule::Continue
        | Rule::Future
        | Rule::Place
        | Rule::Comma
        | Rule::Assign
        | Rule::Cond
        | Rule::Binary(_)
        | Rule::Cast
        | Rule::Unary
        | Rule::Postfix
        | Rule::Prim => true,
        _ => false,
    }
}

impl Open {
    /// The node, which ends here.
    pub(crate) fn closed(self, end: u32) -> Raw
        ensures { result ∷ [] ≡ node_at (Some self.rule) self.first end self.parts }
    {
        let Open {
            rule,
            first,
            height: _,
            parts,
        } = self;
        Raw {
            rule,
            first,
            end,
            parts,
        }
    }
}

impl Nodes {
    pub(crate) fn new(alloc: Global) -> Nodes
        ensures { Builds nowhere 0 [] result }
    {
        Nodes {
            working: Vec::new(alloc),
            stretches: Vec::new(alloc),
            is_whole: true,
        }
    }

    /// A new node, which begins here.
    fn begin(&mut self, alloc: Global, rule: Rule, first: u32) -> Result<(), AllocError>
        ensures begun { OnOk result ((aside : ℕ → ℕ) → (end : ℕ) → (d : List Form) → first ≡ length (spell d) → Builds aside end d self.old → Builds aside end (begin rule ∷ d) self.new) }
        ensures more { OnOk result (length self.new.working.items ≡ length self.old.working.items + 1) }
        ensures still { self.new.is_whole ≡ self.old.is_whole }
    {
        let parts = Items::new(alloc);
        self.working.push(Open {
            rule,
            first,
            height: 0,
            parts,
        })?;
        Ok(())
    }

    /// Takes the last node aside.
    fn take(&mut self) -> Open
        requires { 1 ≤ length self.old.working.items }
        ensures apart { (aside : ℕ → ℕ) → (end : ℕ) → (f : Form) → (d : List Form) → Builds aside end (f ∷ d) self.old → IsOpen self.old.is_whole (length (spell d)) f result × Builds (λ k. inside (length (spell d)) k f + aside k) end d self.new }
        ensures less { length self.old.working.items ≡ length self.new.working.items + 1 }
        ensures still { self.new.is_whole ≡ self.old.is_whole }
    {
        self.working.pop().unwrap()
    }

    /// Puts a node back that was taken aside.
    fn put_back(&mut self, node: Open) -> Result<(), AllocError>
        ensures back { OnOk result ((aside : ℕ → ℕ) → (end start : ℕ) → (f : Form) → (d : List Form) → start ≡ length (spell d) → IsOpen self.old.is_whole start f node → Builds (λ k. inside start k f + aside k) end d self.old → Builds aside end (f ∷ d) self.new) }
        ensures more { OnOk result (length self.new.working.items ≡ length self.old.working.items + 1) }
        ensures still { self.new.is_whole ≡ self.old.is_whole }
    {
        self.working.push(node)?;
        Ok(())
    }

    /// A new node below the last one, which begins where that does.
    fn under(&mut self, alloc: Global, rule: Rule) -> Result<(), AllocError>
        requires { 1 ≤ length self.old.working.items }
        ensures under { OnOk result ((aside : ℕ → ℕ) → (end : ℕ) → (f : Form) → (d : List Form) → Builds aside end (f ∷ d) self.old → Builds aside end (f ∷ begin rule ∷ d) self.new) }
        ensures more { OnOk result (length self.new.working.items ≡ length self.old.working.items + 1) }
        ensures still { self.new.is_whole ≡ self.old.is_whole }
    {
        let node = self.take();
        self.begin(alloc, rule, node.first)?;
        self.put_back(node)?;
        Ok(())
    }

    /// The rule of the last node.
    fn retitle(&mut self, rule: Rule) -> Result<(), AllocError>
        requires { 1 ≤ length self.old.working.items }
        ensures titled { OnOk result ((aside : ℕ → ℕ) → (end : ℕ) → (f : Form) → (d : List Form) → Builds aside end (f ∷ d) self.old → Builds aside end (retitle rule f ∷ d) self.new) }
        ensures same { OnOk result (length self.new.working.items ≡ length self.old.working.items) }
        ensures still { self.new.is_whole ≡ self.old.is_whole }
    {
        let Open {
            rule: _,
            first,
            height,
            parts,
        } = self.take();
        self.put_back(Open {
            rule,
            first,
            height,
            parts,
        })?;
        Ok(())
    }

    /// The last node is finished, and becomes the last part of the one below it.
    fn join(&mut self, end: u32) -> Result<(), AllocError>
        requires { 2 ≤ length self.old.working.items }
        ensures joined { OnOk result ((aside : ℕ → ℕ) → (last : ℕ) → (f p : Form) → (d : List Form) → end ≡ length (spell (f ∷ p ∷ d)) → end ≤ last → Builds aside last (f ∷ p ∷ d) self.old → Builds aside last ((p ▹ f) ∷ d) self.new) }
        ensures less { OnOk result (length self.old.working.items ≡ length self.new.working.items + 1) }
        ensures still { self.new.is_whole ≡ true → self.old.is_whole ≡ true }
    {
        let part = self.take();
        let node = self.take();
        self.mark(part.rule, part.first, end)?;
        let node = self.add(node, part, end)?;
        self.put_back(node)?;
        Ok(())
    }

    /// The stretch of a finished node, if it counts.
    fn mark(&mut self, rule: Rule, first: u32, end: u32) -> Result<(), AllocError>
        ensures depth { OnOk result ((k : ℕ) → depth_at self.new.stretches.items k ≡ depth_at self.old.stretches.items k + own (Some rule) first end k) }
        ensures within { OnOk result ((last : ℕ) → first ≤ end → end ≤ last → AllWithin last self.old → AllWithin last self.new) }
        ensures same { self.new.working.items ≡ self.old.working.items }
        ensures still { self.new.is_whole ≡ self.old.is_whole }
    {
        if counts(rule) {
            self.stretches.push(Stretch { first, end })?;
        }
        Ok(())
    }

    /// The node with one part more, unless that part is too high.
    fn add(&mut self, node: Open, part: Open, end: u32) -> Result<Open, AllocError>
        ensures rule { IfOk result (λ n. n.rule ≡ node.rule) }
        ensures first { IfOk result (λ n. n.first ≡ node.first) }
        ensures parts { IfOk result (λ n. self.new.is_whole ≡ true → (self.old.is_whole ≡ true) × (n.parts ≡ node.parts ++ node_at (Some part.rule) part.first end part.parts)) }
        ensures same { self.new.working.items ≡ self.old.working.items }
        ensures stretches { self.new.stretches.items ≡ self.old.stretches.items }
        ensures still { self.new.is_whole ≡ true → self.old.is_whole ≡ true }
    {
        let Open {
            rule,
            first,
            height,
            mut parts,
        } = node;
        if part.height >= HEIGHT_LIMIT {
            self.is_whole = false;
            return Ok(Open {
                rule,
                first,
                height,
                parts,
            });
        }
        let height = height.max(part.height + 1);
        parts.push(part.closed(end))?;
        Ok(Open {
            rule,
            first,
            height,
            parts,
        })
    }

    /// A node of the rule around the last node, which is finished.
    fn wrap(&mut self, alloc: Global, rule: Rule, end: u32) -> Result<(), AllocError>
        requires { 1 ≤ length self.old.working.items }
        ensures wrapped { OnOk result ((aside : ℕ → ℕ) → (last : ℕ) → (f : Form) → (d : List Form) → end ≡ length (spell (f ∷ d)) → end ≤ last → Builds aside last (f ∷ d) self.old → Builds aside last ((begin rule ▹ f) ∷ d) self.new) }
        ensures same { OnOk result (length self.new.working.items ≡ length self.old.working.items) }
        ensures still { self.new.is_whole ≡ true → self.old.is_whole ≡ true }
    {
        self.under(alloc, rule)?;
        self.join(end)?;
        Ok(())
    }

    /// The changes of a shape, where so many tokens were read.
    pub(crate) fn apply(&mut self, alloc: Global, shape: Shape, end: u32) -> Result<(), AllocError>
        requires { needed shape ≤ length self.old.working.items }
        ensures { OnOk result ((d e : List Form) → apply shape d ≡ Some e → end ≡ length (spell d) → Builds nowhere end d self.old → Builds nowhere end e self.new) }
    {
        match shape {
            Shape::Keep => Ok(()),
            Shape::Begin(rule) => Ok(self.begin(alloc, rule, end)?),
            Shape::Join => Ok(self.join(end)?),
            Shape::Wrap(rule) => Ok(self.wrap(alloc, rule, end)?),
            Shape::Cast => Ok(self.retitle(Rule::Cast)?),
            Shape::Specify => Ok(self.specify(alloc)?),
            Shape::Declare => Ok(self.declare(alloc, end)?),
            Shape::Call => Ok(self.call(alloc, end)?),
            Shape::Enlist => Ok(self.enlist(alloc)?),
        }
    }

    /// What was read are the specifiers of a declaration.
    fn specify(&mut self, alloc: Global) -> Result<(), AllocError>
        requires { 1 ≤ length self.old.working.items }
        ensures { OnOk result ((end : ℕ) → (q : Form) → (d : List Form) → Builds nowhere end (q ∷ d) self.old → Builds nowhere end (retitle rule.Specs q ∷ begin rule.Declaration ∷ d) self.new) }
    {
        self.under(alloc, Rule::Declaration)?;
        self.retitle(Rule::Specs)?;
        Ok(())
    }

    /// The word `future` is the specifier of a declaration, and the place behind it its first declarator.
    fn declare(&mut self, alloc: Global, end: u32) -> Result<(), AllocError>
        requires { 2 ≤ length self.old.working.items }
        ensures { OnOk result ((p q : Form) → (d : List Form) → end ≡ length (spell (p ∷ q ∷ d)) → Builds nowhere end (p ∷ q ∷ d) self.old → Builds nowhere end ((begin rule.Dinit ▹ retitle rule.Declr p) ∷ (begin rule.Declaration ▹ retitle rule.Specs q) ∷ d) self.new) }
    {
        let declarator = self.take();
        self.retitle(Rule::Specs)?;
        self.wrap(alloc, Rule::Declaration, declarator.first)?;
        self.put_back(declarator)?;
        self.retitle(Rule::Declr)?;
        self.wrap(alloc, Rule::Dinit, end)?;
        Ok(())
    }

    /// The declarator is the name of a function.
    fn call(&mut self, alloc: Global, end: u32) -> Result<(), AllocError>
        requires { 2 ≤ length self.old.working.items }
        ensures { OnOk result ((p f : Form) → (d : List Form) → end ≡ length (spell (p ∷ f ∷ d)) → Builds nowhere end (p ∷ f ∷ d) self.old → Builds nowhere end ((begin rule.Function ▹ f ▹ retitle rule.Callee p) ∷ d) self.new) }
    {
        let callee = self.take();
        self.wrap(alloc, Rule::Function, callee.first)?;
        self.put_back(callee)?;
        self.retitle(Rule::Callee)?;
        self.join(end)?;
        Ok(())
    }

    /// The declarator is the first one of a declaration.
    fn enlist(&mut self, alloc: Global) -> Result<(), AllocError>
        requires { 2 ≤ length self.old.working.items }
        ensures { OnOk result ((end : ℕ) → (p f : Form) → (d : List Form) → end ≡ length (spell (p ∷ f ∷ d)) → Builds nowhere end (p ∷ f ∷ d) self.old → Builds nowhere end (p ∷ begin rule.Dinit ∷ (begin rule.Declaration ▹ f) ∷ d) self.new) }
    {
        let declarator = self.take();
        let first = declarator.first;
        self.wrap(alloc, Rule::Declaration, first)?;
        self.begin(alloc, Rule::Dinit, first)?;
        self.put_back(declarator)?;
        Ok(())
    }
}
