//! The table of structs.

ghost use Rattle.std.specs.Prelude.{◌≡◌, ◌<◌, ◌-◌, ◌^◌, min, nat_lt, is_none, Option, List, [], ◌∷◌, ◌++◌, length, slice_set, OnOk, IfOk};
ghost use Rattle.std.specs.Option.{option_copied};
ghost use Rattle.xc_tree.specs.declared.ty.Ty.{Ty};
ghost use Rattle.xc_tree.specs.Types.{Shape, no_cells, is_mixed, size_of};
ghost use Rattle.xc_type_rule.specs.Cells.{cells};
ghost use Rattle.xc_type_rule.specs.Members.{member_named, members_of, mixes};
ghost use Rattle.xc_type_structs.specs.Agree.{Agrees, Lays, Counted, struct_shape, members_shape};
ghost use Rattle.xc_type_structs.specs.Table as spec;

use crate::kinds::{Kinds, is_mixture, joined, kinds_of_part, no_kinds};
use crate::members::Members;
use sqlite_items::Items;
use std::alloc::{AllocError, Global};
use xc_tree::Ty;
use xc_type_rule::{Member, cells};

// The most cells of a struct.
const MOST: u32 = 4_194_304;

/// What lies in a struct so far: its members, its size, and the kinds of its cells. The size ends at 2^32 - 1, which
/// no struct comes to.
#[derive(Drop)]
pub struct Layout {
    members: Members,
    size: u32,
    kinds: Kinds,
}

/// The structs of a text, by number.
#[derive(Drop)]
pub struct Structs {
    sizes: Items<u32>,
    kinds: Items<Kinds>,
    mixed: Items<bool>,
    members: Items<Members>,
}

// An unknown type has one cell at least.
fn part_cells(sizes: &[u32], ty: &Option<Ty>) -> u32
    ensures { result ≡ spec.part_cells sizes.now ty.now }
{
    match ty {
        None => 1,
        Some(ty) => cells(sizes, ty),
    }
}

fn put<T: Drop>(items: &mut Items<T>, at: usize, item: T)
    ensures { items.new ≡ slice_set items.old at item }
{
    if at < items.len() {
        items.set(at, item);
    }
}

impl Layout {
    /// Nothing yet: it has the cells of no members.
    pub fn new(alloc: Global) -> Layout
        ensures nothing { result ≡ spec.nothing }
        ensures agrees { (shapes : List Shape) → Lays result (members_shape shapes []) }
    {
        Layout {
            members: Members::new(alloc),
            size: 0,
            kinds: no_kinds(),
        }
    }

    /// How many cells there are.
    pub fn size(&self) -> u32
        ensures { result ≡ self.now.size }
    {
        self.size
    }

    /// Whether no struct may have so many cells.
    pub fn is_too_large(&self) -> bool
        ensures size { result ≡ nat_lt (2 ^ 22) self.now.size }
        ensures agrees { (shape : Shape) → Lays self.now shape → result ≡ nat_lt (2 ^ 22) shape.size }
    {
        MOST < self.size
    }

    /// Whether no member has this name yet.
    pub fn is_new(&self, name: u32) -> bool
        ensures { result ≡ is_none (member_named name self.now.members) }
    {
        self.members.is_new(name)
    }

    /// With one more member, behind the others. Its type is none where it is unknown because of a fault, and it then has
    /// one cell of no kind. Of two members of one name, which is a fault, the first is found. The layout goes on having the
    /// cells of its members, where the table agrees with those of the structs.
    pub fn with(
        self,
        alloc: Global,
        structs: &Structs,
        name: u32,
        ty: Option<Ty>,
    ) -> Result<Layout, AllocError>
        ensures with { IfOk result (λ r. r ≡ spec.with_member structs.now name ty self) }
        ensures agrees { IfOk result (λ r. (shapes : List Shape) (members : List (Option Ty)) → Agrees structs.now shapes → Lays self (members_shape shapes members) → Lays r (members_shape shapes (members ++ ty ∷ []))) }
    {
        let Layout {
            members: mut all,
            size,
            kinds,
        } = self;
        let own = kinds_of_part(alloc, structs.kinds.as_slice(), &ty)?;
        let taken = part_cells(structs.sizes.as_slice(), &ty);
        all.add(Member {
            name,
            off: size,
            ty,
        })?;
        Ok(Layout {
            members: all,
            size: size.saturating_add(taken),
            kinds: joined(kinds, own),
        })
    }
}

impl Structs {
    /// No structs.
    pub fn new(alloc: Global) -> Structs
        ensures none { result ≡ spec.no_structs }
        ensures agrees { Agrees result [] }
    {
        Structs {
            sizes: Items::new(alloc),
            kinds: Items::new(alloc),
            mixed: Items::new(alloc),
            members: Items::new(alloc),
        }
    }

    /// The size of each struct, 0 for one that is not complete.
    pub fn sizes(&self) -> &[u32]
        ensures { result.now ≡ self.now.sizes }
    {
        self.sizes.as_slice()
    }

    /// How many cells a type has, up to 2^32 - 1.
    pub fn cells(&self, ty: &Ty) -> u32
        ensures cells { result ≡ cells self.now.sizes ty.now }
        ensures agrees { (shapes : List Shape) → Agrees self.now shapes → result ≡ min (size_of shapes ty.now) (2 ^ 32 - 1) }
    {
        cells(self.sizes.as_slice(), ty)
    }

    /// The members of each struct, none for one that is not complete.
    pub fn members(&self) -> &[Members]
        ensures { result.now ≡ self.now.members }
    {
        self.members.as_slice()
    }

    /// The member of a struct that has this name.
    pub fn member(&self, number: u32, name: u32) -> Option<&Member>
        ensures { option_copied result ≡ member_named name (members_of self.now.members number) }
    {
        match self.members.get(number as usize) {
            None => None,
            Some(members) => members.find(name),
        }
    }

    /// Whether a struct has a pointer and a cell of another type.
    pub fn mixes(&self, number: u32) -> bool
        ensures mixed { result ≡ mixes self.now.mixed number }
        ensures agrees { (shapes : List Shape) → Agrees self.now shapes → result ≡ is_mixed (struct_shape shapes number).kinds }
    {
        match self.mixed.get(number as usize) {
            None => false,
            Some(mixed) => *mixed,
        }
    }

    /// A new struct, which is not complete. It has the next number. Past 2^32 - 1 structs the answer is want of memory.
    pub fn open(&mut self, alloc: Global) -> Result<u32, AllocError>
        ensures number { IfOk result (λ r. r ≡ length self.old.sizes) }
        ensures opened { OnOk result (self.new ≡ spec.opened self.old) }
        ensures agrees { OnOk result ((shapes : List Shape) → Agrees self.old shapes → Agrees self.new (shapes ++ no_cells ∷ [])) }
    {
        let number = self.sizes.len();
        if number >= u32::MAX as usize {
            return Err(AllocError);
        }
        self.members.push(Members::new(alloc))?;
        self.mixed.push(false)?;
        self.kinds.push(no_kinds())?;
        self.sizes.push(0)?;
        Ok(number as u32)
    }

    /// A struct is complete, with this layout.
    pub fn close(&mut self, number: u32, layout: Layout)
        ensures closed { self.new ≡ spec.closed self.old number layout }
        ensures agrees { (shapes : List Shape) (shape : Shape) → Agrees self.old shapes → Lays layout shape → Counted shape → Agrees self.new (slice_set shapes number shape) }
    {
        let Layout {
            members,
            size,
            kinds,
        } = layout;
        put(&mut self.members, number as usize, members);
        put(&mut self.mixed, number as usize, is_mixture(&kinds));
        put(&mut self.kinds, number as usize, kinds);
        put(&mut self.sizes, number as usize, size);
    }
}
