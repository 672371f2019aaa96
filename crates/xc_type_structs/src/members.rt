//! The members of a struct.

ghost use Rattle.std.specs.Prelude.{◌≡◌, length, slice_get, is_none, nat_eq, [], OnOk, OnErr};
ghost use Rattle.std.specs.Option.{option_copied};
ghost use Rattle.indexmap.specs.IndexMap.{insert_entry};
ghost use Rattle.xc_type_rule.specs.Members.{member_named};
ghost use Rattle.xc_type_structs.specs.Members.{added};

use indexmap::IndexMap;
use std::alloc::{AllocError, Global};
use std::marker::Model;
use xc_type_rule::Member;

fn put(by_name: &mut IndexMap<u32, Member>, member: Member) -> Result<(), AllocError>
    ensures put { OnOk result (by_name.new.entries ≡ insert_entry nat_eq by_name.old.entries member.name member) }
    ensures kept { OnErr result (by_name.new.entries ≡ by_name.old.entries) }
{
    by_name.insert(member.name, member)?;
    Ok(())
}

/// The members of a struct in order, which contracts see as a list. A look-up by name takes no longer for more members.
#[derive(Drop)]
pub struct Members {
    by_name: IndexMap<u32, Member>,
}

impl Model for Members {
    ghost use Rattle.std.specs.Prelude.{List};
    ghost use Rattle.std.specs.Coded.{codes};
    ghost use Rattle.std.specs.Map.{values_of};
    ghost use Rattle.xc_type_rule.specs.declared.found.Member.{Member};
    ghost use Rattle.xc_type_structs.specs.Members.{AreNamed};
    ghost use Rattle.xc_tree.specs.contracts.ty.Ty as e;

    ghost Value = { List Member };

    ghost coded = { Prim.hlevel (codes, e.the_row.coded) };

    ghost view = { λ m. values_of m.by_name.entries };

    ghost invariant = { λ m. AreNamed m.by_name.entries };
}

impl Members {
    /// No members.
    pub(crate) fn new(alloc: Global) -> Members
        ensures { result ≡ [] }
    {
        Members {
            by_name: IndexMap::new(alloc),
        }
    }

    /// The member with this name.
    pub fn find(&self, name: u32) -> Option<&Member>
        ensures { option_copied result ≡ member_named name self.now }
    {
        self.by_name.get(&name)
    }

    /// How many there are.
    pub fn len(&self) -> usize
        ensures { result ≡ length self.now }
    {
        self.by_name.len()
    }

    /// The member at an index.
    pub fn at(&self, index: usize) -> Option<&Member>
        ensures { option_copied result ≡ slice_get self.now index }
    {
        match self.by_name.get_index(index) {
            None => None,
            Some((_, member)) => Some(member),
        }
    }

    /// Whether no member has this name.
    pub fn is_new(&self, name: u32) -> bool
        ensures { result ≡ is_none (member_named name self.now) }
    {
        self.find(name).is_none()
    }

    /// One more member, behind the others, where none has its name.
    pub(crate) fn add(&mut self, member: Member) -> Result<(), AllocError>
        ensures { OnOk result (self.new ≡ added self.old member) }
    {
        if self.is_new(member.name) {
            put(&mut self.by_name, member)?;
        }
        Ok(())
    }
}
