//! Types.

ghost use Rattle.std.specs.Prelude.{◌≡◌};

use sqlite_items::Boxed;
use xc_word::Kind;

/// A type. `Int` and `Uint` have 64 bits. `Sync` and `Future` qualify a scalar.
#[derive(Drop)]
pub enum Ty {
    /// No value.
    Void,
    /// `int`, `long` and `long long`: signed.
    Int,
    /// The same types with `unsigned`.
    Uint,
    /// A pointer to a type.
    Ptr(Boxed<Ty>),
    /// So many elements of a type.
    Array(u32, Boxed<Ty>),
    /// The struct with this number.
    Struct(u32),
    /// A scalar under `sync`.
    Sync(Boxed<Ty>),
    /// A scalar under `future`.
    Future(Boxed<Ty>),
}

impl Ty {
    ghost use Rattle.xc_tree.specs.Kinds.{read_kind, write_kind};

    /// How an object is read by its name or by an operator, where this is the type of its place.
    pub fn read_kind(&self) -> Kind
        ensures { result ≡ read_kind self.now }
    {
        let Ty::Ptr(to) = self else {
            return Kind::ReadXx;
        };
        match to.get() {
            Ty::Sync(_) => Kind::ReadFe,
            Ty::Future(_) => Kind::ReadFf,
            _ => Kind::ReadXx,
        }
    }

    /// How an assignment writes an object, where this is the type of its place.
    pub fn write_kind(&self) -> Kind
        ensures { result ≡ write_kind self.now }
    {
        let Ty::Ptr(to) = self else {
            return Kind::WriteXf;
        };
        match to.get() {
            Ty::Sync(_) => Kind::WriteEf,
            Ty::Future(_) => Kind::WriteFf,
            _ => Kind::WriteXf,
        }
    }
}
