ghost use Rattle.std.specs.Prelude.{◌≡◌};
ghost use Rattle.std.specs.Option.{option_copied};
ghost use Rattle.xc_type_names.specs.Scoped.{found_in, is_new as is_new_in};

use xc_type_names::Scopes;

pub fn find(scopes: &Scopes<u32>, name: u32) -> Option<&u32>
    ensures { option_copied result ≡ found_in name scopes.now }
{
    scopes.find(name)
}

pub fn is_new(scopes: &Scopes<u32>, name: u32) -> bool
    ensures { result ≡ is_new_in name scopes.now }
{
    scopes.is_new(name)
}
