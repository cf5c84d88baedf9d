// The first letter of a name.
ghost use Rattle.std.specs.Prelude.{◌≡◌};
ghost use Rattle.tp_value.specs.Globals.{is_lower as has_lower};
ghost use Rattle.tp_meaning.specs.Value.{is_upper as has_upper};

use tp_value::Text;

/// Whether a name begins with an upper-case letter: a parameter of this name takes a place.
pub fn is_upper(name: &Text) -> bool
    ensures { result ≡ has_upper name.now }
{
    match name.as_slice() {
        [first, ..] => first.is_ascii_uppercase(),
        [] => false,
    }
}

/// Whether a name begins with a lower-case letter: a variable of this name is static.
pub fn is_lower(name: &Text) -> bool
    ensures { result ≡ has_lower name.now }
{
    match name.as_slice() {
        [first, ..] => first.is_ascii_lowercase(),
        [] => false,
    }
}
