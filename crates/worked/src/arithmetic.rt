// The example of a field's refusal.
ghost use Rattle.std.specs.Prelude.{◌≡◌, Some};

use fields::worked::refused_example;

/// The number by which c = 1 is refused over width 4.
pub(crate) fn unlawful_number() -> Option<u8>
    ensures { result ≡ Some 13 }
{
    match refused_example() {
        Ok(_) => None,
        Err(fault) => Some(fault.number()),
    }
}
