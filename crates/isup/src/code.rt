// The country code.
ghost use Rattle.std.specs.Prelude.{◌≡◌};
ghost use Rattle.octets.specs.Classes.{within};
ghost use Rattle.isup.specs.Forward.{is_code};

use octets::Class;

fn is_short(count: usize) -> bool
    ensures { result ≡ within 1 3 count }
{
    (1..=3).contains(&count)
}

// 1 to 3 digits, not starting with 0.
#[tactic(auto, unfolding(crate::specs::Forward::is_code))]
pub(crate) fn is_code(code: &[u8]) -> bool
    ensures { result ≡ is_code code.now }
{
    let count = Class::Digit.run(code);
    if !is_short(count) {
        return false;
    }
    if count != code.len() {
        return false;
    }
    !octets::starts_with(code, b'0')
}
