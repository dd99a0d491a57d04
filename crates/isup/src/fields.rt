// The fields of the parameter that have more than one value here.
ghost use Rattle.std.specs.Prelude.{◌≡◌, ◌≢◌, eqb, MatchResult};
ghost use Rattle.isup.specs.declared.NoCaller.TheVariants.{Field};
ghost use Rattle.isup.specs.Views.{nature_number, presentation_octet};

use super::NoCaller;

// Nature of address: bits 7 to 1 of octet 1.
#[derive(Clone, Copy)]
pub(crate) enum Nature {
    National,
    International,
}

impl From<Nature> for u8 {
    ghost from_gives = { λ nature n. n ≡ nature_number nature };

    fn from(nature: Nature) -> u8 {
        match nature {
            Nature::National => 3,
            Nature::International => 4,
        }
    }
}

impl TryFrom<u8> for Nature {
    type Error = NoCaller;

    ghost try_from_gives = { λ n r. MatchResult r (λ nature. n ≡ nature_number nature) (λ e. (e ≡ Field) × (n ≢ 3) × (n ≢ 4)) };

    fn try_from(n: u8) -> Result<Nature, NoCaller> {
        match n {
            3 => Ok(Nature::National),
            4 => Ok(Nature::International),
            _ => Err(NoCaller::Field),
        }
    }
}

// Presentation: bits 4 and 3 of octet 2, whose other fields have one value each: number complete, numbering plan 1, screening 3.
#[derive(Clone, Copy)]
pub(crate) enum Presentation {
    Allowed,
    Restricted,
}

impl Presentation {
    pub(crate) fn is_restricted(self) -> bool
        ensures { result ≡ eqb (presentation_octet self) 23 }
    {
        matches!(self, Presentation::Restricted)
    }
}

impl From<Presentation> for u8 {
    ghost from_gives = { λ presentation n. n ≡ presentation_octet presentation };

    fn from(presentation: Presentation) -> u8 {
        match presentation {
            Presentation::Allowed => 0x13,
            Presentation::Restricted => 0x17,
        }
    }
}

impl TryFrom<u8> for Presentation {
    type Error = NoCaller;

    ghost try_from_gives = { λ n r. MatchResult r (λ presentation. n ≡ presentation_octet presentation) (λ e. (e ≡ Field) × (n ≢ 19) × (n ≢ 23)) };

    fn try_from(octet: u8) -> Result<Presentation, NoCaller> {
        match octet {
            0x13 => Ok(Presentation::Allowed),
            0x17 => Ok(Presentation::Restricted),
            _ => Err(NoCaller::Field),
        }
    }
}
