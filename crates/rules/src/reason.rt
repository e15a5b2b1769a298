ghost use Rattle.rules.specs.Promises.{ReasonNumber, ReasonOf};

use std::fmt;

/// Why a line is rejected, in the words of AP-3.1.
#[derive(Clone, Copy, Debug, PartialEq, Eq, Hash, PartialOrd, Ord)]
pub enum Reason {
    Duplicate = 1,
    Luhn = 2,
    Digits = 3,
    Range = 4,
    Obe = 5,
    NationalityMissing = 6,
    ContextMark = 8,
    Plate = 9,
    Miscellaneous = 12,
}

impl Reason {
    /// The two-digit number that the HGC answers with.
    pub fn number(self) -> u8
        ensures { ReasonNumber self result }
    {
        self as u8
    }
}

/// A number that names no reason.
#[derive(Clone, Copy, Debug, PartialEq, Eq, Hash)]
pub struct UnknownReason(pub u8);

impl TryFrom<u8> for Reason {
    type Error = UnknownReason;

    ghost try_from_gives = { ReasonOf };

    fn try_from(number: u8) -> Result<Self, UnknownReason> {
        match number {
            1 => Ok(Reason::Duplicate),
            2 => Ok(Reason::Luhn),
            3 => Ok(Reason::Digits),
            4 => Ok(Reason::Range),
            5 => Ok(Reason::Obe),
            6 => Ok(Reason::NationalityMissing),
            8 => Ok(Reason::ContextMark),
            9 => Ok(Reason::Plate),
            12 => Ok(Reason::Miscellaneous),
            _ => Err(UnknownReason(number)),
        }
    }
}

impl fmt::Display for Reason {
    fn fmt<W: fmt::Write>(&self, f: &mut fmt::Formatter<W>) -> fmt::Result {
        f.write_str(match self {
            Reason::Duplicate => "duplicate entry",
            Reason::Luhn => "PAN number not valid (Luhn code)",
            Reason::Digits => "number of digits in PAN not correct",
            Reason::Range => "PAN number or context mark not within TSP's range",
            Reason::Obe => "OBE is not valid",
            Reason::NationalityMissing => "nationality of licence plate missing",
            Reason::ContextMark => "context mark missing or wrong",
            Reason::Plate => "licence plate number or nationality missing or wrong",
            Reason::Miscellaneous => "miscellaneous",
        })
    }
}
