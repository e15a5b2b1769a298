ghost use Rattle.rules.specs.Promises.{RefusalNumber};

use std::fmt;

/// Why a call is refused: a stop of the import or the update, a refusal of a lookup, the sweep or the writer.
#[derive(Clone, Copy, Debug, PartialEq, Eq, Hash, PartialOrd, Ord)]
pub enum Refusal {
    Mode = 21,
    Time = 22,
    Order = 23,
    Rows = 24,
    HgvLength = 25,
    Header = 26,
    Version = 27,
    FullVersion = 28,
    Parties = 29,
    Count = 30,
    Footer = 31,
    Frame = 32,
    Slots = 33,
    HgcBuffer = 34,
    ThinList = 35,
    Index = 36,
    Key = 40,
    NoRecord = 41,
    SeveralRecords = 42,
    OtherActor = 51,
    Hgc = 52,
    VerdictBlock = 53,
    Given = 61,
    SamePan = 62,
    HgvBuffer = 63,
}

impl Refusal {
    /// The definition's number.
    pub fn number(self) -> u64
        ensures { RefusalNumber self result }
    {
        self as u64
    }
}

impl fmt::Display for Refusal {
    fn fmt<W: fmt::Write>(&self, f: &mut fmt::Formatter<W>) -> fmt::Result {
        f.write_str(match self {
            Refusal::Mode => "the mode is neither incremental (1) nor full (2)",
            Refusal::Time =>
                "the time is not a real time YYYYMMDDhhmmss, or cannot have its offset",
            Refusal::Order => "the register or copy is not in order",
            Refusal::Rows => "the issuer rows break their form",
            Refusal::HgvLength =>
                "the HGV's length is not that of a header, up to 8,192 lines and a footer",
            Refusal::Header => "a field of the HGV's header breaks its form",
            Refusal::Version => "the HGV's version is neither 120001 nor 220001",
            Refusal::FullVersion => "a full list cannot be of version 220001",
            Refusal::Parties => "the HGV's receiver is not 000002, or no issuer row has its sender",
            Refusal::Count => "the HGV's count differs from its number of lines",
            Refusal::Footer => "the HGV's footer breaks its form",
            Refusal::Frame =>
                "a line of the HGV lacks 1 in front or LF at its end, or has a byte below 32",
            Refusal::Slots => "more used slots would follow than there are",
            Refusal::HgcBuffer => "the buffer for the HGC is too short",
            Refusal::ThinList =>
                "twice the lines taken are fewer than the records held for the sender",
            Refusal::Index => "the index has fewer numbers than the register has slots",
            Refusal::Key => "the key breaks its form",
            Refusal::NoRecord => "no record fits",
            Refusal::SeveralRecords => "more than one active record fits",
            Refusal::OtherActor => "the copy has a record of another actor than the HGV's sender",
            Refusal::Hgc =>
                "the HGC breaks its form, does not fit the HGV, or cannot have its offset",
            Refusal::VerdictBlock => "the block for the verdicts is too short",
            Refusal::Given =>
                "a field or an issuer row breaks its rule, no issuer row has the sender, or there are more than 8,192 accounts",
            Refusal::SamePan => "two accounts have the same PAN",
            Refusal::HgvBuffer => "the buffer for the HGV is too short",
        })
    }
}
