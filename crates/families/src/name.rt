// The names and the numbers of the families.
ghost use Rattle.std.specs.Prelude.{◌≡◌, Some, ok_or, MatchResult};
ghost use Rattle.families.specs.Names.{numbered, shown, Named, Unnamed};

use std::fmt;
use std::str::FromStr;

#[derive(Clone, Copy, PartialEq, Eq, Debug)]
pub enum FamilyName {
    Nh,
    Nhs,
    MmhStar,
    Mmh,
}

// A number or a text that names no family.
#[derive(Clone, Copy, PartialEq, Eq, Debug)]
pub struct UnknownFamily;

// Written out, since a derived Display has no contract, and says nothing of what it prints.
impl fmt::Display for FamilyName {
    ghost output = { λ family. Some (shown family) };

    fn fmt<W: fmt::Write>(&self, f: &mut fmt::Formatter<W>) -> fmt::Result {
        f.write_str(match self {
            FamilyName::Nh => "NH",
            FamilyName::Nhs => "NHS",
            FamilyName::MmhStar => "MMH*",
            FamilyName::Mmh => "MMH",
        })
    }
}

// By the number on a line.
impl TryFrom<u8> for FamilyName {
    type Error = UnknownFamily;

    ghost try_from_gives = { λ number r. r ≡ ok_or (numbered number) (record {}) };

    fn try_from(number: u8) -> Result<Self, UnknownFamily> {
        match number {
            1 => Ok(FamilyName::Nh),
            2 => Ok(FamilyName::Nhs),
            3 => Ok(FamilyName::MmhStar),
            4 => Ok(FamilyName::Mmh),
            _ => Err(UnknownFamily),
        }
    }
}

// By name; a shell takes the star of MMH* for a pattern, so that family has a second name.
impl FromStr for FamilyName {
    type Err = UnknownFamily;

    ghost from_str_gives = { λ text r. MatchResult r (λ family. Named family text) (λ _. Unnamed text) };

    fn from_str(text: &str) -> Result<Self, UnknownFamily> {
        match text {
            "NH" => Ok(FamilyName::Nh),
            "NHS" => Ok(FamilyName::Nhs),
            "MMH*" | "MMHSTAR" => Ok(FamilyName::MmhStar),
            "MMH" => Ok(FamilyName::Mmh),
            _ => Err(UnknownFamily),
        }
    }
}
