// The list of struck numbers.
ghost use Rattle.std.specs.Prelude.{◌≡◌, ◌≤◌, length, MatchResult};
ghost use Rattle.books.specs.Listing.{struck_count, listing, Listed};
ghost use Rattle.books.specs.Views.{office_view};

use crate::fate::Fate;
use crate::office_book::OfficeBook;
use crate::refusals::FewPlaces;
use pads::PadSource;

fn count_struck(fates: &[Fate]) -> usize
    ensures { result ≡ struck_count fates.now }
{
    fates.iter().filter(|fate| **fate == Fate::Struck).count()
}

// Writes the struck numbers to the front of the places.
fn write_struck(fates: &[Fate], places: &mut [u32])
    requires few { length fates.now ≤ 256 }
    requires room { struck_count fates.now ≤ length places.old }
    ensures { Listed fates.now places.old places.new (struck_count fates.now) }
{
    let struck = fates
        .iter()
        .enumerate()
        .filter(|(_, fate)| **fate == Fate::Struck);
    // A zip of places says nothing of what was written.
    for (place, (number, _)) in struck.enumerate() {
        places[place] = number as u32;
    }
}

impl<S: PadSource> OfficeBook<S> {
    // Writes each struck number once, in any order, and says how many there are.
    pub fn list_struck(&self, places: &mut [u32]) -> Result<usize, FewPlaces>
        ensures answer { result ≡ listing (office_view S.pads self.now).fates (length places.old) }
        ensures places { MatchResult result (λ k. Listed (office_view S.pads self.now).fates places.old places.new k) (λ _. places.new ≡ places.old) }
    {
        let count = count_struck(&self.fates);
        if places.len() < count {
            return Err(FewPlaces);
        }
        write_struck(&self.fates, places);
        Ok(count)
    }
}
