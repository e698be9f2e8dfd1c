// Key cards: 164 secret words that the office and the cutting table share.
ghost use Rattle.std.specs.Prelude.{◌≡◌};
ghost use Rattle.jobs.specs.Jobs.{card_read};

use crate::block::read_words;

// The words of a card, and its bytes in a file.
pub(crate) const WORDS: usize = 164;

const BYTES: usize = 656;

// A card that is not 164 words long.
#[derive(Clone, Copy, PartialEq, Eq, Debug)]
pub struct CardError;

// The words of a card that is stored lowest byte first.
pub fn read_card(bytes: &[u8]) -> Result<[u32; 164], CardError>
    ensures { result ≡ card_read bytes.now }
{
    if bytes.len() != BYTES {
        return Err(CardError);
    }
    Ok(read_words(bytes))
}
