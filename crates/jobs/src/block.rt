// Bytes as words, and the tag of a block.
ghost use Rattle.std.specs.Prelude.{◌≡◌, ◌-◌, ◌*◌, ◌%◌, ◌≤◌, ◌++◌, length, replicate, take};
ghost use Rattle.jobs.specs.Reading.{words_of};
ghost use Rattle.jobs.specs.Roots.{block_tag};
ghost use Rattle.jobs.specs.Holding.{bytes_tag};

use families::Family;

// The words that some bytes make, lowest byte first.
pub(crate) fn read_words<const N: usize>(bytes: &[u8]) -> [u32; N]
    requires { length bytes.now ≡ 4 * N }
    ensures { result ≡ words_of N bytes.now }
{
    // As pads are read, but in fours: numbers of two widths have no trait in common. A zip of words says nothing of what
    // was written, so a word's place names its four bytes.
    let (fours, _) = bytes.as_chunks::<4>();
    let mut words = [0; N];
    for (i, word) in words.iter_mut().enumerate() {
        *word = u32::from_le_bytes(fours[i]);
    }
    words
}

// The words of the stretch that begins some words of a card.
pub(crate) fn stretch(keys: &[u32]) -> &[u32; 32]
    requires { 32 ≤ length keys.now }
    ensures { result.now ≡ take 32 keys.now }
{
    keys.first_chunk().unwrap()
}

// The tag of a block of words, under the first words of a stretch of the card.
pub(crate) fn words_tag<F: Family>(keys: &[u32; 32], words: &[u32]) -> u64
    requires short { length words.now ≤ 32 }
    requires even { length words.now % 2 ≡ 0 }
    ensures { result ≡ block_tag F.meaning keys.now words.now }
{
    F::tag(&keys[..words.len()], words).unwrap()
}

// The tag of a whole block of bytes.
pub(crate) fn whole_tag<F: Family>(keys: &[u32; 32], block: &[u8; 128]) -> u64
    ensures { result ≡ bytes_tag F.meaning keys.now block.now }
{
    words_tag::<F>(keys, &read_words::<32>(block))
}

// Bytes with zero bytes behind them, to a whole block.
fn fill_up(bytes: &[u8]) -> [u8; 128]
    requires { length bytes.now ≤ 128 }
    ensures { result ≡ bytes.now ++ replicate (128 - length bytes.now) 0 }
{
    let mut block = [0u8; 128];
    block[..bytes.len()].copy_from_slice(bytes);
    block
}

// The tag of a last block of at most 128 bytes, filled with zero bytes to a multiple of eight.
pub(crate) fn last_tag<F: Family>(keys: &[u32; 32], bytes: &[u8]) -> u64
    requires { length bytes.now ≤ 128 }
    ensures { result ≡ bytes_tag F.meaning keys.now bytes.now }
{
    let words = read_words::<32>(&fill_up(bytes));
    words_tag::<F>(keys, &words[..2 * bytes.len().div_ceil(8)])
}
