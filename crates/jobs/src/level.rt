// One level above the first, and the levels above one another.
ghost use Rattle.std.specs.Prelude.{◌≡◌, ℕ, ◌*◌, ◌^◌, ◌<◌, ◌≤◌, List, [], ◌∷◌, ◌++◌, length, take, slice_index, IfSome, OnSome, IfNone};
ghost use Rattle.std.specs.Option.{option_to_list};
ghost use Rattle.jobs.specs.Roots.{block_tag, climb};
ghost use Rattle.jobs.specs.Holding.{LevelHolds, LevelsHold};

use crate::block::{stretch, words_tag};
use crate::state::Level;
use crate::waiting::TagBlock;
use families::Family;

// The words of a level's stretch of the card.
pub(crate) const STRETCH: usize = 32;

impl Level {
    // A level that has taken nothing.
    pub(crate) fn new() -> Level
        ensures { result.tags ≡ [] }
    {
        Level {
            tags: TagBlock::new(),
        }
    }

    // The tag of the block that waits here, under the level's stretch of the card.
    fn tag<F: Family>(&self, keys: &[u32; 32]) -> u64
        ensures { result ≡ block_tag F.meaning keys.now self.now.tags }
    {
        words_tag::<F>(keys, self.tags.words())
    }

    // The tag of the block that waits here, where it is full; then none waits.
    fn take_full<F: Family>(&mut self, keys: &[u32; 32]) -> Option<u64>
        ensures room { length self.new.tags < 32 }
        ensures tag { IfSome result (λ up. up ≡ block_tag F.meaning keys.now self.old.tags) }
        ensures full { OnSome result (length self.old.tags ≡ 32) }
        ensures empty { OnSome result (self.new.tags ≡ []) }
        ensures kept { IfNone result (self.new.tags ≡ self.old.tags) }
    {
        if !self.tags.is_full() {
            return None;
        }
        let up = self.tag::<F>(keys);
        self.tags.clear();
        Some(up)
    }

    // Takes a tag in; where the block was full, hands on its tag and begins another.
    fn push<F: Family>(&mut self, keys: &[u32; 32], tag: u64) -> Option<u64>
        ensures { (ks ts ups : List ℕ) → keys.now ≡ take 32 ks → LevelHolds F.meaning ks self.old ts ups → LevelHolds F.meaning ks self.new (ts ++ tag ∷ []) (ups ++ option_to_list result) }
    {
        let up = self.take_full::<F>(keys);
        self.tags.push(tag);
        up
    }
}

// Takes a tag into the lowest of some levels, and what it hands on into those above. The words of the lowest level's
// stretch begin the keys; the two lists are no struct, since each call takes the front of both off.
pub(crate) fn push_all<F: Family>(levels: &mut [Level], keys: &[u32], tag: u64)
    requires { 32 * length levels.old ≤ length keys.now }
    ensures { (ts : List ℕ) → LevelsHold F.meaning keys.now levels.old ts → LevelsHold F.meaning keys.now levels.new (ts ++ tag ∷ []) }
{
    let Some((lowest, above)) = levels.split_first_mut() else {
        return;
    };
    if let Some(up) = lowest.push::<F>(stretch(keys), tag) {
        push_all::<F>(above, &keys[STRETCH..], up);
    }
}

// The one tag that the highest of some levels gives, once the last tag is in. Levels and keys are no struct here either.
pub(crate) fn top<F: Family>(levels: &mut [Level], keys: &[u32], last: u64) -> u64
    requires { 32 * length levels.old ≤ length keys.now }
    ensures { (ts : List ℕ) → LevelsHold F.meaning keys.now levels.old ts → length ts < 16 ^ length levels.old → result ≡ slice_index (climb F.meaning (length levels.old) keys.now (ts ++ last ∷ [])) 0 }
{
    push_all::<F>(levels, keys, last);
    let Some((lowest, above)) = levels.split_first_mut() else {
        return last;
    };
    let tag = lowest.tag::<F>(stretch(keys));
    top::<F>(above, &keys[STRETCH..], tag)
}
