// Tags as words, and the root list.
ghost use Rattle.std.specs.Prelude.{◌≡◌, [], ◌∷◌};
ghost use Rattle.jobs.specs.Reading.{tag_words};
ghost use Rattle.jobs.specs.Roots.{root_words};

const HALF: u64 = 1 << 32;

// A tag as the pair of its low and its high word.
pub fn split_tag(tag: u64) -> (u32, u32)
    ensures { result.0 ∷ result.1 ∷ [] ≡ tag_words tag }
{
    ((tag % HALF) as u32, (tag / HALF) as u32)
}

// The root list: the two words of the tag at the top of the levels, the document's length, the label.
pub(crate) fn root_words(top: u64, length: u32, label: u32) -> [u32; 4]
    ensures { result ≡ root_words top length label }
{
    let (low, high) = split_tag(top);
    [low, high, length, label]
}
