// Key words and message words of lengths that every family takes.
ghost use Rattle.std.specs.Prelude.{◌≡◌, ◌%◌, ◌≤◌, length, IfOk};
ghost use Rattle.std.specs.Result.{result_map_both};
ghost use Rattle.families.specs.Widths.{checked};

// The key and the message differ in length, or the length is odd or above 32.
#[derive(Clone, Copy, PartialEq, Eq, Debug)]
pub struct WidthError;

// The most words that a family takes.
const MOST: usize = 32;

// The words of a key and of a message: as many of both, an even number, at most 32.
#[derive(Clone, Copy)]
pub struct Keyed<'a> {
    pub keys: &'a [u32],
    pub words: &'a [u32],
    pub ghost same: { length keys.now ≡ length words.now },
    pub ghost even: { length words.now % 2 ≡ 0 },
    pub ghost short: { length words.now ≤ 32 },
}

impl<'a> Keyed<'a> {
    // Refused where the lengths are none that a family takes.
    pub fn new(keys: &'a [u32], words: &'a [u32]) -> Result<Self, WidthError>
        ensures answer { result_map_both (λ k. tt) (λ e. e) result ≡ checked (length keys.now) (length words.now) }
        ensures keys { IfOk result (λ k. k.keys.now ≡ keys.now) }
        ensures words { IfOk result (λ k. k.words.now ≡ words.now) }
    {
        if keys.len() != words.len() || words.len() % 2 != 0 || words.len() > MOST {
            return Err(WidthError);
        }
        Ok(Keyed { keys, words })
    }
}
