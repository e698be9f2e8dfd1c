// What became of a number's pad.
#[derive(Clone, Copy, PartialEq, Eq, Debug)]
pub(crate) enum Fate {
    // Not used up: not taken yet, or out.
    Unspent,
    Sealed,
    Struck,
}
