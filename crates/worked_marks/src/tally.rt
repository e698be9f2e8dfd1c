// How many of some comparisons agree.
use std::fmt;

#[derive(Clone, Copy, Default)]
pub struct Tally {
    agree: usize,
    all: usize,
}

impl Tally {
    pub fn add(&mut self, agrees: bool) {
        self.agree = self.agree.saturating_add(usize::from(agrees));
        self.all = self.all.saturating_add(1);
    }
}

impl fmt::Display for Tally {
    fn fmt<W: fmt::Write>(&self, f: &mut fmt::Formatter<W>) -> fmt::Result {
        write!(f, "{} of {} agree", self.agree, self.all)
    }
}
