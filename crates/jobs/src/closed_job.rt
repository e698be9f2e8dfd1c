// Closed jobs, read only.
ghost use Rattle.std.specs.Prelude.{◌≡◌};

use crate::state::ClosedJob;
use families::Family;

impl<F: Family> ClosedJob<F> {
    // The root tag of the label and the document under the card.
    pub fn root_tag(&self) -> u64
        ensures { result ≡ self.now.root }
    {
        self.root
    }

    pub fn label(&self) -> u32
        ensures { result ≡ self.now.label }
    {
        self.label
    }

    // The document's length in bytes.
    pub fn length(&self) -> usize
        ensures { result ≡ self.now.length }
    {
        self.length
    }
}
