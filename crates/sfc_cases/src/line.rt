//! Lines of a test that do something.

ghost use Rattle.std.specs.Prelude.{◌≡◌};
ghost use Rattle.sfc_cases.specs.Files as files;

use crate::deed::Deed;
use crate::instant::Instant;

/// A line of a test that does something.
pub struct Line {
    /// Which line of its file it is, counted from 1.
    pub number: usize,
    /// Where the test's clock stands when it is done.
    pub instant: Instant,
    /// What it does.
    pub deed: Deed,
}

// By hand, so that a caller that drops one proves one call.
impl Drop for Line {
    fn drop(self) {
        let Line {
            number: _,
            instant: _,
            deed: _,
        } = self;
    }
}

impl Line {
    /// The name of the case that begins with this line, if one does.
    pub fn name(&self) -> Option<&[u8]> {
        match &self.deed {
            Deed::Begins(name) => Some(name.as_slice()),
            _ => None,
        }
    }

    /// Whether a case begins with it.
    pub fn begins_case(&self) -> bool
        ensures { result ≡ files.begins_case self.now }
    {
        match &self.deed {
            Deed::Begins(_) => true,
            _ => false,
        }
    }
}
