//! The names that a configuration begins with (2.7.1).

use sfc_base::name::Name;

/// The names of a configuration, of its resource and of the processor.
pub struct Titles {
    pub configuration: Name,
    pub resource: Name,
    pub processor: Name,
}

// By hand, so that a caller that drops one proves one call.
impl Drop for Titles {
    fn drop(self) {
        let Titles {
            configuration: _,
            resource: _,
            processor: _,
        } = self;
    }
}
