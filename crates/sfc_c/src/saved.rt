//! What a resource leaves for later commands, kept aside.

use crate::sfc_debug::opening::DebugOpening;

/// What the commands of a resource leave for later ones: what its debugger keeps of them, and the raw instant of the latest, in
/// microseconds.
pub struct Saved {
    pub opening: DebugOpening,
    pub instant: i64,
}

// By hand, so that a caller that drops one proves one call.
impl Drop for Saved {
    fn drop(self) {
        let Saved {
            opening: _,
            instant: _,
        } = self;
    }
}
