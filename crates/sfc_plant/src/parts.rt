//! What a plant is made of.

use crate::declarations::Declarations;
use crate::instance::Instance;
use crate::name_table::NameTable;
use sfc_base::items::Items;

/// What a plant is made of, with the tables of names, and where the variables of each instance begin.
pub struct Parts {
    pub declared: Declarations,
    pub instances: Items<Instance>,
    pub instance_names: NameTable,
    pub starts: Items<usize>,
}

// By hand, so that a caller that drops one proves one call.
impl Drop for Parts {
    fn drop(self) {
        let Parts {
            declared: _,
            instances: _,
            instance_names: _,
            starts: _,
        } = self;
    }
}
