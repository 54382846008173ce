//! Actions with a body (2.6.4.1).

use crate::typed::Statements;
use sfc_base::name::Name;

/// An action that was declared, with its body.
#[derive(Debug)]
pub struct Action {
    pub name: Name,
    pub body: Statements,
}

// By hand, so that a caller that drops one proves one call.
impl Drop for Action {
    fn drop(self) {
        let Action { name: _, body: _ } = self;
    }
}
