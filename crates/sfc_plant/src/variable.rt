//! Variables (2.4).

use sfc_base::location::Location;
use sfc_base::name::Name;
use sfc_base::value::Value;
use sfc_base::var_type::VarType;

/// A variable, with its location, if it has one (2.4.1.1), and the value that it begins with (2.4.2).
#[derive(Debug, Drop)]
pub struct Variable {
    pub name: Name,
    pub var_type: VarType,
    pub location: Option<Location>,
    pub initial: Value,
}
