//! Where a variable lies (2.4.1.1, 2.4.3.1).

ghost use Rattle.std.specs.Prelude.{◌≡◌};
ghost use Rattle.std.specs.List.{list_any};
ghost use Rattle.sfc_variables.specs.Locations as located;

use sfc_base::location::{Location, Size};
use sfc_base::var_type::VarType;
use sfc_tokens::placed::Placed;

// Whether a location of this size holds a variable of this type.
fn is_size_of(size: Size, var_type: VarType) -> bool
    ensures { result ≡ located.is_size_of size var_type }
{
    match (size, var_type) {
        (Size::Bit, VarType::Bool) => true,
        (Size::Word, VarType::Int) => true,
        (Size::DoubleWord, VarType::Dint) => true,
        _ => false,
    }
}

/// Whether a variable of this type can lie there; without a location it can.
pub fn fits_location(var_type: VarType, location: &Option<Placed<Location>>) -> bool
    ensures { result ≡ located.fits_location var_type location.now }
{
    match location {
        None => true,
        Some(location) => is_size_of(location.value().size(), var_type),
    }
}

/// Whether two locations are one.
pub fn same_location(first: &Location, second: &Location) -> bool
    ensures { result ≡ located.same_location first.now second.now }
{
    first.area() == second.area()
        && first.size() == second.size()
        && first.numbers() == second.numbers()
}

// Whether one of the others is this location.
fn is_among(location: &Location, others: &[Location]) -> bool
    ensures { result ≡ list_any (located.same_location location.now) others.now }
{
    others.iter().any(|other| same_location(location, other))
}

/// Whether two of the locations are one.
pub fn repeats(locations: &[Location]) -> bool
    ensures { result ≡ located.repeats locations.now }
{
    let mut rest = locations;
    'locations: while let Some((location, after)) = rest.split_first() {
        if is_among(location, after) {
            return true;
        }
        rest = after;
    }
    false
}
