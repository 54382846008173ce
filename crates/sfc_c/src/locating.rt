//! Variables by their locations (2.4.1.1).

ghost use Rattle.std.specs.Prelude.{◌≡◌, IfOk, IfErr, Ok};
ghost use Rattle.sfc_tokens.specs.Texts.{TextLexes};
ghost use Rattle.sfc_tokens.specs.Tokens.{kinds};
ghost use Rattle.sfc_replay.specs.sfc_core.Agreement.{plant_of};
ghost use Rattle.sfc_c.specs.Names as names;

use crate::number::variable_number;
use crate::sfc_core::resource::Resource;
use crate::sfc_variables::located::same_location;
use crate::status::{NO_MEMORY, UNKNOWN};
use sfc_base::ids::VarId;
use sfc_base::location::Location;
use sfc_events::read_error::ReadErrorKind;
use sfc_plant::plant::Plant;
use sfc_plant::variable::Variable;
use sfc_tokens::lex::tokens;
use sfc_tokens::token::{Token, TokenKind};
use std::alloc::Global;

// Whether the location is this one, where it is one.
fn is_location(location: &Location, own: &Option<Location>) -> bool
    ensures { result ≡ names.is_location location.now own.now }
{
    match own {
        Some(own) => same_location(own, location),
        None => false,
    }
}

// Whether a variable lies there.
fn lies_at(plant: &Plant, location: &Location, id: VarId) -> bool
    ensures { result ≡ names.lies_at plant.now location.now id.0 }
{
    match plant.variable(id) {
        Some(variable) => is_location(location, &variable.location),
        None => false,
    }
}

// A variable that lies there, if one does.
fn variable_at(resource: &Resource, location: &Location) -> Option<VarId>
    ensures { names.IsAt (plant_of resource.now) location.now result }
{
    'variables: for k in 0..resource.variables() {
        if lies_at(resource.plant(), location, VarId(k as u16)) {
            return Some(VarId(k as u16));
        }
    }
    None
}

// The number of the variable whose location the token is; -3 where it is none's.
fn number_of_token(resource: &Resource, token: &Token) -> i32
    ensures { names.IsToken (plant_of resource.now) token.now.kind result }
{
    match &token.kind {
        TokenKind::Location(location) => variable_number(variable_at(resource, location)),
        _ => UNKNOWN,
    }
}

// The number of the variable whose location the tokens are; -3 where they are none's.
fn number_of_tokens(resource: &Resource, tokens: &[Token]) -> i32
    ensures { names.IsLocated (plant_of resource.now) (Ok (kinds tokens.now)) result }
{
    match tokens {
        [token] => number_of_token(resource, token),
        _ => UNKNOWN,
    }
}

/// The number of the variable that lies there, by a text such as `%IX0.0`; -3 where none does, or it is no location; -4 where memory
/// was refused.
pub fn number_of_location(alloc: Global, resource: &Resource, text: &[u8]) -> i32
    ensures { names.LocationFinds (plant_of resource.now) text.now result }
{
    match tokens(alloc, text) {
        Ok(tokens) => number_of_tokens(resource, tokens.as_slice()),
        Err(error) => match error.kind {
            ReadErrorKind::Memory => NO_MEMORY,
            _ => UNKNOWN,
        },
    }
}

/// Whether the text is to be a location.
pub fn begins_location(text: &[u8]) -> bool
    ensures { result ≡ names.begins_location text.now }
{
    match text.first() {
        Some(byte) => *byte == b'%',
        None => false,
    }
}
