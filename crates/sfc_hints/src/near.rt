//! Declared names that are near to one that isn't found.

use sfc_places::declared::Declared;
use sfc_places::marks::spelling_at;
use sfc_tokens::token::Token;
use std::alloc::{AllocError, Global};
use strsim::osa_distance;

/// The longest name that is compared, in letters.
const LONGEST: usize = 64;

/// The most names that are told.
const MOST: usize = 3;

/// A name that is near, with how many letters are other ones, missing, too many or changed in order.
#[derive(Clone, Copy)]
pub struct Near {
    pub distance: usize,
    pub declared: Declared,
}

// The name in capital letters.
fn capitals(alloc: Global, name: &[u8]) -> Result<String, AllocError> {
    let mut text = String::new(alloc);
    for byte in name {
        text.push(char::from(byte.to_ascii_uppercase()))?;
    }
    Ok(text)
}

/// How far two names are from each other, where they are near: by one letter of each three, and by one at least. None where they
/// are farther, or too long to be compared. The one error is that memory was refused.
pub fn distance(alloc: Global, wanted: &[u8], name: &[u8]) -> Result<Option<usize>, AllocError> {
    let most = (wanted.len() / 3).max(1);
    let difference = wanted.len().abs_diff(name.len());
    if wanted.len() > LONGEST || name.len() > LONGEST || difference > most {
        return Ok(None);
    }
    let wanted = capitals(alloc, wanted)?;
    let name = capitals(alloc, name)?;
    let distance = osa_distance(alloc, wanted.as_str(), name.as_str())?;
    if distance > most {
        return Ok(None);
    }
    Ok(Some(distance))
}

// Puts a name behind those that are as near, and leaves out the last one where there are too many.
fn insert(found: &mut Vec<Near>, near: Near) -> Result<(), AllocError> {
    let mut place = 0usize;
    for other in found.as_slice() {
        if other.distance <= near.distance {
            place = place.saturating_add(1);
        }
    }
    if place >= MOST {
        return Ok(());
    }
    if place <= found.len() {
        found.insert(place, near)?;
    }
    found.truncate(MOST);
    Ok(())
}

/// The names that are nearest to the wanted one, up to three of those that are near, the nearest first. The one error is that
/// memory was refused.
pub fn nearest(
    alloc: Global,
    tokens: &[Token],
    wanted: &[u8],
    names: &[Declared],
) -> Result<Vec<Near>, AllocError> {
    let mut found = Vec::new(alloc);
    for declared in names {
        let name = spelling_at(tokens, declared.token);
        if let Some(distance) = distance(alloc, wanted, name)? {
            let near = Near {
                distance,
                declared: *declared,
            };
            insert(&mut found, near)?;
        }
    }
    Ok(found)
}
