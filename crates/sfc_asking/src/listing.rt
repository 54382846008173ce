//! The text of the chart, or of its elements of one name.

use crate::note::append_named;
use crate::sfc_list::list::list;
use sfc_base::case::is_same_word;
use sfc_page::append::append;
use sfc_plant::plant::Plant;
use std::alloc::{AllocError, Global};

// How many blanks a line begins with.
fn depth_of(line: &[u8]) -> usize {
    let mut depth: usize = 0;
    for byte in line {
        if *byte != b' ' {
            break;
        }
        depth = depth.saturating_add(1);
    }
    depth
}

// The first word of what stands behind these blanks, up to a sign.
fn word_in(line: &[u8]) -> &[u8] {
    let mut count: usize = 0;
    for byte in line {
        if !byte.is_ascii_alphanumeric() && *byte != b'_' {
            break;
        }
        count = count.saturating_add(1);
    }
    line.get(..count).unwrap_or(line)
}

// What stands behind a word and a blank.
fn behind_word<'a>(line: &'a [u8], word: &[u8]) -> &'a [u8] {
    line.get(word.len().saturating_add(1)..).unwrap_or(b"")
}

// Whether the word is one that stands before the name of an element.
fn names_element(word: &[u8]) -> bool {
    matches!(
        word,
        b"PROGRAM"
            | b"STEP"
            | b"INITIAL_STEP"
            | b"TRANSITION"
            | b"ACTION"
            | b"TASK"
            | b"CONFIGURATION"
            | b"RESOURCE"
    )
}

// The name of the element that a line begins.
fn name_in(line: &[u8]) -> &[u8] {
    let text = line.get(depth_of(line)..).unwrap_or(b"");
    let word = word_in(text);
    if names_element(word) {
        word_in(behind_word(text, word))
    } else {
        word
    }
}

// Whether a line goes on an element that began with so many blanks.
fn goes_on(line: &[u8], depth: usize) -> bool {
    let own = depth_of(line);
    if own > depth {
        return true;
    }
    let text = line.get(own..).unwrap_or(b"");
    own == depth && text.starts_with(b"END_")
}

// The lines of each element with this name; whether there are any.
fn append_elements(out: &mut Vec<u8>, text: &[u8], name: &[u8]) -> Result<bool, AllocError> {
    let mut open: Option<usize> = None;
    let mut found = false;
    for line in text.split(|byte| *byte == b'\n') {
        if let Some(depth) = open {
            if !goes_on(line, depth) {
                open = None;
            }
        }
        if open.is_none() && is_same_word(name_in(line), name) {
            open = Some(depth_of(line));
            found = true;
        }
        if open.is_some() {
            append(out, line)?;
            append(out, b"\n")?;
        }
    }
    Ok(found)
}

/// Puts at the end the listing of a plant, or where a name is given the part of it that is each element of this name. The one error is that
/// memory was refused.
pub fn append_listing(
    alloc: Global,
    out: &mut Vec<u8>,
    plant: &Plant,
    name: &[u8],
) -> Result<(), AllocError> {
    let text = list(alloc, plant)?;
    if name.is_empty() {
        return append(out, &text);
    }
    if append_elements(out, &text, name)? {
        Ok(())
    } else {
        append_named(out, b"no element ", name)
    }
}
