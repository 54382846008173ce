//! Words of a line.

ghost use Rattle.std.specs.Prelude.{◌≡◌, ◌∷◌, ◌<◌, [], ℕ, List, Option, None, Some, if◌then◌else◌, option_map, IfOk, IfSome, MatchOption};
ghost use Rattle.sfc_script.specs.Lines as script_lines;
ghost use Rattle.sfc_cases.specs.Conditions as conditions;
ghost use Rattle.sfc_cases.specs.declared.joined.Joint.{Joint};
ghost use Rattle.sfc_cases.specs.Lines as lines;

use crate::joined::Joint;
use sfc_base::case::is_same_word;
use sfc_base::items::Items;
use sfc_script::split::{begins_with_blank, first_word, is_blank};
use std::alloc::{AllocError, Global};

// What stands behind the keyword, where the text begins with that word.
fn behind_keyword<'a>(text: &'a [u8], keyword: &[u8]) -> Option<&'a [u8]>
    ensures { MatchOption result (lines.behind_keyword keyword.now text.now ≡ None)
        (λ behind. lines.behind_keyword keyword.now text.now ≡ Some behind.now) }
{
    if begins_with_blank(text) {
        return None;
    }
    let (word, behind) = first_word(text)?;
    if is_same_word(word, keyword) {
        Some(behind)
    } else {
        None
    }
}

// The same behind a blank, which this byte has to be.
fn behind_blank<'a>(byte: u8, text: &'a [u8], keyword: &[u8]) -> Option<&'a [u8]>
    ensures none { result ≡ None → (later : Option (List ℕ × List ℕ)) → lines.divided_by byte
        (if script_lines.is_blank byte then lines.behind_keyword keyword.now text.now else None) later ≡ option_map (λ d. (byte ∷ d.0, d.1)) later }
    ensures some { IfSome result (λ behind. (later : Option (List ℕ × List ℕ)) → lines.divided_by byte
        (if script_lines.is_blank byte then lines.behind_keyword keyword.now text.now else None) later ≡ Some ([], behind.now)) }
{
    if !is_blank(byte) {
        return None;
    }
    behind_keyword(text, keyword)
}

/// What stands before the first word behind a blank that is the keyword, in any case of its letters, and what stands behind it; None where
/// there is no such word. It takes no memory.
pub fn divided<'a>(text: &'a [u8], keyword: &[u8]) -> Option<(&'a [u8], &'a [u8])>
    ensures { MatchOption result (lines.divided keyword.now text.now ≡ None)
        (λ d. lines.divided keyword.now text.now ≡ Some (d.0.now, d.1.now)) }
{
    let mut count = 0;
    let mut rest = text;
    'all: while let Some((byte, after)) = rest.split_first() {
        if let Some(behind) = behind_blank(*byte, after, keyword) {
            return Some((&text[..count], behind));
        }
        count += 1;
        rest = after;
    }
    None
}

/// Whether the first word is IN. It takes no memory.
pub fn names_instance(text: &[u8]) -> bool
    ensures { result ≡ conditions.names_instance (script_lines.first_word text.now) }
{
    match first_word(text) {
        Some((word, _)) => is_same_word(word, b"IN"),
        None => false,
    }
}

// What a word joins, where it is AND or OR.
fn joint_said(word: &[u8]) -> Option<Joint>
    ensures { result ≡ conditions.joint_said word.now }
{
    if is_same_word(word, b"AND") {
        Some(Joint::And)
    } else if is_same_word(word, b"OR") {
        Some(Joint::Or)
    } else {
        None
    }
}

// AND or OR, where the text begins with that word and the next one is IN, and what stands from there on.
fn behind_joint(text: &[u8]) -> Option<(Joint, &[u8])>
    ensures { MatchOption result (conditions.joint_of text.now ≡ None)
        (λ j. conditions.joint_of text.now ≡ Some (j.0, j.1.now)) }
{
    if begins_with_blank(text) {
        return None;
    }
    let (word, behind) = first_word(text)?;
    let joint = joint_said(word)?;
    if names_instance(behind) {
        Some((joint, behind))
    } else {
        None
    }
}

// The same behind a blank, which this byte has to be.
fn joint_behind_blank(byte: u8, text: &[u8]) -> Option<(Joint, &[u8])>
    ensures none { result ≡ None → (later : Option (List ℕ × (Joint × List ℕ))) → lines.divided_by byte
        (if script_lines.is_blank byte then conditions.joint_of text.now else None) later ≡ option_map (λ d. (byte ∷ d.0, d.1)) later }
    ensures some { IfSome result (λ j. (later : Option (List ℕ × (Joint × List ℕ))) → lines.divided_by byte
        (if script_lines.is_blank byte then conditions.joint_of text.now else None) later ≡ Some ([], (j.0, j.1.now))) }
{
    if !is_blank(byte) {
        return None;
    }
    behind_joint(text)
}

// What stands before the first AND IN or OR IN behind a blank, which of them it is, and what stands from IN on.
fn divided_at_joint(text: &[u8]) -> Option<(&[u8], Joint, &[u8])>
    ensures { MatchOption result (lines.divided_at conditions.joint_of text.now ≡ None)
        (λ d. lines.divided_at conditions.joint_of text.now ≡ Some (d.0.now, (d.1, d.2.now))) }
{
    let mut count = 0;
    let mut rest = text;
    'all: while let Some((byte, after)) = rest.split_first() {
        if let Some((joint, behind)) = joint_behind_blank(*byte, after) {
            return Some((&text[..count], joint, behind));
        }
        count += 1;
        rest = after;
    }
    None
}

/// The same where so many may be there still; None where none may. It takes no memory.
pub fn split_joint(left: usize, text: &[u8]) -> Option<(&[u8], Joint, &[u8])>
    ensures none { result ≡ None → conditions.joint_within left text.now ≡ None }
    ensures some { IfSome result (λ d. conditions.joint_within left text.now ≡ Some (d.0.now, (d.1, d.2.now))) }
    ensures left { IfSome result (λ d. 0 < left) }
{
    if left == 0 {
        return None;
    }
    divided_at_joint(text)
}

/// What stands from the first word on; nothing where there are no words. It takes no memory.
pub fn from_word(text: &[u8]) -> &[u8]
    ensures { result.now ≡ lines.from_word text.now }
{
    let mut rest = text;
    'blanks: while let Some((byte, after)) = rest.split_first() {
        if !is_blank(*byte) {
            break;
        }
        rest = after;
    }
    rest
}

/// The bytes, kept. The one error is that memory was refused.
pub fn kept(alloc: Global, bytes: &[u8]) -> Result<Items<u8>, AllocError>
    ensures { IfOk result (λ text. text ≡ bytes.now) }
{
    let mut text = Vec::new(alloc);
    text.extend_from_slice(bytes)?;
    Ok(Items::from_vec(text))
}
