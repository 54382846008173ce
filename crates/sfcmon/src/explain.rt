//! What refusals and faults mean.

use crate::files::end_with;
use crate::lint::explain_kind;
use crate::sfc_explain::finding::find;
use crate::sfc_explain::page::{put_list, put_page};
use crate::sfc_explain::table::{faults, of_charts, of_commands};
use sfc_base::write_fault::WriteFault;
use sfc_lint::kind::kind_named;
use sfc_replay::replay_error::ReplayError;
use std::io;

// The lines of all tables, one after the other.
fn put_lists<W: io::Write>(out: &mut W) -> Result<(), WriteFault> {
    put_list(of_charts(), out)?;
    put_list(of_commands(), out)?;
    put_list(faults(), out)
}

/// Prints the number and the name of each refusal and fault, a line each: the exit status.
pub fn list_explanations<R: Print + Eprint>(rt: &R) -> u8 {
    let mut out = io::writer(rt);
    match put_lists(&mut out) {
        Ok(()) => 0,
        Err(fault) => end_with(rt, ReplayError::from(fault)),
    }
}

// Prints what the kind of warnings with this code or name means: the exit status. Where there is none, a line on standard error says so, and
// the status is that of wrong words.
fn explain_warning<R: Print + Eprint>(rt: &R, word: &str) -> u8 {
    let Some(kind) = kind_named(word.as_bytes()) else {
        let _ = eprintln!(rt;
            "error: no refusal or fault is called '{word}'; 'sfcmon explain' lists all"
        );
        return 2;
    };
    explain_kind(rt, kind)
}

/// Prints what the refusal or fault with this number or name means: the exit status. Where there is none, it is
/// that of the kind of warnings with this code or name; where there is none either, a line on standard error says so, and the status is that
/// of wrong words.
pub fn explain_word<R: Print + Eprint>(rt: &R, word: &str) -> u8 {
    // A word of digits is a number.
    let number = word.parse::<u8>().ok();
    let tables = [of_charts(), of_commands(), faults()];
    let Some(explanation) = find(&tables, number, word.as_bytes()) else {
        return explain_warning(rt, word);
    };
    let mut out = io::writer(rt);
    match put_page(explanation, &mut out) {
        Ok(()) => 0,
        Err(fault) => end_with(rt, ReplayError::from(fault)),
    }
}
