//! What lines of a test say.

ghost use Rattle.std.specs.Prelude.{◌≡◌, IfOk, MatchOption, option_map};
ghost use Rattle.sfc_debug.specs.sfc_core.Agreement.{plant_of};
ghost use Rattle.sfc_cases.specs.declared.deed.Deed.TheVariants.{Stirs};
ghost use Rattle.sfc_cases.specs.declared.said.Said.TheVariants.{Names, Wrong};
ghost use Rattle.sfc_cases.specs.Conditions.{IsReader, Reader, condition_by};
ghost use Rattle.sfc_script.specs.Commands as commands;
ghost use Rattle.sfc_script.specs.Lines as script_lines;
ghost use Rattle.sfc_cases.specs.Deeds as deeds;
ghost use Rattle.sfc_cases.specs.Lines as lines;

use crate::condition::{Asked, condition_in};
use crate::deed::Deed;
use crate::expecting::read_expected;
use crate::instant::{Instant, read_instant};
use crate::named::{Named, put_replaced};
use crate::said::Said;
use crate::sfc_core::resource::Resource;
use crate::stimulating::{read_at, read_every, read_ramp};
use crate::stimulus::Stimulus;
use crate::watching::{read_response, read_run, read_until, read_watched};
use crate::words::{from_word, kept};
use sfc_base::case::is_same_word;
use sfc_plant::plant::Plant;
use sfc_script::command::{Conditional, read_command, read_conditional};
use sfc_script::split::{first_word, two_words};
use std::alloc::{AllocError, Global};

// What is said by a deed, where there is one.
fn does(instant: Instant, deed: Option<Deed>) -> Said
    ensures { result ≡ deeds.does instant deed }
{
    match deed {
        Some(deed) => Said::Does(instant, deed),
        None => Said::Wrong,
    }
}

// BREAK program point WHEN text. The error is that memory was refused.
fn read_awaited(
    alloc: Global,
    plant: &Plant,
    instant: Instant,
    conditional: Conditional<'_>,
) -> Result<Said, AllocError>
    ensures { (read : Reader) → IsReader read → IfOk result (λ said. said ≡ deeds.waits instant conditional.entry.place.point
        (condition_by plant.now conditional.entry.place.program (read conditional.entry.text.now))) }
{
    let asked = Asked {
        program: conditional.place.program,
        text: conditional.text,
    };
    match condition_in(alloc, plant, asked)? {
        Some(condition) => Ok(Said::Waits(instant, conditional.place.point, condition)),
        None => Ok(Said::Wrong),
    }
}

// A command of a script. The error is that memory was refused.
fn read_given(
    alloc: Global,
    resource: &Resource,
    instant: Instant,
    text: &[u8],
) -> Result<Said, AllocError>
    ensures { (read : Reader) → IsReader read → IfOk result (λ said. said ≡ deeds.given_by (plant_of resource.now) read instant
        (commands.command_of (plant_of resource.now) text.now) (commands.conditional_of (plant_of resource.now) text.now)) }
{
    if let Some(command) = read_command(resource, text) {
        return Ok(Said::Does(instant, Deed::Gives(command)));
    }
    match read_conditional(resource, text) {
        Some(conditional) => read_awaited(alloc, resource.plant(), instant, conditional),
        None => Ok(Said::Wrong),
    }
}

// The deed of a stimulus, where there is one.
fn stirs(stimulus: Option<Stimulus>) -> Option<Deed>
    ensures { result ≡ option_map Stirs stimulus }
{
    match stimulus {
        Some(stimulus) => Some(Deed::Stirs(stimulus)),
        None => None,
    }
}

// A stimulus or a command of a script. The error is that memory was refused.
fn read_stirred(
    alloc: Global,
    resource: &Resource,
    instant: Instant,
    text: &[u8],
) -> Result<Said, AllocError>
    ensures { (read : Reader) → IsReader read → IfOk result (λ said.
        said ≡ deeds.stirred_by (plant_of resource.now) read instant text.now (script_lines.first_word text.now)) }
{
    let Some((word, behind)) = first_word(text) else {
        return Ok(Said::Wrong);
    };
    if is_same_word(word, b"EVERY") {
        Ok(does(instant, stirs(read_every(resource, behind))))
    } else if is_same_word(word, b"AT") {
        Ok(does(instant, stirs(read_at(resource, behind))))
    } else if is_same_word(word, b"RAMP") {
        Ok(does(instant, stirs(read_ramp(resource.plant(), behind))))
    } else {
        read_given(alloc, resource, instant, text)
    }
}

// What a text says at an instant. The error is that memory was refused.
fn read_deed(
    alloc: Global,
    resource: &Resource,
    instant: Instant,
    text: &[u8],
) -> Result<Said, AllocError>
    ensures { (read : Reader) → IsReader read → IfOk result (λ said.
        said ≡ deeds.deed_by (plant_of resource.now) read instant text.now (script_lines.first_word text.now)) }
{
    let plant = resource.plant();
    let Some((word, behind)) = first_word(text) else {
        return Ok(Said::Wrong);
    };
    if is_same_word(word, b"RUN") {
        Ok(does(instant, read_run(behind)))
    } else if is_same_word(word, b"UNTIL") {
        Ok(does(instant, read_until(alloc, plant, behind)?))
    } else if is_same_word(word, b"EXPECT") {
        Ok(does(instant, read_expected(alloc, resource, behind)?))
    } else if is_same_word(word, b"ALWAYS") {
        Ok(does(instant, read_watched(alloc, plant, true, behind)?))
    } else if is_same_word(word, b"NEVER") {
        Ok(does(instant, read_watched(alloc, plant, false, behind)?))
    } else if is_same_word(word, b"WITHIN") {
        Ok(does(instant, read_response(alloc, plant, behind)?))
    } else {
        read_stirred(alloc, resource, instant, text)
    }
}

// What a text says, with its instant or without one. The error is that memory was refused.
fn read_timed(alloc: Global, resource: &Resource, text: &[u8]) -> Result<Said, AllocError>
    ensures { (read : Reader) → IsReader read → IfOk result (λ said.
        said ≡ deeds.timed_by (plant_of resource.now) read text.now (script_lines.first_word text.now)) }
{
    let Some((word, behind)) = first_word(text) else {
        return Ok(Said::Wrong);
    };
    match read_instant(word) {
        Some(instant) => read_deed(alloc, resource, instant, behind),
        None => read_deed(alloc, resource, Instant::Same, text),
    }
}

// TEST name. The error is that memory was refused.
fn read_test(alloc: Global, text: &[u8]) -> Result<Said, AllocError>
    ensures { IfOk result (λ said. said ≡ deeds.begun (lines.from_word text.now)) }
{
    let name = from_word(text);
    if name.is_empty() {
        return Ok(Said::Wrong);
    }
    Ok(Said::Does(Instant::Same, Deed::Begins(kept(alloc, name)?)))
}

// What stands behind LET: a name, and behind the sign a word.
fn words_of_let<'a>(text: &'a [u8]) -> Option<(&'a [u8], &'a [u8])>
    ensures { MatchOption result (deeds.named_of (script_lines.first_word text.now) ≡ Wrong)
        (λ w. deeds.named_of (script_lines.first_word text.now) ≡ Names (record { name = w.0.now; word = w.1.now })) }
{
    let (name, behind) = first_word(text)?;
    let (sign, word) = two_words(behind)?;
    if is_same_word(sign, b"=") {
        Some((name, word))
    } else {
        None
    }
}

// LET name = word. The error is that memory was refused.
fn read_let(alloc: Global, text: &[u8]) -> Result<Said, AllocError>
    ensures { IfOk result (λ said. said ≡ deeds.named_of (script_lines.first_word text.now)) }
{
    match words_of_let(text) {
        Some((name, word)) => Ok(Said::Names(Named {
            name: kept(alloc, name)?,
            word: kept(alloc, word)?,
        })),
        None => Ok(Said::Wrong),
    }
}

// What a line says in which names stand for words. The error is that memory was refused.
fn read_replaced(
    alloc: Global,
    resource: &Resource,
    names: &[Named],
    line: &[u8],
) -> Result<Said, AllocError>
    ensures { (read : Reader) → IsReader read → IfOk result (λ said. said ≡ deeds.timed_by (plant_of resource.now) read
        (lines.replaced names.now line.now) (script_lines.first_word (lines.replaced names.now line.now))) }
{
    let mut text = Vec::new(alloc);
    put_replaced(alloc, &mut text, names, line)?;
    read_timed(alloc, resource, &text)
}

// Whether the word begins with a semicolon.
fn begins_comment(word: &[u8]) -> bool
    ensures { result ≡ commands.begins_comment word.now }
{
    match word.first() {
        Some(byte) => *byte == b';',
        None => false,
    }
}

/// What a line of a test says, without its end, where these names stand for words. Of commands the names that aren't found stand as numbers
/// that no plant has, as in `read_command`. The error is that memory was refused.
pub fn read_line(
    alloc: Global,
    resource: &Resource,
    names: &[Named],
    line: &[u8],
) -> Result<Said, AllocError>
    ensures { (read : Reader) → IsReader read → IfOk result (λ said.
        said ≡ deeds.said_of (plant_of resource.now) read names.now line.now) }
{
    let Some((word, behind)) = first_word(line) else {
        return Ok(Said::Nothing);
    };
    if begins_comment(word) {
        Ok(Said::Nothing)
    } else if is_same_word(word, b"TEST") {
        read_test(alloc, behind)
    } else if is_same_word(word, b"LET") {
        read_let(alloc, behind)
    } else {
        read_replaced(alloc, resource, names, line)
    }
}
