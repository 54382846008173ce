//! What stands behind EXPECT.

ghost use Rattle.std.specs.Prelude.{◌≡◌, ◌∷◌, ◌<◌, [], None, Some, length, IfOk, IfSome, MatchOption, option_map};
ghost use Rattle.sfc_debug.specs.sfc_core.Agreement.{plant_of};
ghost use Rattle.sfc_cases.specs.declared.deed.Deed.TheVariants.{Expects};
ghost use Rattle.sfc_cases.specs.Conditions as conditions;
ghost use Rattle.sfc_cases.specs.Conditions.{IsReader, Reader};
ghost use Rattle.sfc_cases.specs.Deeds as deeds;
ghost use Rattle.sfc_cases.specs.Reading.{before_comma};

use crate::condition::{Asked, find_asked, read_condition};
use crate::deed::Deed;
use crate::sfc_action::fault::ControlFault;
use crate::sfc_core::resource::Resource;
use crate::sfc_instance::scan_fault::ScanFault;
use sfc_base::case::is_same_word;
use sfc_base::ids::ProgId;
use sfc_base::items::Items;
use sfc_base::references::StepId;
use sfc_expr::fault::Fault;
use sfc_plant::plant::Plant;
use sfc_script::command::read_command;
use sfc_script::number::magnitude;
use sfc_script::split::{first_word, only_word, two_words};
use std::alloc::{AllocError, Global};

/// The greatest number of a refusal.
const GREATEST_NUMBER: u64 = 255;

/// The most overruns that a line can tell.
const MOST_OVERRUNS: u64 = 2_147_483_647;

// REFUSED number command
fn refused(resource: &Resource, text: &[u8]) -> Option<Deed>
    ensures { result ≡ deeds.refused_of (plant_of resource.now) text.now }
{
    let (word, behind) = first_word(text)?;
    let number = magnitude(word, GREATEST_NUMBER)?;
    let command = read_command(resource, behind)?;
    Some(Deed::Refuses(number as u8, command))
}

// The kind of a fault that a word names.
fn fault_said(word: &[u8]) -> Option<ScanFault>
    ensures { result ≡ deeds.fault_said word.now }
{
    if is_same_word(word, b"DivZero") {
        Some(ScanFault::Expression(Fault::DivZero))
    } else if is_same_word(word, b"Range") {
        Some(ScanFault::Expression(Fault::Range))
    } else if is_same_word(word, b"TwoTimed") {
        Some(ScanFault::Control(ControlFault::TwoTimed))
    } else if is_same_word(word, b"SdWhileSl") {
        Some(ScanFault::Control(ControlFault::SdWhileSl))
    } else if is_same_word(word, b"SlWhileSd") {
        Some(ScanFault::Control(ControlFault::SlWhileSd))
    } else {
        None
    }
}

// FAULT kind program
fn faulted(plant: &Plant, text: &[u8]) -> Option<Deed>
    ensures { result ≡ deeds.faulted_of plant.now text.now }
{
    let (kind, name) = two_words(text)?;
    let fault = fault_said(kind)?;
    let program = plant.find_instance(name)?;
    Some(Deed::Faulted(fault, program))
}

// OVERRUNS number task
fn overran(plant: &Plant, text: &[u8]) -> Option<Deed>
    ensures { result ≡ deeds.overran_of plant.now text.now }
{
    let (word, name) = two_words(text)?;
    let number = magnitude(word, MOST_OVERRUNS)?;
    let task = plant.find_task(name)?;
    Some(Deed::Overran(number, task))
}

// The step of a program instance that a part of a list names.
fn step_said(plant: &Plant, program: ProgId, part: &[u8]) -> Option<StepId>
    ensures { result ≡ deeds.step_said plant.now program part.now }
{
    let name = only_word(part)?;
    plant.find_step(program, name)
}

// What stands before the first comma, and the rest from it on.
#[tactic(auto, unfolding(crate::specs::Reading::before_comma))]
fn split_part(text: &[u8]) -> (&[u8], &[u8])
    ensures { (result.0.now, result.1.now) ≡ before_comma text.now }
{
    let mut count = 0;
    'all: for byte in text {
        if *byte == b',' {
            break;
        }
        count += 1;
    }
    text.split_at(count)
}

// The first part of a list, and what stands behind its comma, if it has one.
fn first_part(text: &[u8]) -> (&[u8], Option<&[u8]>)
    ensures last { result.1 ≡ None → deeds.parts text.now ≡ result.0.now ∷ [] }
    ensures more { IfSome result.1 (λ rest. deeds.parts text.now ≡ result.0.now ∷ deeds.parts rest.now) }
    ensures shorter { IfSome result.1 (λ rest. length rest.now < length text.now) }
{
    let (part, behind) = split_part(text);
    match behind.split_first() {
        Some((_, rest)) => (part, Some(rest)),
        None => (part, None),
    }
}

// ACTIVE step, step. The error is that memory was refused.
fn active(
    alloc: Global,
    plant: &Plant,
    program: ProgId,
    text: &[u8],
) -> Result<Option<Deed>, AllocError>
    ensures { IfOk result (λ deed. deed ≡ deeds.active_of plant.now program text.now) }
{
    let mut steps = Vec::new(alloc);
    let mut rest = text;
    'parts: loop {
        let (part, behind) = first_part(rest);
        let Some(step) = step_said(plant, program, part) else {
            return Ok(None);
        };
        steps.push(step)?;
        match behind {
            Some(others) => rest = others,
            None => return Ok(Some(Deed::Active(program, Items::from_vec(steps)))),
        }
    }
}

// A condition that has to be TRUE. The error is that memory was refused.
fn expects(alloc: Global, plant: &Plant, text: &[u8]) -> Result<Option<Deed>, AllocError>
    ensures { (read : Reader) → IsReader read → IfOk result (λ deed. deed
        ≡ option_map Expects (conditions.condition plant.now read text.now)) }
{
    match read_condition(alloc, plant, text)? {
        Some(condition) => Ok(Some(Deed::Expects(condition))),
        None => Ok(None),
    }
}

// Of which program instance steps are listed, and what stands behind ACTIVE.
fn find_listed<'a>(plant: &Plant, text: &'a [u8]) -> Option<Asked<'a>>
    ensures { MatchOption result (deeds.listed plant.now text.now ≡ None)
        (λ a. deeds.listed plant.now text.now ≡ Some (a.program, a.text.now)) }
{
    let asked = find_asked(plant, text)?;
    let (word, behind) = first_word(asked.text)?;
    if !is_same_word(word, b"ACTIVE") {
        return None;
    }
    Some(Asked {
        program: asked.program,
        text: behind,
    })
}

// What stands behind EXPECT, where its first word is no keyword. The error is that memory was refused.
fn stated(alloc: Global, plant: &Plant, text: &[u8]) -> Result<Option<Deed>, AllocError>
    ensures { (read : Reader) → IsReader read → IfOk result (λ deed. deed ≡ deeds.stated plant.now read text.now) }
{
    match find_listed(plant, text) {
        Some(listed) => active(alloc, plant, listed.program, listed.text),
        None => expects(alloc, plant, text),
    }
}

/// What a text says that stands behind EXPECT; None where it can't be read. The error is that memory was refused.
pub fn read_expected(
    alloc: Global,
    resource: &Resource,
    text: &[u8],
) -> Result<Option<Deed>, AllocError>
    ensures { (read : Reader) → IsReader read → IfOk result (λ deed.
        deed ≡ deeds.expected_of (plant_of resource.now) read text.now) }
{
    let Some((word, behind)) = first_word(text) else {
        return Ok(None);
    };
    if is_same_word(word, b"REFUSED") {
        Ok(refused(resource, behind))
    } else if is_same_word(word, b"FAULT") {
        Ok(faulted(resource.plant(), behind))
    } else if is_same_word(word, b"OVERRUNS") {
        Ok(overran(resource.plant(), behind))
    } else {
        stated(alloc, resource.plant(), text)
    }
}
