//! What a variable is: its type, the program instance that declares it, and where it lies (2.4.1.1).

ghost use Rattle.std.specs.Prelude.{◌≡◌, ◌++◌, None, OnOk, flat_map};
ghost use Rattle.sfc_base.specs.LocationText as locations;
ghost use Rattle.sfc_replay.specs.sfc_debug.Agreement.{plant_of};
ghost use Rattle.sfc_replay.specs.sfc_debug.Histories.{CommandHistory};
ghost use Rattle.sfc_replay.specs.sfc_debug.Steered.{Steered};
ghost use Rattle.sfc_c.specs.About as rules;
ghost use Rattle.sfc_c.specs.Codes as codes;
ghost use Rattle.sfc_c.specs.Handles.{Holds};
ghost use Rattle.sfc_c.specs.Readings as readings;
ghost use Rattle.sfc_c.specs.Texts.{GivesOr, IsNone, Tells};

use crate::giving::give_or;
use crate::handle::Handle;
use crate::sfc_debug::debugger::Debugger;
use crate::status::{CLOSED, NO_MEMORY, UNKNOWN};
use sfc_base::ids::VarId;
use sfc_base::location::{Area, Location, Size};
use sfc_base::var_type::VarType;
use sfc_page::append::{append, append_number};
use sfc_plant::image_variable::ImageVariable;
use std::alloc::{AllocError, Global};

/// What a variable is: `sfc_about_t` of `sfc.h`.
#[repr(C)]
#[derive(Clone, Copy)]
pub struct About {
    /// 0 BOOL, 1 INT, 2 DINT, 3 TIME.
    pub var_type: i32,
    /// 1 where it lies at %I, 2 at %Q, 3 at %M; 0 where it lies nowhere.
    pub area: i32,
    /// The program instance that declares it; -1 for a global one.
    pub program: i32,
}

// The number of a type.
fn type_number(var_type: VarType) -> i32
    ensures { result ≡ rules.type_number var_type }
{
    match var_type {
        VarType::Bool => 0,
        VarType::Int => 1,
        VarType::Dint => 2,
        VarType::Time => 3,
    }
}

// The number of the area of a location; 0 for none.
fn area_of(location: &Option<Location>) -> i32
    ensures { result ≡ rules.area_of location.now }
{
    match location {
        None => 0,
        Some(location) => match location.area() {
            Area::Input => 1,
            Area::Output => 2,
            Area::Memory => 3,
        },
    }
}

// The program instance that declares what a variable of the image is; -1 for a global one.
fn program_of(image: Option<ImageVariable>) -> i32
    ensures { result ≡ rules.program_of image }
{
    match image {
        Some(ImageVariable::Local(program, _)) => i32::from(program.0),
        _ => -1,
    }
}

// What the variable is, if there is one with this number.
fn about_in(debugger: &Debugger, id: VarId) -> Option<About>
    ensures { result ≡ rules.about (plant_of debugger.now) id }
{
    let plant = debugger.resource().plant();
    let variable = plant.variable(id)?;
    Some(About {
        var_type: type_number(variable.var_type),
        area: area_of(&variable.location),
        program: program_of(plant.image_variable(id)),
    })
}

/// What the variable is: its type, the area in which it lies, and the program instance that declares it. -3 where there is none.
#[unsafe(no_mangle)]
pub extern "C" fn sfc_about(alloc: Global, plc: &mut Handle, var: u16, into: &mut About) -> i32
    ensures about { (s : Steered) (h : CommandHistory) → Holds plc.old.value s h →
        readings.Gives (rules.about s.plant (record { 0 = var })) into.old into.new result }
    ensures kept { plc.new.value ≡ plc.old.value }
    ensures closed { plc.old.value ≡ None → result ≡ codes.closed }
{
    match plc.read(alloc, |debugger| about_in(debugger, VarId(var))) {
        None => CLOSED,
        Some(None) => UNKNOWN,
        Some(Some(about)) => {
            *into = about;
            0
        }
    }
}

// The letter of an area.
fn area_letter(area: Area) -> &'static [u8]
    ensures { result.now ≡ locations.area_text area }
{
    match area {
        Area::Input => b"I",
        Area::Output => b"Q",
        Area::Memory => b"M",
    }
}

// The letter of a size.
fn size_letter(size: Size) -> &'static [u8]
    ensures { result.now ≡ locations.size_text size }
{
    match size {
        Size::Bit => b"X",
        Size::Byte => b"B",
        Size::Word => b"W",
        Size::DoubleWord => b"D",
        Size::LongWord => b"L",
    }
}

// The number behind a point.
fn append_behind_point(out: &mut Vec<u8>, number: u32) -> Result<(), AllocError>
    ensures { OnOk result (out.new.items ≡ out.old.items ++ locations.behind_point number) }
{
    append(out, b".")?;
    append_number(out, u64::from(number))
}

// The numbers, each behind a point.
#[tactic(auto, using(crate::proofs::Texts::grown))]
fn append_behind_points(out: &mut Vec<u8>, numbers: &[u32]) -> Result<(), AllocError>
    ensures { OnOk result (out.new.items ≡ out.old.items ++ flat_map locations.behind_point numbers.now) }
{
    for number in numbers {
        append_behind_point(out, *number)?;
    }
    Ok(())
}

// The numbers, parted by points.
fn append_numbers(out: &mut Vec<u8>, numbers: &[u32]) -> Result<(), AllocError>
    ensures { OnOk result (out.new.items ≡ out.old.items ++ locations.numbers_text numbers.now) }
{
    let Some((number, others)) = numbers.split_first() else {
        return Ok(());
    };
    append_number(out, u64::from(*number))?;
    append_behind_points(out, others)
}

// The text of a location.
fn append_location(out: &mut Vec<u8>, location: &Location) -> Result<(), AllocError>
    ensures { OnOk result (out.new.items ≡ out.old.items ++ locations.location_text location.now) }
{
    append(out, b"%")?;
    append(out, area_letter(location.area()))?;
    append(out, size_letter(location.size()))?;
    append_numbers(out, location.numbers())
}

// The text of a location, if there is one.
fn append_place(out: &mut Vec<u8>, location: &Option<Location>) -> Result<(), AllocError>
    ensures { OnOk result (out.new.items ≡ out.old.items ++ rules.place_text location.now) }
{
    match location {
        None => Ok(()),
        Some(location) => append_location(out, location),
    }
}

// Where the variable lies; -3 where there is none, -4 where memory was refused.
fn location_in(alloc: Global, debugger: &Debugger, id: VarId) -> Result<Vec<u8>, i32>
    ensures { Tells (λ text. text.items) (rules.location_of (plant_of debugger.now) id) result }
{
    let Some(variable) = debugger.resource().plant().variable(id) else {
        return Err(UNKNOWN);
    };
    let mut text = Vec::new(alloc);
    match append_place(&mut text, &variable.location) {
        Ok(()) => Ok(text),
        Err(_) => Err(NO_MEMORY),
    }
}

/// Where the variable lies, as %IX0.0; nothing where it lies nowhere. -3 where there is no such variable, -4 where memory was refused, -6
/// where the buffer is too short; `needed` tells the length.
#[unsafe(no_mangle)]
pub extern "C" fn sfc_location(
    alloc: Global,
    plc: &mut Handle,
    var: u16,
    into: &mut [u8],
    needed: &mut usize,
) -> i32
    ensures location { (s : Steered) (h : CommandHistory) → Holds plc.old.value s h →
        GivesOr (rules.location_of s.plant (record { 0 = var })) into.old into.new needed.new result }
    ensures kept { plc.new.value ≡ plc.old.value }
    ensures closed { plc.old.value ≡ None → IsNone codes.closed into.old into.new needed.new result }
{
    let text = plc.read(alloc, |debugger| location_in(alloc, debugger, VarId(var)));
    give_or(text.unwrap_or(Err(CLOSED)), into, needed)
}
