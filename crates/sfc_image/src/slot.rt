//! What is kept for a variable (2.4).

ghost use Rattle.std.specs.Prelude.{◌≡◌, ◌<◌, length, None};
ghost use Rattle.sfc_base.specs.declared.value.Value.TheVariants.{Bool};
ghost use Rattle.sfc_image.specs.Private.Keeping as keeping;

use crate::image_error::ImageError;
use sfc_base::ids::VarId;
use sfc_base::value::Value;
use sfc_base::var_type::VarType;
use sfc_plant::variable::Variable;

/// The type of a variable and its initial value; its value when a transaction was opened, or now if none is open; its
/// value now; the value to which it is forced, if it is; whether it was written since a transaction was opened; and
/// whether it is an output: the variable of a Boolean action that was given its Q.
#[derive(Clone, Copy)]
pub struct Slot {
    pub var_type: VarType,
    pub initial: Value,
    pub committed: Value,
    pub stored: Value,
    pub forced: Option<Value>,
    pub is_tried: bool,
    pub is_output: bool,
}

/// Where the locals of an instance are among the variables.
#[derive(Clone, Copy)]
pub struct Locals {
    pub first: usize,
    pub count: usize,
}

/// Of a variable with which nothing was done yet.
pub fn fresh_slot(variable: &Variable) -> Slot
    ensures { result ≡ keeping.fresh_slot variable.now }
{
    Slot {
        var_type: variable.var_type,
        initial: variable.initial,
        committed: variable.initial,
        stored: variable.initial,
        forced: None,
        is_tried: false,
        is_output: false,
    }
}

/// What was tried is committed, or given up.
pub fn close(slot: &mut Slot, keep: bool)
    ensures { slot.new ≡ keeping.closed keep slot.old }
{
    if keep {
        slot.committed = slot.stored;
    } else {
        slot.stored = slot.committed;
    }
    slot.is_tried = false;
}

/// The variable begins anew.
pub fn begun(slot: Slot) -> Slot
    ensures { result ≡ keeping.begun slot }
{
    let mut next = slot;
    next.committed = slot.initial;
    next.stored = slot.initial;
    next
}

/// A value is stored for good.
pub fn with_value(slot: Slot, value: Value) -> Slot
    ensures { result ≡ keeping.with_value value slot }
{
    let mut next = slot;
    next.committed = value;
    next.stored = value;
    next
}

/// A value is stored in a transaction. It answers whether the variable was written there before.
pub fn store_tried(slot: &mut Slot, value: Value) -> bool
    ensures slot { slot.new ≡ keeping.tried value slot.old }
    ensures before { result ≡ slot.old.is_tried }
{
    slot.stored = value;
    if slot.is_tried {
        return true;
    }
    slot.is_tried = true;
    false
}

/// A BOOL is stored in a transaction. It answers whether the variable was written there before.
pub fn store_tried_bool(slot: &mut Slot, value: bool) -> bool
    ensures slot { slot.new ≡ keeping.tried (Bool value) slot.old }
    ensures before { result ≡ slot.old.is_tried }
{
    set_bool(&mut slot.stored, value);
    if slot.is_tried {
        return true;
    }
    slot.is_tried = true;
    false
}

/// A BOOL is stored for good.
pub fn store_bool(slot: &mut Slot, value: bool)
    ensures { slot.new ≡ keeping.with_value (Bool value) slot.old }
{
    set_bool(&mut slot.committed, value);
    set_bool(&mut slot.stored, value);
}

// Replaces a value by a BOOL; of a BOOL only what changes is written.
fn set_bool(place: &mut Value, value: bool)
    ensures { place.new ≡ Bool value }
{
    match place {
        Value::Bool(old) => *old = value,
        other => *other = Value::Bool(value),
    }
}

/// The variable is forced to a value, or released.
pub fn with_force(slot: Slot, value: Option<Value>) -> Slot
    ensures { result ≡ keeping.with_force value slot }
{
    let mut next = slot;
    next.forced = value;
    next
}

/// The variable is an output.
pub fn as_output(slot: Slot) -> Slot
    ensures { result ≡ keeping.as_output slot }
{
    let mut next = slot;
    next.is_output = true;
    next
}

/// What is wrong with giving a variable a value: it is not there, or of another type.
pub fn value_fault(slots: &[Slot], id: VarId, value: Value) -> Option<ImageError>
    ensures fault { result ≡ keeping.fault_at slots.now id value }
    ensures known { result ≡ None → id.0 < length slots.now }
{
    let i = id.0 as usize;
    if i >= slots.len() {
        return Some(ImageError::UnknownVar);
    }
    if value.var_type() != slots[i].var_type {
        Some(ImageError::ValueType)
    } else {
        None
    }
}
