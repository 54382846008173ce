//! A resource on the heap, as one word that C keeps.

ghost use Rattle.std.specs.Prelude.{◌≡◌, Option, Some, None};
ghost use Rattle.sfc_c.specs.declared.plc.Plc.{Plc as PlcData};
ghost use Rattle.sfc_c.specs.contracts.plc.Plc as plc_type;
ghost use Rattle.std.specs.Coded.{codes};

use crate::loose::Loose;
use crate::plc::Plc;
use crate::sfc_debug::debugger::Debugger;
use std::alloc::Global;
use std::marker::Model;
use std::mem::replace;
use std::ptr::null_mut;

/// What C may not look into.
#[repr(C)]
pub struct Opaque {
    byte: u8,
}

/// A resource, or none.
#[repr(C)]
pub struct Handle {
    at: *mut Opaque,
    pub ghost value: { Option PlcData } by { Prim.hlevel (codes, plc_type.the_row.coded) },
}

impl Model for Handle {
    ghost use Rattle.sfc_c.specs.Held.{held};

    ghost also_owns = { λ h. held h.at h.value };
}

impl Handle {
    ghost use Rattle.std.specs.Fn.{FnOnceReturnsAt, FnOnceReturnsAtMut};
    ghost use Rattle.std.specs.Option.{MatchOption};
    ghost use Rattle.sfc_c.specs.Resources.{debugger_in};

    fn closed() -> Handle
        ensures { result.value ≡ None }
    {
        Handle { at: null_mut() }
    }

    fn of(plc: Loose<Plc, Global>) -> Handle
        ensures { result.value ≡ Some plc.value }
    {
        let Loose { at, alloc: _ } = plc;
        Handle {
            at: at as *mut Opaque,
        }
    }

    fn into_loose(self, alloc: Global) -> Option<Loose<Plc, Global>>
        ensures { MatchOption result (self.value ≡ None) (λ plc. self.value ≡ Some plc.value) }
    {
        let Handle { at } = self;
        if at.is_null() {
            None
        } else {
            Some(Loose {
                at: at as *mut Plc,
                alloc,
            })
        }
    }

    /// Takes the resource out, if there is one.
    pub fn take(&mut self, alloc: Global) -> Option<Box<Plc>>
        ensures value { MatchOption result (self.old.value ≡ None) (λ plc. self.old.value ≡ Some plc.value) }
        ensures closed { self.new.value ≡ None }
    {
        match replace(self, Handle::closed()).into_loose(alloc) {
            None => None,
            Some(plc) => Some(plc.into_box()),
        }
    }

    /// Puts a resource in, in the place of one that is there.
    pub fn put(&mut self, plc: Box<Plc>, alloc: Global)
        ensures { self.new.value ≡ Some plc.value }
    {
        if let Some(old) = replace(self, Handle::of(Loose::of(plc))).into_loose(alloc) {
            drop(old.into_box());
        }
    }

    /// What is read of the debugger, if there is a resource; it stays as it is.
    pub fn read<R, F: FnOnce(&Debugger) -> R>(&mut self, alloc: Global, f: F) -> Option<R>
        requires { F.IsAlwaysCallable f }
        ensures kept { self.new.value ≡ self.old.value }
        ensures read { MatchOption result (self.old.value ≡ None) (λ r.
            (plc : PlcData) × (self.old.value ≡ Some plc) × FnOnceReturnsAt F.FnOnce f (debugger_in plc) r) }
    {
        let plc = self.take(alloc)?;
        let r = f(plc.debugger());
        self.put(plc, alloc);
        Some(r)
    }

    /// What is done with the resource, if there is one.
    pub fn change<R, F: FnOnce(&mut Plc) -> R>(&mut self, alloc: Global, f: F) -> Option<R>
        requires { F.IsAlwaysCallable f }
        ensures { MatchOption result ((self.old.value ≡ None) × (self.new.value ≡ None)) (λ r.
            (old : PlcData) × (new : PlcData) × (self.old.value ≡ Some old) × (self.new.value ≡ Some new)
            × FnOnceReturnsAtMut F.FnOnce f old r new) }
    {
        let mut plc = self.take(alloc)?;
        let r = f(&mut plc);
        self.put(plc, alloc);
        Some(r)
    }
}
