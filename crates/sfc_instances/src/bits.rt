//! How the scans of a task's instances ended.

ghost use Rattle.std.specs.Prelude.{◌≡◌, ◌<◌, ◌+◌, ◌^◌};
ghost use Rattle.sfc_events.specs.InstanceSets.{no_instance};
ghost use Rattle.sfc_instance.specs.declared.scan_end.ScanEnd.TheVariants.{Ran, Faulted, Skipped};
ghost use Rattle.sfc_instances.specs.Ends.{bit_of};

use sfc_events::instance_set::InstanceSet;
use sfc_instance::scan_end::ScanEnd;

/// The program instances whose scans ran, those whose scans a fault ended, and those that were passed over.
#[derive(Clone, Copy, Debug, PartialEq, Eq)]
pub struct Bits {
    pub ran: InstanceSet,
    pub faulted: InstanceSet,
    pub skipped: InstanceSet,
}

impl Bits {
    /// No instance was scanned yet.
    pub fn none() -> Bits
        ensures { result ≡ record { ran = no_instance; faulted = no_instance; skipped = no_instance } }
    {
        Bits {
            ran: InstanceSet::none(),
            faulted: InstanceSet::none(),
            skipped: InstanceSet::none(),
        }
    }

    /// The scan of instance k ended so; no bit from k on is set yet.
    pub fn add(&mut self, k: u32, scan_end: ScanEnd)
        requires place { k < 64 }
        requires ran { self.old.ran.bits < 2 ^ k }
        requires faulted { self.old.faulted.bits < 2 ^ k }
        requires skipped { self.old.skipped.bits < 2 ^ k }
        ensures ran { self.new.ran.bits ≡ self.old.ran.bits + bit_of Ran k scan_end }
        ensures faulted { self.new.faulted.bits ≡ self.old.faulted.bits + bit_of Faulted k scan_end }
        ensures skipped { self.new.skipped.bits ≡ self.old.skipped.bits + bit_of Skipped k scan_end }
    {
        let bit = 1u64 << k;
        match scan_end {
            ScanEnd::Ran => self.ran.bits += bit,
            ScanEnd::Faulted => self.faulted.bits += bit,
            ScanEnd::Skipped => self.skipped.bits += bit,
        }
    }
}
