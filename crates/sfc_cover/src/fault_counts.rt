//! How many scans each fault ended.

use crate::sfc_action::fault::ControlFault;
use crate::sfc_instance::scan_fault::ScanFault;
use sfc_expr::fault::Fault;

/// How many scans each fault ended; at most 2^64 - 1, where a count stays.
#[derive(Clone, Copy, Debug)]
pub struct FaultCounts {
    pub div_zero: u64,
    pub range: u64,
    pub two_timed: u64,
    pub sd_while_sl: u64,
    pub sl_while_sd: u64,
}

// One more than so many.
fn one_more(count: u64) -> u64 {
    count.saturating_add(1)
}

impl FaultCounts {
    /// No scan ended with a fault.
    pub fn none() -> FaultCounts {
        FaultCounts {
            div_zero: 0,
            range: 0,
            two_timed: 0,
            sd_while_sl: 0,
            sl_while_sd: 0,
        }
    }

    /// One scan more ended with this fault.
    pub fn add(&mut self, fault: ScanFault) {
        match fault {
            ScanFault::Expression(Fault::DivZero) => self.div_zero = one_more(self.div_zero),
            ScanFault::Expression(Fault::Range) => self.range = one_more(self.range),
            ScanFault::Control(ControlFault::TwoTimed) => self.two_timed = one_more(self.two_timed),
            ScanFault::Control(ControlFault::SdWhileSl) => {
                self.sd_while_sl = one_more(self.sd_while_sl);
            }
            ScanFault::Control(ControlFault::SlWhileSd) => {
                self.sl_while_sd = one_more(self.sl_while_sd);
            }
        }
    }

    /// Those of both together.
    pub fn joined(self, other: FaultCounts) -> FaultCounts {
        FaultCounts {
            div_zero: self.div_zero.saturating_add(other.div_zero),
            range: self.range.saturating_add(other.range),
            two_timed: self.two_timed.saturating_add(other.two_timed),
            sd_while_sl: self.sd_while_sl.saturating_add(other.sd_while_sl),
            sl_while_sd: self.sl_while_sd.saturating_add(other.sl_while_sd),
        }
    }

    /// Each fault with its count.
    pub fn counted(self) -> [(ScanFault, u64); 5] {
        [
            (ScanFault::Expression(Fault::DivZero), self.div_zero),
            (ScanFault::Expression(Fault::Range), self.range),
            (ScanFault::Control(ControlFault::TwoTimed), self.two_timed),
            (
                ScanFault::Control(ControlFault::SdWhileSl),
                self.sd_while_sl,
            ),
            (
                ScanFault::Control(ControlFault::SlWhileSd),
                self.sl_while_sd,
            ),
        ]
    }
}
