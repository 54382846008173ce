//! Why a scan of a program ended without a row.

ghost use Rattle.std.specs.Prelude.{◌≡◌};
ghost use Rattle.sfc_instance.specs.FaultNames.{fault_name, fault_number};

use sfc_action::fault::ControlFault;
use sfc_expr::fault::Fault;

/// What ended a scan of a program instance.
#[derive(Clone, Copy, Debug, PartialEq, Eq)]
pub enum ScanFault {
    /// A condition or a body ended with a fault (3.3).
    Expression(Fault),
    /// A control fault (2.6.4.5).
    Control(ControlFault),
}

impl ScanFault {
    /// Its name, as output and explanations write it.
    pub fn name(self) -> &'static [u8]
        ensures { result.now ≡ fault_name self }
    {
        match self {
            ScanFault::Expression(Fault::DivZero) => b"DivZero",
            ScanFault::Expression(Fault::Range) => b"Range",
            ScanFault::Control(ControlFault::TwoTimed) => b"TwoTimed",
            ScanFault::Control(ControlFault::SdWhileSl) => b"SdWhileSl",
            ScanFault::Control(ControlFault::SlWhileSd) => b"SlWhileSd",
        }
    }

    /// Its number, from 1 to 5, in the order in which the kinds of faults are told.
    pub fn number(self) -> u8
        ensures { result ≡ fault_number self }
    {
        match self {
            ScanFault::Expression(Fault::DivZero) => 1,
            ScanFault::Expression(Fault::Range) => 2,
            ScanFault::Control(ControlFault::TwoTimed) => 3,
            ScanFault::Control(ControlFault::SdWhileSl) => 4,
            ScanFault::Control(ControlFault::SlWhileSd) => 5,
        }
    }
}
