//! The texts and statuses of faults that no case gives.

use sfc_replay::replay_error::ReplayError;
use std::test::Fail;

#[test]
fn each_fault_has_a_text_and_a_status(rt: HostRuntime) -> Result<(), Fail> {
    let table = [
        (ReplayError::Read, "read fault", 3),
        (ReplayError::Write, "write fault", 3),
        (ReplayError::Memory, "out of memory", 4),
    ];
    for (fault, text, status) in table {
        let found = format!(in rt.alloc(); "{fault}")?;
        assert_eq!(rt; found.as_str(), text);
        assert_eq!(rt; fault.status(), status, "of {text}");
    }
    Ok(())
}
