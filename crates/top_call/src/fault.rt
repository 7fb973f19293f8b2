//! The line of a scenario's fault.

ghost use Rattle.std.specs.Prelude.{◌≡◌, ◌++◌, IfOk, OnOk};
ghost use Rattle.top_call.specs.Faults.{code_text, path_text, fault_text};

use crate::orch_base::Memory;
use scenario_reader::{Fault, FaultCode};
use std::alloc::Global;

fn code_text(code: FaultCode) -> &'static [u8]
    ensures { result.now ≡ code_text code }
{
    match code {
        FaultCode::TooLong => b"1 TooLong",
        FaultCode::NotJson => b"2 NotJson",
        FaultCode::Missing => b"3 Missing",
        FaultCode::BadType => b"4 BadType",
        FaultCode::UnknownKey => b"5 UnknownKey",
        FaultCode::BadName => b"6 BadName",
        FaultCode::DuplicateName => b"7 DuplicateName",
        FaultCode::UnknownName => b"8 UnknownName",
        FaultCode::BadNumber => b"9 BadNumber",
        FaultCode::Loop => b"10 Loop",
        FaultCode::SourceNotLogging => b"11 SourceNotLogging",
        FaultCode::OtherCluster => b"12 OtherCluster",
        FaultCode::TooMany => b"13 TooMany",
        FaultCode::BadPlace => b"14 BadPlace",
        FaultCode::NotKin => b"15 NotKin",
        FaultCode::TooLarge => b"16 TooLarge",
        FaultCode::BadCoord => b"17 BadCoord",
        FaultCode::BadUuid => b"18 BadUuid",
        FaultCode::DuplicateUuid => b"19 DuplicateUuid",
        FaultCode::BothGiven => b"20 BothGiven",
        FaultCode::BadPattern => b"21 BadPattern",
        FaultCode::BadVersion => b"22 BadVersion",
        FaultCode::BadTurn => b"23 BadTurn",
        FaultCode::BadCommand => b"24 BadCommand",
        FaultCode::AutoWithoutGtid => b"26 AutoWithoutGtid",
        FaultCode::BadHook => b"27 BadHook",
        FaultCode::NodeTurn => b"28 NodeTurn",
    }
}

fn print_path(path: &[u8], out: &mut Vec<u8>) -> Result<(), Memory>
    ensures { OnOk result (out.new.items ≡ out.old.items ++ path_text path.now) }
{
    if path.is_empty() {
        return Ok(());
    }
    out.extend_from_slice(b" ")?;
    out.extend_from_slice(path)
}

/// The line of a scenario's fault: `scenario fault`, its number and name, and its path, if that isn't empty.
pub(crate) fn fault_line(alloc: Global, fault: &Fault) -> Result<Vec<u8>, Memory>
    ensures { IfOk result (λ line. line.items ≡ fault_text fault.now) }
{
    let mut line = Vec::new(alloc);
    line.extend_from_slice(b"scenario fault ")?;
    line.extend_from_slice(code_text(fault.code))?;
    print_path(fault.path.as_bytes(), &mut line)?;
    line.extend_from_slice(b"\n")?;
    Ok(line)
}
