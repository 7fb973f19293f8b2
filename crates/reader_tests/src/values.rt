//! Single values, and the paths of their faults.

use crate::binlog_coords_items::Coord;
use crate::orch_base::Version;
use crate::scenario_values::{
    FaultCode, ReadFault, coord_in, fails, items_in, label_in, name_in, number_in, short_in,
    text_within, under, uuid_in, version_in,
};
use serde_json::Value;
use std::alloc::Global;

const VALUES: &str =
    r#"[5,"mysql-bin.000002:204","00000000-0000-0000-0000-0000000000Ff","08.65535.0","m:3307","main"]"#;

// The number, coordinate, UUID and version that these are.
fn plain_in(alloc: Global, values: &[Value]) -> Result<(u64, Coord, u128, Version), ReadFault> {
    let [number, coord, uuid, version, ..] = values else {
        return Err(ReadFault::Memory);
    };
    Ok((
        number_in(alloc, 1, 5, number)?,
        coord_in(alloc, coord)?,
        uuid_in(alloc, uuid)?,
        version_in(alloc, version)?,
    ))
}

// Whether these are the name `m:3307` and the label `main`, which is short, and `ab` is a text of two bytes.
fn are_texts(alloc: Global, values: &[Value]) -> Result<bool, ReadFault> {
    let [.., name, label] = values else {
        return Err(ReadFault::Memory);
    };
    let mut printed = Vec::new(alloc);
    name_in(alloc, name)?.print(&mut printed)?;
    let short = short_in(alloc, label)?;
    let label = label_in(alloc, label)?;
    let text = text_within(alloc, 0, 2, "ab")?;
    Ok(
        printed.as_slice() == b"m:3307".as_slice()
            && (label.as_str(), short.as_str()) == ("main", "main")
            && text.as_str() == "ab",
    )
}

// Whether the values of `VALUES` are read.
fn are_read(alloc: Global) -> Result<bool, ReadFault> {
    let Ok(value) = Value::from_str(alloc, VALUES) else {
        return Ok(false);
    };
    let values = items_in(alloc, &value)?;
    let version = Version {
        major: 8,
        minor: 65535,
        patch: 0,
    };
    let plain = (5, Coord { file: 2, pos: 204 }, 255, version);
    Ok(plain_in(alloc, values)? == plain && are_texts(alloc, values)?)
}

#[test]
fn values_are_read(rt: HostRuntime) {
    assert!(rt; are_read(rt.alloc()).ok() == Some(true));
}

// Whether a fault at these keys has them, escaped, as its path.
fn is_placed(alloc: Global) -> bool {
    let read: Result<u64, ReadFault> = Err(fails(alloc, FaultCode::BadType));
    match under(alloc, b"servers", under(alloc, b"a/b~c", read)) {
        Err(ReadFault::Fault(fault)) => {
            fault.code == FaultCode::BadType
                && fault.path.as_bytes() == b"/servers/a~1b~0c".as_slice()
        }
        Err(ReadFault::Memory) | Ok(_) => false,
    }
}

#[test]
fn paths_are_escaped(rt: HostRuntime) {
    assert!(rt; is_placed(rt.alloc()));
}
