use crate::orch_base::*;
use std::alloc::Global;
use std::cmp::Ordering;

// The name that this text is, as it is printed.
fn printed(alloc: Global, text: &str) -> Result<Vec<u8>, NameFault> {
    let name = Name::read(alloc, text)?;
    let mut out = Vec::new(alloc);
    name.print(&mut out)?;
    Ok(out)
}

fn reads_as(alloc: Global, text: &str, want: Result<&str, NameFault>) -> bool {
    match (printed(alloc, text), want) {
        (Ok(out), Ok(want)) => out.as_slice() == want.as_bytes(),
        (Err(fault), Err(want)) => fault == want,
        (Ok(_), Err(_)) | (Err(_), Ok(_)) => false,
    }
}

static TEXTS: [(&str, Result<&str, NameFault>); 17] = [
    ("m", Ok("m:3306")),
    ("m:3306", Ok("m:3306")),
    ("m:1", Ok("m:1")),
    ("m:65535", Ok("m:65535")),
    ("Db-1.eu_west:13306", Ok("Db-1.eu_west:13306")),
    ("", Err(NameFault::Empty)),
    (":1", Err(NameFault::Empty)),
    (":x", Err(NameFault::Empty)),
    ("a b", Err(NameFault::BadByte(1))),
    ("é", Err(NameFault::BadByte(0))),
    ("a/:x", Err(NameFault::BadByte(1))),
    ("m:", Err(NameFault::BadPort)),
    ("m:0", Err(NameFault::BadPort)),
    ("m:01", Err(NameFault::BadPort)),
    ("m:+1", Err(NameFault::BadPort)),
    ("m:65536", Err(NameFault::BadPort)),
    ("a:b:c", Err(NameFault::BadPort)),
];

#[test]
fn reads(rt: HostRuntime) {
    for (text, want) in &TEXTS {
        assert!(rt; reads_as(rt.alloc(), text, *want), "at {text}");
    }
}

// How a copy of the name `m` compares to this one, and whether the two are the same.
fn compared(alloc: Global, other: &str) -> Result<(Ordering, bool), NameFault> {
    let name = Name::read(alloc, "m")?.copy(alloc)?;
    let other = Name::read(alloc, other)?;
    Ok((name.compare(&other), name.is_same(&other)))
}

#[test]
fn compares(rt: HostRuntime) {
    for (other, order) in [
        ("m:3306", Ordering::Equal),
        ("M", Ordering::Greater),
        ("m:3307", Ordering::Less),
        ("m:33", Ordering::Greater),
        ("m0:1", Ordering::Less),
        ("n:1", Ordering::Less),
    ] {
        let want = Ok((order, order == Ordering::Equal));
        assert!(rt; compared(rt.alloc(), other) == want, "at {other}");
    }
}

// Whether a copy of settings is the same.
fn are_copied(alloc: Global) -> Result<bool, NameFault> {
    let settings = Settings {
        name: Name::read(alloc, "m:3307")?,
        uuid: 7,
        server_id: 2,
        version: Version {
            major: 8,
            minor: 0,
            patch: 36,
        },
        cluster: OwnedText::new(String::from_str(alloc, "main")?),
        logs: true,
        limit: 4096,
        dc: OwnedText::new(String::from_str(alloc, "east")?),
    };
    let copy = settings.copy(alloc)?;
    let is_told = copy.cluster.as_str() == "main" && copy.dc.as_str() == "east";
    Ok(copy.is_same(&settings) && copy.uuid == 7 && is_told)
}

#[test]
fn settings_are_copied(rt: HostRuntime) {
    assert!(rt; are_copied(rt.alloc()) == Ok(true));
}
