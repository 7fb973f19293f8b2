use crate::orch_base::{Memory, Name, ServerNo};
use name_order::{in_name_order, ranks};
use std::alloc::Global;

// The servers of these names in name order, and their places there. At most nine names count.
fn ordered(alloc: Global, texts: &[&str]) -> Result<(Vec<ServerNo>, Vec<u32>), Memory> {
    let mut names = Vec::new(alloc);
    for text in texts {
        if let Ok(name) = Name::read(alloc, text) {
            names.push(name)?;
        }
    }
    names.truncate(9);
    let servers = in_name_order(alloc, &names)?;
    let places = ranks(alloc, &servers)?;
    Ok((servers, places))
}

fn is_ordered(alloc: Global, texts: &[&str], order: &[ServerNo], places: &[u32]) -> bool {
    match ordered(alloc, texts) {
        Ok(found) => found.0.as_slice() == order && found.1.as_slice() == places,
        Err(_) => false,
    }
}

type Row = (&'static [&'static str], &'static [ServerNo], &'static [u32]);

static ROWS: [Row; 6] = [
    (&[], &[], &[]),
    (&["m"], &[ServerNo(0)], &[0]),
    (&["b", "a"], &[ServerNo(1), ServerNo(0)], &[1, 0]),
    (
        &["b:2", "b:10", "B", "b"],
        &[ServerNo(2), ServerNo(0), ServerNo(1), ServerNo(3)],
        &[1, 2, 0, 3],
    ),
    (
        &["m", "a", "m", "a", "m"],
        &[
            ServerNo(1),
            ServerNo(3),
            ServerNo(0),
            ServerNo(2),
            ServerNo(4),
        ],
        &[2, 0, 3, 1, 4],
    ),
    (
        &["ab", "a", "a-", "a:1"],
        &[ServerNo(3), ServerNo(1), ServerNo(2), ServerNo(0)],
        &[3, 1, 2, 0],
    ),
];

#[test]
fn servers_by_name(rt: HostRuntime) {
    for (texts, order, places) in &ROWS {
        assert!(rt; is_ordered(rt.alloc(), texts, order, places), "{texts:?}");
    }
}
