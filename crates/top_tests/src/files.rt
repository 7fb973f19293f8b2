//! Runs over a database file.

use crate::calls::{Told, WHOLE, call_by};
use crate::examples::words_in;
use crate::failing::RESTARTS;
use crate::orch_base::OwnedText;
use sql_keeper::SqlKeeper;
use std::fs;
use std::test::Fail;

const FOLDER: &str = "top_tests_rows";

const FILE: &str = "top_tests_rows/rows";

// The servers of that recovery, without turns.
const STILL: &str =
    r#"{"version":1,"servers":[{"name":"m","history":[["m",100,1]]},{"name":"a","source":"m","executed":1}]}"#;

// A call over the file, which is opened anew and closed after it.
fn over_file(rt: &HostRuntime, arguments: &str, text: &str) -> Result<Told, Fail> {
    let alloc = rt.alloc();
    let words = words_in(alloc, arguments)?;
    let path = OwnedText::new(String::from_str(alloc, FILE)?);
    let mut keeper = SqlKeeper::open(rt, path);
    let told = call_by(alloc, &words, text.as_bytes(), WHOLE, &mut keeper)?;
    keeper.close();
    Ok(told)
}

#[test]
fn a_recovery_is_kept_in_a_file(rt: HostRuntime) -> Result<(), Fail> {
    let _ = fs::remove_dir_all(&rt, FOLDER);
    fs::create_dir(&rt, FOLDER)?;
    let first = over_file(&rt, "orch -c run --db top_tests_rows/rows", RESTARTS)?;
    let second = over_file(
        &rt,
        "orch -c audit-recoveries --db top_tests_rows/rows",
        STILL,
    )?;
    let line = "recovery 1 m:3306 master m:3306 begun 0 ended 0 interrupted unacked\n";
    assert_eq!(rt;
        (first.status(), second.all()),
        (7, (0, Some(line), Some("")))
    );
    fs::remove_dir_all(&rt, FOLDER)?;
    Ok(())
}
