//! Rows from texts and texts of rows, by the values of the format's examples.

use crate::orch_base::{Memory, Name};
use kept_rows::{Row, Table};
use row_texts::{RowFault, RowText, TableNumber};
use std::alloc::Global;
use std::test::Fail;

// What a text is wanted to be: a row whose text it is, a row with another text, or a fault.
#[derive(Clone, Copy)]
enum Wanted {
    Same,
    As(&'static str),
    Fault(RowFault),
}

type Given = (u8, &'static str, &'static str, Wanted);

const INSTANCE: &str =
    r#"{"f":[1,7,true,"mysql-bin.000001:204","attached","m:3306","mysql-bin.000001:204","mysql-bin.000001:204",true,"connecting",true,true,"00000000-0000-0000-0000-000000000001:1-2",1,""],"v":2}"#;

#[rattlefmt::skip]
const ROWS: [Given; 61] = [
    // What the examples keep.
    (1, "a:3306", INSTANCE, Wanted::Same),
    (1, "b:3306", r#"{"f":[2,7,true,"mysql-bin.000002:4","detached","m:3306","mysql-bin.000001:104","mysql-bin.000001:104",false,"no",false,true,"00000000-0000-0000-0000-000000000001:1",2,"00000000-0000-0000-0000-000000000001:1"],"v":2}"#, Wanted::Same),
    (1, "c:3306", r#"{"f":[3,7,true,null,"attached","a:3306","mysql-bin.000001:204","mysql-bin.000001:204",false,"yes",true,true,"00000000-0000-0000-0000-000000000001:1-2",1,""],"v":2}"#, Wanted::Same),
    (1, "m:3306", r#"{"f":[4,7,false,"mysql-bin.000001:204","none","","mysql-bin.000001:4","mysql-bin.000001:4",false,"no",false,false,"00000000-0000-0000-0000-000000000001:1-2",1,""],"v":2}"#, Wanted::Same),
    (2, "m:3306", "{\"f\":[7,67,\"o\\\"\u{e9}\",\"r\"],\"v\":1}", Wanted::Same),
    (3, "a:3306", r#"{"f":["prefer",3607],"v":1}"#, Wanted::Same),
    (3, "a:3306", r#"{"f":["neutral",0],"v":1}"#, Wanted::Same),
    (3, "a:3306", r#"{"f":["prefer_not",0],"v":1}"#, Wanted::Same),
    (3, "a:3306", r#"{"f":["must_not",18446744073709551615],"v":1}"#, Wanted::Same),
    (4, "1", r#"{"f":["m:3306","master","m:3306",7,null,"unended",false,60],"v":2}"#, Wanted::Same),
    (4, "1", r#"{"f":["m:3306","master","m:3306",7,7,"interrupted",false,60],"v":2}"#, Wanted::Same),
    (4, "1", r#"{"f":["m:3306","master","m:3306",0,null,"unended",false],"v":1}"#, Wanted::Same),
    (4, "0", r#"{"f":["m:3306","intermediate","b:3306",5,9,"promoted a:3306",true],"v":1}"#, Wanted::Same),
    (4, "18446744073709551615", r#"{"f":["","takeover","m:3306",5,9,"failed HookFailed",false,0],"v":2}"#, Wanted::Same),
    (5, "global", r#"{"f":[false],"v":1}"#, Wanted::Same),
    (6, "active", r#"{"f":[1,67],"v":1}"#, Wanted::Same),
    (6, "active", r#"{"f":[4294967295,67],"v":1}"#, Wanted::Same),
    // The same values by other texts, and version 1 of an instance.
    (1, "m:3306", r#"{"f":[0,0,true,"mysql-bin.000001:104","none","","mysql-bin.000001:4","mysql-bin.000001:4",false,"no",false,false,""],"v":1}"#,
        Wanted::As(r#"{"f":[0,0,true,"mysql-bin.000001:104","none","","mysql-bin.000001:4","mysql-bin.000001:4",false,"no",false,false,"",1,""],"v":2}"#)),
    (5, "global", r#" { "v" : 1 , "\u0066" : [ true ] } "#, Wanted::As(r#"{"f":[true],"v":1}"#)),
    (5, "global", r#"{"v":9,"f":[true],"v":1}"#, Wanted::As(r#"{"f":[true],"v":1}"#)),
    // No object of a list and a version.
    (4, "1", "{", Wanted::Fault(RowFault::NotJson)),
    (4, "1", "", Wanted::Fault(RowFault::NotJson)),
    (4, "1", "[]", Wanted::Fault(RowFault::NotJson)),
    (5, "global", r#"{"f":true,"v":1}"#, Wanted::Fault(RowFault::NotJson)),
    (5, "global", r#"{"f":[true]}"#, Wanted::Fault(RowFault::NotJson)),
    (5, "global", r#"{"f":[true],"v":1,"w":1}"#, Wanted::Fault(RowFault::NotJson)),
    // Versions, before fields.
    (4, "1", r#"{"f":["m:3306","master","m:3306",0,null,"unended",false],"v":9}"#, Wanted::Fault(RowFault::BadVersion)),
    (4, "1", r#"{"f":["m:3306","master","m:3306",5,9,"promoted a:3306",false],"v":"1"}"#, Wanted::Fault(RowFault::BadVersion)),
    (4, "1", r#"{"f":[],"v":0}"#, Wanted::Fault(RowFault::BadVersion)),
    (1, "x", r#"{"f":[],"v":3}"#, Wanted::Fault(RowFault::BadVersion)),
    (2, "x", r#"{"f":[],"v":2}"#, Wanted::Fault(RowFault::BadVersion)),
    (5, "global", r#"{"f":[true],"v":1.0}"#, Wanted::Fault(RowFault::BadVersion)),
    // The first field, before keys.
    (5, "global", r#"{"f":[],"v":1}"#, Wanted::Fault(RowFault::BadField(0))),
    (5, "globe", r#"{"f":[true,1],"v":1}"#, Wanted::Fault(RowFault::BadField(1))),
    (2, "m:3306", r#"{"f":[0,60,"o"],"v":1}"#, Wanted::Fault(RowFault::BadField(3))),
    (2, "m:3306", r#"{"f":[0,6e1,"o","r"],"v":1}"#, Wanted::Fault(RowFault::BadField(1))),
    (2, "m:3306", r#"{"f":[18446744073709551616,60,"o","r"],"v":1}"#, Wanted::Fault(RowFault::BadField(0))),
    (3, "m:3306", r#"{"f":["must",5],"v":1}"#, Wanted::Fault(RowFault::BadField(0))),
    (4, "1", r#"{"f":["m:3306","boss","m:3306",5,9,"promoted a:3306",false],"v":1}"#, Wanted::Fault(RowFault::BadField(1))),
    (4, "1", r#"{"f":["m:3306","master","m",5,9,"promoted a:3306",false],"v":1}"#, Wanted::Fault(RowFault::BadField(2))),
    (4, "1", r#"{"f":["m:3306","master","m:3306",-1,null,"unended",false],"v":1}"#, Wanted::Fault(RowFault::BadField(3))),
    (4, "1", r#"{"f":["m:3306","master","m:3306",5,9,"failed Bored",false],"v":1}"#, Wanted::Fault(RowFault::BadField(5))),
    (4, "1", r#"{"f":["m:3306","master","m:3306",5,9,"promoted a",false],"v":1}"#, Wanted::Fault(RowFault::BadField(5))),
    (4, "1", r#"{"f":["m:3306","master","m:3306",5,9,"unended ",false],"v":1}"#, Wanted::Fault(RowFault::BadField(5))),
    (4, "1", r#"{"f":["m:3306","master","m:3306",0,null,"unended",false,60],"v":1}"#, Wanted::Fault(RowFault::BadField(7))),
    (4, "1", r#"{"f":["m:3306","master","m:3306",0,null,"unended",false],"v":2}"#, Wanted::Fault(RowFault::BadField(7))),
    (6, "active", r#"{"f":[4294967296,67],"v":1}"#, Wanted::Fault(RowFault::BadField(0))),
    (1, "m:3306", r#"{"f":[0,0,true,"mysql-bin.1:104","none","","mysql-bin.000001:4","mysql-bin.000001:4",false,"no",false,false,""],"v":1}"#, Wanted::Fault(RowFault::BadField(3))),
    (1, "m:3306", r#"{"f":[0,0,true,null,"none","a:3306","mysql-bin.000001:4","mysql-bin.000001:4",false,"no",false,false,""],"v":1}"#, Wanted::Fault(RowFault::BadField(5))),
    (1, "m:3306", r#"{"f":[0,0,true,null,"attached","","mysql-bin.000001:4","mysql-bin.000001:4",false,"no",false,false,""],"v":1}"#, Wanted::Fault(RowFault::BadField(5))),
    (1, "m:3306", r#"{"f":[0,0,true,null,"none","","mysql-bin.000001:4","mysql-bin.000001:4",false,"no",false,false,"00000000-0000-0000-0000-000000000001:1-1"],"v":1}"#, Wanted::Fault(RowFault::BadField(12))),
    (1, "m:3306", r#"{"f":[0,0,true,null,"none","","mysql-bin.000001:4","mysql-bin.000001:4",false,"no",false,false,"00000000-0000-0000-0000-000000000001:3:1"],"v":1}"#, Wanted::Fault(RowFault::BadField(12))),
    (1, "m:3306", r#"{"f":[0,0,true,null,"none","","mysql-bin.000001:4","mysql-bin.000001:4",false,"no",false,false,""],"v":2}"#, Wanted::Fault(RowFault::BadField(13))),
    // Keys, before servers.
    (5, "globe", r#"{"f":[true],"v":1}"#, Wanted::Fault(RowFault::BadKey)),
    (4, "01", r#"{"f":["m:3306","master","x:3306",5,9,"unended",false],"v":1}"#, Wanted::Fault(RowFault::BadKey)),
    (4, "18446744073709551616", r#"{"f":["m:3306","master","m:3306",5,9,"unended",false],"v":1}"#, Wanted::Fault(RowFault::BadKey)),
    (2, "m", r#"{"f":[0,60,"o","r"],"v":1}"#, Wanted::Fault(RowFault::BadKey)),
    // Servers.
    (2, "x:3306", r#"{"f":[0,60,"o","r"],"v":1}"#, Wanted::Fault(RowFault::UnknownServer)),
    (4, "1", r#"{"f":["m:3306","master","x:3306",5,9,"unended",false],"v":1}"#, Wanted::Fault(RowFault::UnknownServer)),
    (4, "1", r#"{"f":["m:3306","master","m:3306",5,9,"promoted x:3306",false],"v":1}"#, Wanted::Fault(RowFault::UnknownServer)),
    (1, "m:3306", r#"{"f":[0,0,true,null,"detached","x:3306","mysql-bin.000001:4","mysql-bin.000001:4",false,"no",false,false,""],"v":1}"#, Wanted::Fault(RowFault::UnknownServer)),
];

fn named(alloc: Global, text: &str) -> Result<Name, Memory> {
    match Name::read(alloc, text) {
        Ok(name) => Ok(name),
        Err(_) => Err(Memory),
    }
}

// Whether a row is of this table, with this key's text and this text.
fn is_printed(
    alloc: Global,
    row: &Row,
    names: &[Name; 4],
    wanted: (u8, &str, &str),
) -> Result<bool, Memory> {
    let (mut key, mut text) = (Vec::new(alloc), Vec::new(alloc));
    if row.are_servers_known(4) {
        row.key_text(names, &mut key)?;
        row.text(names, &mut text)?;
    }
    Ok(
        row.table().number() == wanted.0
            && key.as_slice() == wanted.1.as_bytes()
            && text.as_slice() == wanted.2.as_bytes(),
    )
}

fn read(alloc: Global, given: Given, names: &[Name; 4]) -> Option<Result<Row, RowFault>> {
    let (table, key, text, _) = given;
    match Table::of_number(table) {
        Some(_) => Some(Row::read(alloc, table, key, text.as_bytes(), names)),
        None => None,
    }
}

// Whether the text is what is wanted of it.
fn is_as_wanted(alloc: Global, given: Given, names: &[Name; 4]) -> Result<bool, Memory> {
    let (table, key, text, wanted) = given;
    match (read(alloc, given, names), wanted) {
        (Some(Ok(row)), Wanted::Same) => is_printed(alloc, &row, names, (table, key, text)),
        (Some(Ok(row)), Wanted::As(other)) => is_printed(alloc, &row, names, (table, key, other)),
        (Some(Err(fault)), Wanted::Fault(other)) => Ok(fault == other),
        (None | Some(_), Wanted::Same | Wanted::As(_) | Wanted::Fault(_)) => Ok(false),
    }
}

#[test]
fn texts_are_rows(rt: HostRuntime) -> Result<(), Fail> {
    let alloc = rt.alloc();
    let names = [
        named(alloc, "m")?,
        named(alloc, "a")?,
        named(alloc, "b")?,
        named(alloc, "c")?,
    ];
    for (at, given) in ROWS.into_iter().enumerate() {
        assert_eq!(rt; (at, is_as_wanted(alloc, given, &names)?), (at, true));
    }
    Ok(())
}
