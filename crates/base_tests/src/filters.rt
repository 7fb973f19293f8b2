use cluster_filters::*;
use std::alloc::Global;

// Past the room of one compiled pattern.
const LARGE: &str = "(?:[a-z]{1000}){1000}";

// Whether filters of these forms match the cluster of this name and alias.
fn answer(alloc: Global, forms: &[&str], name: &str, alias: &str) -> Result<bool, FilterFault> {
    let mut texts = Vec::new(alloc);
    for form in forms {
        texts.push(String::from_str(alloc, form)?)?;
    }
    Ok(Filters::read(alloc, &texts)?.matches(alloc, name, alias)?)
}

type Row = (
    &'static [&'static str],
    &'static str,
    &'static str,
    Result<bool, FilterFault>,
);

static ROWS: [Row; 21] = [
    (&["alias=pay"], "c1", "pay", Ok(true)),
    (&["^c2"], "c1", "pay", Ok(false)),
    (&["("], "c1", "pay", Err(FilterFault::BadPattern(0))),
    (&[], "c1", "pay", Ok(false)),
    (&["*"], "c1", "", Ok(true)),
    (&["alias=pay"], "pay", "c1", Ok(false)),
    (&["alias=pay"], "c1", "pays", Ok(false)),
    (&["alias="], "c1", "", Ok(true)),
    (&["alias=p.y"], "c1", "pay", Ok(false)),
    (&["alias~=a"], "c1", "pay", Ok(true)),
    (&["alias~=^a"], "c1", "pay", Ok(false)),
    (&["alias~=c1"], "c1", "pay", Ok(false)),
    (&["1"], "c1", "pay", Ok(true)),
    (&["pay"], "c1", "pay", Ok(false)),
    (&["^c2", "alias=pay"], "c1", "pay", Ok(true)),
    (&["alias~=^x", "^c[0-9]$"], "c1", "pay", Ok(true)),
    (&[".*"], "", "", Ok(true)),
    (
        &["c1", "alias~=("],
        "c1",
        "pay",
        Err(FilterFault::BadPattern(1)),
    ),
    (
        &["alias=(", "*", "[", "("],
        "c1",
        "pay",
        Err(FilterFault::BadPattern(2)),
    ),
    (&["**"], "c1", "pay", Err(FilterFault::BadPattern(0))),
    (
        &["alias~=x", LARGE, "("],
        "c1",
        "pay",
        Err(FilterFault::Memory),
    ),
];

#[test]
fn filters_match(rt: HostRuntime) {
    for (forms, name, alias, want) in &ROWS {
        assert!(rt;
            answer(rt.alloc(), forms, name, alias) == *want,
            "{forms:?} {name} {alias}"
        );
    }
}

fn found(alloc: Global, pattern: &str, text: &str) -> Result<bool, FilterFault> {
    Ok(Pattern::read(alloc, pattern)?.found(alloc, text)?)
}

#[test]
fn patterns_are_found_anywhere(rt: HostRuntime) {
    for (pattern, text, want) in [
        ("db[0-9]+", "eu-db12:3306", Ok(true)),
        ("db[0-9]+", "dbx1", Ok(false)),
        ("a|(", "a", Err(FilterFault::BadPattern(0))),
    ] {
        assert!(rt;
            found(rt.alloc(), pattern, text) == want,
            "{pattern} {text}"
        );
    }
}
