use crate::orch_base::{Name, NameFault, OwnedText};
use hook_texts::{Values, expand};
use std::alloc::Global;

// The analysis, the failed server, its cluster's label and alias, the promoted server, whether the recovery is done.
type Told = (
    &'static str,
    &'static str,
    &'static str,
    &'static str,
    Option<&'static str>,
    bool,
);

const BEFORE: Told = ("DeadMaster", "m", "m:3306", "", None, false);

const DONE: Told = (
    "DeadIntermediateMaster",
    "db-1.eu:3307",
    "main",
    "pay",
    Some("r2:13306"),
    true,
);
// Values that look like placeholders.
const BRACED: Told = (
    "{failedHost}",
    "m",
    "{failedHost",
    "{failureType}",
    None,
    false,
);

fn text(alloc: Global, text: &str) -> Result<OwnedText, NameFault> {
    Ok(OwnedText::new(String::from_str(alloc, text)?))
}

fn values(alloc: Global, told: Told) -> Result<Values, NameFault> {
    let (failure_type, failed, cluster, alias, successor, successful) = told;
    let successor = match successor {
        Some(name) => Some(Name::read(alloc, name)?),
        None => None,
    };
    Ok(Values {
        failure_type: text(alloc, failure_type)?,
        failed: Name::read(alloc, failed)?,
        cluster: text(alloc, cluster)?,
        alias: text(alloc, alias)?,
        successor,
        successful,
    })
}

fn gives(alloc: Global, told: Told, hook: &str, want: &str) -> Result<bool, NameFault> {
    let values = values(alloc, told)?;
    let given = expand(alloc, hook, &values)?;
    Ok(given.as_str() == want)
}

static HOOKS: [(Told, &str, &str); 24] = [
    (
        BEFORE,
        "page {failureType} {failedHost}:{failedPort} {x}",
        "page DeadMaster m:3306 {x}",
    ),
    (BEFORE, "check {failedHost}", "check m"),
    (
        BEFORE,
        "c={failureCluster} a={failureClusterAlias}",
        "c=m:3306 a=",
    ),
    (
        BEFORE,
        "{successorHost}:{successorPort} {isSuccessful}",
        ": false",
    ),
    (
        DONE,
        "{successorHost}:{successorPort} {isSuccessful}",
        "r2:13306 true",
    ),
    (
        DONE,
        "c={failureCluster} a={failureClusterAlias}",
        "c=main a=pay",
    ),
    (
        DONE,
        "{failureType}{failureType}",
        "DeadIntermediateMasterDeadIntermediateMaster",
    ),
    (DONE, " lead {failedPort} trail ", " lead 3307 trail "),
    (DONE, "{{failedHost}}", "{db-1.eu}"),
    (DONE, "{failedHost}{", "db-1.eu{"),
    (DONE, "{failure{failedPort}Type}", "{failure3307Type}"),
    (DONE, "{x} {failedHost", "{x} {failedHost"),
    (DONE, "{ failedHost }", "{ failedHost }"),
    (DONE, "{failedhost}", "{failedhost}"),
    (DONE, "{failedHosts}{failed}", "{failedHosts}{failed}"),
    (DONE, "failedHost} {}", "failedHost} {}"),
    (DONE, "} {", "} {"),
    (DONE, "", ""),
    (DONE, "plain", "plain"),
    (DONE, "é {failedHost} ü", "é db-1.eu ü"),
    (DONE, "\"quoted\" \\ {failedHost}", "\"quoted\" \\ db-1.eu"),
    (BRACED, "{failureType}", "{failedHost}"),
    (BRACED, "{failureCluster}}", "{failedHost}"),
    (
        BRACED,
        "{failureClusterAlias}{failedHost}",
        "{failureType}m",
    ),
];

#[test]
fn hooks_are_told(rt: HostRuntime) {
    for (told, hook, want) in &HOOKS {
        assert!(rt;
            gives(rt.alloc(), *told, hook, want) == Ok(true),
            "{hook} gives {want}"
        );
    }
}
