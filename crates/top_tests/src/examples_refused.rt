//! Worked examples of moves that a purged file refuses.

use crate::examples::Example;

/// Each way in which a purged file refuses a command.
pub(crate) const PURGED: &[Example] = &[
    Example {
        arguments: "orch -c move-up -i r",
        scenario: r#"{"version":1,"servers":[{"name":"m","history":[["m",100,3]],"limit":100,"purged":3},{"name":"s","source":"m","executed":1},{"name":"r","source":"s","executed":1}]}"#,
        out: "",
        err: "refused 30 Purged m:3306 3\n",
        status: 7,
    },
    Example {
        arguments: "orch -c take-master -i r",
        scenario: r#"{"version":1,"servers":[{"name":"m","history":[["m",100,3]],"limit":100,"purged":3},{"name":"s","source":"m","executed":1},{"name":"r","source":"s","executed":1}]}"#,
        out: "",
        err: "refused 30 Purged m:3306 3\n",
        status: 7,
    },
    Example {
        arguments: "orch -c move-up-replicas -i s",
        scenario: r#"{"version":1,"servers":[{"name":"m","history":[["m",100,3]],"limit":100,"purged":3},{"name":"s","source":"m","executed":1},{"name":"r","source":"s","executed":1}]}"#,
        out: "",
        err: "refused 30 Purged m:3306 3\n",
        status: 7,
    },
    Example {
        arguments: "orch -c repoint -i a -d m",
        scenario: r#"{"version":1,"servers":[{"name":"m","history":[["m",100,3]],"limit":100,"purged":3},{"name":"a","source":"m","executed":1}]}"#,
        out: "",
        err: "refused 30 Purged m:3306 3\n",
        status: 7,
    },
    Example {
        arguments: "orch -c disable-gtid -i a",
        scenario: r#"{"version":1,"servers":[{"name":"m","history":[["m",100,3]],"limit":100,"purged":3},{"name":"a","source":"m","executed":1,"auto":true}],"gtid":true}"#,
        out: "",
        err: "refused 30 Purged m:3306 3\n",
        status: 7,
    },
    Example {
        arguments: "orch -c relocate -i r -d m",
        scenario: r#"{"version":1,"servers":[{"name":"m","history":[["m",100,3]],"limit":100,"purged":3},{"name":"s","source":"m","executed":1},{"name":"r","source":"s","executed":1}]}"#,
        out: "",
        err: "refused 30 Purged m:3306 3\n",
        status: 7,
    },
    Example {
        arguments: "orch -c relocate-replicas -i s -d m",
        scenario: r#"{"version":1,"servers":[{"name":"m","history":[["m",100,3]],"limit":100,"purged":3},{"name":"s","source":"m","executed":1},{"name":"r","source":"s","executed":1}]}"#,
        out: "",
        err: "refused 30 Purged m:3306 3\n",
        status: 7,
    },
    Example {
        arguments: "orch -c repoint -i a -d m",
        scenario: r#"{"version":1,"servers":[{"name":"m","history":[["m",100,3]],"limit":100,"purged":3},{"name":"a","source":"m","executed":1,"auto":true}],"gtid":true}"#,
        out: "",
        err: "refused 30 Purged m:3306 3\n",
        status: 7,
    },
    Example {
        arguments: "orch -c enable-gtid -i a",
        scenario: r#"{"version":1,"servers":[{"name":"m","history":[["m",100,3]],"limit":100,"purged":3},{"name":"a","source":"m","executed":1}],"gtid":true}"#,
        out: "",
        err: "refused 30 Purged m:3306 3\n",
        status: 7,
    },
    Example {
        arguments: "orch -c move-gtid -i b -d a",
        scenario: r#"{"version":1,"servers":[{"name":"m","history":[["m",100,3]]},{"name":"a","source":"m","executed":3,"limit":100,"purged":3},{"name":"b","source":"m","executed":1}],"gtid":true}"#,
        out: "",
        err: "refused 30 Purged a:3306 3\n",
        status: 7,
    },
    Example {
        arguments: "orch -c move-replicas-gtid -i m -d a",
        scenario: r#"{"version":1,"servers":[{"name":"m","history":[["m",100,3]]},{"name":"a","source":"m","executed":3,"limit":100,"purged":3},{"name":"b","source":"m","executed":1}],"gtid":true}"#,
        out: "",
        err: "refused 30 Purged a:3306 3\n",
        status: 7,
    },
    Example {
        arguments: "orch -c relocate -i b -d a",
        scenario: r#"{"version":1,"servers":[{"name":"m","history":[["m",100,3]]},{"name":"a","source":"m","executed":3,"limit":100,"purged":3},{"name":"b","source":"m","executed":1}],"gtid":true}"#,
        out: "",
        err: "refused 30 Purged a:3306 3\n",
        status: 7,
    },
    Example {
        arguments: "orch -c relocate-replicas -i m -d a",
        scenario: r#"{"version":1,"servers":[{"name":"m","history":[["m",100,3]]},{"name":"a","source":"m","executed":3,"limit":100,"purged":3},{"name":"b","source":"m","executed":1}],"gtid":true}"#,
        out: "",
        err: "refused 30 Purged a:3306 3\n",
        status: 7,
    },
];
