//! Worked examples of where a regroup and a match attach, and of what is no command line or no scenario.

use crate::examples::Example;

/// Attachments, turn by turn, and what is refused at once.
pub(crate) const MORE: &[Example] = &[
    Example {
        arguments: "orch -c run",
        scenario: r#"{"version":1,"servers":[{"name":"m","history":[["m",100,4]]},{"name":"a","source":"m","executed":2},{"name":"b","source":"m","executed":3},{"name":"c","source":"m","executed":2},{"name":"d","source":"m","executed":1},{"name":"e","source":"m","executed":4,"rule":"must_not"}],"turns":[["fetch","a"],["apply","a"],["fail","m"],["polls"],["command","regroup-replicas",{"i":"m"}],["job",1],["job",1],["job",1],["job",1],["job",1],["job",1],["job",1],["job",1],["job",1],["job",1],["job",1],["job",1],["job",1],["job",1],["job",1],["job",1],["job",1],["job",1],["job",1],["job",1],["job",1],["job",1],["job",1],["job",1],["job",1],["job",1],["job",1],["job",1],["job",1],["job",1],["job",1],["job",1],["job",1],["job",1],["job",1],["job",1],["job",1],["job",1],["job",1],["job",1]]}"#,
        out: "..
  a:3306
  b:3306<a:3306
  c:3306<a:3306
  d:3306 behind mysql-bin.000001:104
  e:3306 ahead mysql-bin.000001:404
..
server b:3306 up ro executed 3 end mysql-bin.000001:304 source a:3306 at mysql-bin.000001:304 ..
server c:3306 up ro executed 2 end mysql-bin.000001:204 source a:3306 at mysql-bin.000001:204 ..
..
",
        err: "",
        status: 0,
    },
    Example {
        arguments: "orch -c run",
        scenario: "[[[[[[[[[[[[[[[[[[[[[[[[[[[[[[[[[[[[[[[[[[[[[[[[[[[[[[[[[[[[[[[[[[[[[[[[[[[[[[[[[[[[[[[[[[[[[[[[[[[[[[[[[[[[[[[[[[[[[[[[[[[[[[[[",
        out: "",
        err: "scenario fault 2 NotJson\n",
        status: 2,
    },
    Example {
        arguments: "orch -c run",
        scenario: r#"{"version":1,"servers":[{"name":"m","history":[["m",1,4000000]]}],"turns":[["write","m",1]]}"#,
        out: "",
        err: "scenario fault 16 TooLarge\n",
        status: 2,
    },
    Example {
        arguments: "orch -c move-up",
        scenario: r#"{"version":1,"servers":[{"name":"m"}]}"#,
        out: "",
        err: "usage\n",
        status: 1,
    },
    Example {
        arguments: "orch -c live --workers 0",
        scenario: r#"{"version":1,"servers":[{"name":"m"}]}"#,
        out: "",
        err: "usage\n",
        status: 1,
    },
    Example {
        arguments: "orch -c live --workers 17",
        scenario: r#"{"version":1,"servers":[{"name":"m"}]}"#,
        out: "",
        err: "usage\n",
        status: 1,
    },
    Example {
        arguments: "orch -c run --deep",
        scenario: r#"{"version":1,"servers":[{"name":"m"}]}"#,
        out: "",
        err: "usage\n",
        status: 1,
    },
    Example {
        arguments: "orch -c run",
        scenario: r#"{"version":1,"servers":[{"name":"m","history":[["m",100,4]]},{"name":"a","source":"m","executed":2},{"name":"b","source":"m","executed":3},{"name":"c","source":"m","executed":2},{"name":"d","source":"m","executed":1},{"name":"e","source":"m","executed":4,"rule":"must_not"}],"pseudo":1,"turns":[["command","match",{"i":"d","d":"a"}],["job",1],["job",1],["job",1],["job",1],["job",1],["job",1],["job",1]]}"#,
        out: "1 command match d:3306 a:3306: begun 1
..
8 job 1: done
  d:3306<a:3306
..
server d:3306 up ro executed 1 end mysql-bin.000001:104 source a:3306 at mysql-bin.000001:104 ..
..
",
        err: "",
        status: 0,
    },
];
