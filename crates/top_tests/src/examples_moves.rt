//! Worked examples of servers, of what is asked, of commands that move replicas, and of what is refused.

use crate::examples::Example;

/// Runs, questions, moves, and what is refused or no scenario.
pub(crate) const MOVES: &[Example] = &[
    Example {
        arguments: "orch -c topology -i m",
        scenario: r#"{"version":1,"servers":[{"name":"m"}]}"#,
        out: "m:3306 [ok,8.0.36,rw]\n",
        err: "",
        status: 0,
    },
    Example {
        arguments: "orch -c run",
        scenario: r#"{"version":1,"servers":[{"name":"m","history":[["m",100,5]]},{"name":"r","source":"m","executed":2}],"turns":[["fetch","r"],["apply","r"],["fetch","r"],["apply","r"],["fetch","r"],["apply","r"]]}"#,
        out: "1 fetch r:3306: got mysql-bin.000001:304
2 apply r:3306: done mysql-bin.000001:304
3 fetch r:3306: got mysql-bin.000001:404
4 apply r:3306: done mysql-bin.000001:404
5 fetch r:3306: got mysql-bin.000001:504
6 apply r:3306: done mysql-bin.000001:504
server m:3306 up rw executed 5 end mysql-bin.000001:504 source none
server r:3306 up ro executed 5 end mysql-bin.000001:504 source m:3306 at mysql-bin.000001:504 read mysql-bin.000001:504 io on sql on
errant 0
",
        err: "",
        status: 0,
    },
    Example {
        arguments: "orch -c run",
        scenario: r#"{"version":1,"servers":[{"name":"m","history":[["m",100,2]]},{"name":"r","source":"m","executed":2}],"turns":[["cut","r","feed"],["fetch","r"],["apply","r"]]}"#,
        out: "1 cut r:3306 feed: done
2 fetch r:3306: no link
3 apply r:3306: nothing
server m:3306 up rw executed 2 ..
server r:3306 up ro executed 2 ..
errant 0
",
        err: "",
        status: 0,
    },
    Example {
        arguments: "orch -c move-up -i r --tables",
        scenario: r#"{"version":1,"servers":[{"name":"m","history":[["m",100,4]]},{"name":"s","source":"m","executed":4,"limit":200},{"name":"r","source":"s","executed":1}]}"#,
        out: "r:3306<m:3306
server m:3306 up rw executed 4 end mysql-bin.000001:404 source none
server s:3306 up ro executed 4 end mysql-bin.000003:4 source m:3306 at mysql-bin.000001:404 ..
server r:3306 up ro executed 4 end mysql-bin.000001:404 source m:3306 at mysql-bin.000001:404 ..
errant 0
",
        err: "",
        status: 0,
    },
    Example {
        arguments: "orch -c move-up -i r",
        scenario: r#"{"version":1,"servers":[{"name":"m"},{"name":"r","source":"m"}]}"#,
        out: "",
        err: "refused 11 SourceHasNoSource\n",
        status: 7,
    },
    Example {
        arguments: "orch -c move-below -i b -d a --tables",
        scenario: r#"{"version":1,"servers":[{"name":"m","history":[["m",100,3]]},{"name":"a","source":"m","executed":3},{"name":"b","source":"m","executed":1}]}"#,
        out: "b:3306<a:3306
server m:3306 ..
server a:3306 up ro executed 3 ..
server b:3306 up ro executed 3 end mysql-bin.000001:304 source a:3306 at mysql-bin.000001:304 ..
errant 0
",
        err: "",
        status: 0,
    },
    Example {
        arguments: "orch -c move-below -i b -d a --tables",
        scenario: r#"{"version":1,"servers":[{"name":"m","history":[["m",100,3]]},{"name":"a","source":"m","executed":1},{"name":"b","source":"m","executed":3}]}"#,
        out: "b:3306<a:3306
server m:3306 ..
server a:3306 up ro executed 3 ..
server b:3306 up ro executed 3 end mysql-bin.000001:304 source a:3306 at mysql-bin.000001:304 ..
errant 0
",
        err: "",
        status: 0,
    },
    Example {
        arguments: "orch -c move-below -i b -d a --tables",
        scenario: r#"{"version":1,"servers":[{"name":"m","history":[["m",100,3]]},{"name":"a","source":"m","executed":3},{"name":"b","source":"m","executed":3}]}"#,
        out: "b:3306<a:3306
server m:3306 ..
server a:3306 up ro executed 3 ..
server b:3306 up ro executed 3 end mysql-bin.000001:304 source a:3306 at mysql-bin.000001:304 ..
errant 0
",
        err: "",
        status: 0,
    },
    Example {
        arguments: "orch -c move-below -i r -d r",
        scenario: r#"{"version":1,"servers":[{"name":"m"},{"name":"s","source":"m"},{"name":"r","source":"s"}]}"#,
        out: "",
        err: "refused 3 SameInstance\n",
        status: 7,
    },
    Example {
        arguments: "orch -c move-below -i r -d s",
        scenario: r#"{"version":1,"servers":[{"name":"m"},{"name":"s","source":"m"},{"name":"r","source":"s"}]}"#,
        out: "",
        err: "refused 12 NotSibling\n",
        status: 7,
    },
    Example {
        arguments: "orch -c move-below -i s -d r",
        scenario: r#"{"version":1,"servers":[{"name":"m"},{"name":"s","source":"m"},{"name":"r","source":"s"}]}"#,
        out: "",
        err: "refused 10 Below\n",
        status: 7,
    },
    Example {
        arguments: "orch -c run",
        scenario: r#"{"version":1,"servers":[{"name":"m","history":[["m",100,2]]},{"name":"x","source":"m","executed":2},{"name":"r","source":"x","executed":2}],"turns":[["command","move-up",{"i":"r"}],["job",1],["job",1],["job",1],["job",1],["job",1],["job",1],["fail","r"],["heal","r"],["rotate","x"],["fetch","r"],["apply","r"],["job",1],["job",1]]}"#,
        out: "1 command move-up r:3306: begun 1
2 job 1: going
3 job 1: going
4 job 1: going
5 job 1: going
6 job 1: going
7 job 1: going
8 fail r:3306: done
9 heal r:3306: done
10 rotate x:3306: done mysql-bin.000002:4
11 fetch r:3306: rotated mysql-bin.000002:4
12 apply r:3306: rotated mysql-bin.000002:4
13 job 1: going
14 job 1: failed Interfered r:3306 expected x:3306 mysql-bin.000001:204 found x:3306 mysql-bin.000002:4
server m:3306 ..
server x:3306 up ro executed 2 end mysql-bin.000002:4 source m:3306 at mysql-bin.000001:204 read mysql-bin.000001:204 io on sql on
server r:3306 up ro executed 2 end mysql-bin.000001:204 source x:3306 at mysql-bin.000002:4 read mysql-bin.000002:4 io on sql on
errant 0
",
        err: "",
        status: 7,
    },
    Example {
        arguments: "orch -c move-gtid -i b -d a",
        scenario: r#"{"version":1,"servers":[{"name":"m","history":[["b",100,3],["m",100,2]]},{"name":"a","source":"m","executed":5},{"name":"b","source":"m","executed":5,"read_only":false}],"turns":[["write","b",100],["polls"]],"gtid":true}"#,
        out: "",
        err: "refused 18 Errant 00000000-0000-0000-0000-000000000003:4\n",
        status: 7,
    },
    Example {
        arguments: "orch -c regroup-replicas -i m",
        scenario: r#"{"version":1,"servers":[{"name":"m","history":[["m",100,4]]},{"name":"a","source":"m","executed":2},{"name":"b","source":"m","executed":3},{"name":"c","source":"m","executed":2},{"name":"d","source":"m","executed":1},{"name":"e","source":"m","executed":4,"rule":"must_not"}],"turns":[["fetch","a"],["apply","a"],["fail","m"],["polls"]]}"#,
        out: "a:3306
b:3306<a:3306
c:3306<a:3306
d:3306 behind mysql-bin.000001:104
e:3306 ahead mysql-bin.000001:404
",
        err: "",
        status: 0,
    },
    Example {
        arguments: "orch -c run",
        scenario: r#"{"version":1,"servers":["#,
        out: "",
        err: "scenario fault 2 NotJson\n",
        status: 2,
    },
    Example {
        arguments: "orch -c run",
        scenario: r#"{"version":1,"servers":[{"name":"m"},{"name":"m:3306"}]}"#,
        out: "",
        err: "scenario fault 7 DuplicateName /servers/1/name\n",
        status: 2,
    },
    Example {
        arguments: "orch -c run",
        scenario: r#"{"version":1,"servers":[{"name":"a","source":"b"},{"name":"b","source":"a"}]}"#,
        out: "",
        err: "scenario fault 10 Loop /servers/0/source\n",
        status: 2,
    },
    Example {
        arguments: "orch -c run",
        scenario: r#"{"version":1,"servers":[{"name":"m","history":[["m",100,2]]},{"name":"r","source":"m","executed":3}]}"#,
        out: "",
        err: "scenario fault 13 TooMany /servers/1/executed\n",
        status: 2,
    },
    Example {
        arguments: "orch -c dump",
        scenario: r#"{"version":1,"servers":[{"name":"m"}]}"#,
        out: r#"{"aliases":{},"block":3600,"blocks":{},"filters":{"intermediate":["*"],"master":["*"]},"gtid":false,"hooks":{"post_failover":[],"post_unsuccessful":[],"pre_failover":[]},"nodes":1,"now":0,"pseudo":0,"servers":[{"cluster":"m:3306","dc":"","desk":true,"feed":true,"flushes":[],"history":[],"limit":1073741824,"logs":true,"name":"m:3306","purged":1,"read_only":false,"server_id":1,"up":true,"uuid":"00000000-0000-0000-0000-000000000001","version":"8.0.36"}],"turns":[],"version":1}
"#,
        err: "",
        status: 0,
    },
    Example {
        arguments: "orch",
        scenario: r#"{"version":1,"servers":[{"name":"m"}]}"#,
        out: "",
        err: "usage\n",
        status: 1,
    },
    Example {
        arguments: "orch -c walk",
        scenario: r#"{"version":1,"servers":[{"name":"m"}]}"#,
        out: "",
        err: "usage\n",
        status: 1,
    },
    Example {
        arguments: "orch -c run",
        scenario: r#"{"version":1,"servers":[{"name":"m","history":[["m",100,1]]},{"name":"r","source":"m","executed":1}],"turns":[["fail","m"],["fetch","r"],["heal","m"],["write","m",50],["rotate","m"],["fetch","r"],["fetch","r"]]}"#,
        out: "1 fail m:3306: done
2 fetch r:3306: no link
3 heal m:3306: done
4 write m:3306 50: done 2
5 rotate m:3306: done mysql-bin.000002:4
6 fetch r:3306: got mysql-bin.000001:154
7 fetch r:3306: rotated mysql-bin.000002:4
..
",
        err: "",
        status: 0,
    },
    Example {
        arguments: "orch -c run",
        scenario: r#"{"version":1,"servers":[{"name":"m"},{"name":"r","source":"m","auto":true}]}"#,
        out: "",
        err: "scenario fault 26 AutoWithoutGtid /servers/1/auto\n",
        status: 2,
    },
    Example {
        arguments: "orch -c run",
        scenario: r#"{"version":1,"servers":[{"name":"m","history":[["m",100,5]]},{"name":"r","source":"m","executed":2}],"turns":[["command","forget",{"i":"r"}],["poll-read",1,"r"]]}"#,
        out: "1 command forget r:3306: done
  r:3306
2 poll-read 1 r:3306: unknown
..
",
        err: "",
        status: 0,
    },
    Example {
        arguments: "orch -c topology -i s",
        scenario: r#"{"version":1,"servers":[{"name":"m","history":[["m",100,4]]},{"name":"s","source":"m","executed":4,"limit":200},{"name":"r","source":"s","executed":1}]}"#,
        out: "m:3306 [ok,8.0.36,rw]
+ s:3306 [ok,8.0.36,ro]
  + r:3306 [ok,8.0.36,ro]
",
        err: "",
        status: 0,
    },
    Example {
        arguments: "orch -c topology -i z",
        scenario: r#"{"version":1,"servers":[{"name":"m"}]}"#,
        out: "",
        err: "refused 2 UnknownInstance\n",
        status: 7,
    },
    Example {
        arguments: "orch -c move-up -i r --wait 3",
        scenario: r#"{"version":1,"servers":[{"name":"m","history":[["m",100,2]]},{"name":"s","source":"m","executed":2},{"name":"r","source":"s","executed":1,"feed":false}]}"#,
        out: "",
        err: "failed WaitSpent r:3306\n",
        status: 7,
    },
    Example {
        arguments: "orch -c repoint -i r -d s",
        scenario: r#"{"version":1,"servers":[{"name":"m"},{"name":"r","source":"m"},{"name":"s","source":"m"}]}"#,
        out: "",
        err: "refused 13 NotSameLog\n",
        status: 7,
    },
    Example {
        arguments: "orch -c take-master -i i --tables",
        scenario: r#"{"version":1,"servers":[{"name":"m","history":[["m",100,3]]},{"name":"x","source":"m","executed":3},{"name":"i","source":"x","executed":2}]}"#,
        out: "i:3306<m:3306
x:3306<i:3306
server m:3306 up rw executed 3 ..
server x:3306 up ro executed 3 end mysql-bin.000001:304 source i:3306 at mysql-bin.000001:304 ..
server i:3306 up ro executed 3 end mysql-bin.000001:304 source m:3306 at mysql-bin.000001:304 ..
errant 0
",
        err: "",
        status: 0,
    },
    Example {
        arguments: "orch -c enable-gtid -i r --tables",
        scenario: r#"{"version":1,"servers":[{"name":"m","history":[["m",100,2]]},{"name":"r","source":"m","executed":2}],"gtid":true}"#,
        out: "r:3306
server m:3306 ..
server r:3306 up ro executed 2 end mysql-bin.000001:204 source m:3306 at mysql-bin.000001:204 read mysql-bin.000001:204 io on sql on auto
errant 0
",
        err: "",
        status: 0,
    },
    Example {
        arguments: "orch -c relocate -i r -d d",
        scenario: r#"{"version":1,"servers":[{"name":"m","history":[["m",100,2]]},{"name":"s","source":"m","executed":2},{"name":"d","source":"m","executed":2},{"name":"r","source":"s","executed":2}]}"#,
        out: "r:3306<d:3306\n",
        err: "",
        status: 0,
    },
    Example {
        arguments: "orch -c relocate -i d -d r",
        scenario: r#"{"version":1,"servers":[{"name":"m","history":[["m",100,2]]},{"name":"s","source":"m","executed":2},{"name":"d","source":"m","executed":2},{"name":"r","source":"s","executed":2}]}"#,
        out: "",
        err: "refused 19 NoPath\n",
        status: 7,
    },
    Example {
        arguments: "orch -c register-candidate -i r --promotion-rule prefer",
        scenario: r#"{"version":1,"servers":[{"name":"m","history":[["m",100,5]]},{"name":"r","source":"m","executed":2}]}"#,
        out: "r:3306 prefer until 3600\n",
        err: "",
        status: 0,
    },
    Example {
        arguments: "orch -c generate --seed 7 --servers 1 --turns 0",
        scenario: "",
        out: r#"{"servers":[{"history":[["s0001",100,20]],"name":"s0001"}],"turns":[],"version":1}
"#,
        err: "",
        status: 0,
    },
    Example {
        arguments: "orch -c dump",
        scenario: r#"{"version":1,"servers":[{"name":"m"},{"name":"r","source":"m","read_only":false}],"turns":[["write","r",10]]}"#,
        out: "",
        err: "refused 29 NotQuiet 1\n",
        status: 7,
    },
    Example {
        arguments: "orch -c run",
        scenario: r#"{"version":1,"servers":[{"name":"m","history":[["m",100,3]],"limit":100},{"name":"r","source":"m","executed":1}],"turns":[["purge","m",3],["cut","r","feed"],["purge","m",3],["join","r","feed"],["fetch","r"],["fetch","r"],["purge","m",9]]}"#,
        out: "1 purge m:3306 3: done 1
2 cut r:3306 feed: done
3 purge m:3306 3: done 3
4 join r:3306 feed: done
5 fetch r:3306: purged 3
6 fetch r:3306: stopped
7 purge m:3306 9: no file
server m:3306 up rw executed 3 end mysql-bin.000004:4 source none purged 3
..
",
        err: "",
        status: 0,
    },
    Example {
        arguments: "orch -c match -i d -d a",
        scenario: r#"{"version":1,"servers":[{"name":"m","history":[["m",100,4]]},{"name":"a","source":"m","executed":2},{"name":"b","source":"m","executed":3},{"name":"c","source":"m","executed":2},{"name":"d","source":"m","executed":1},{"name":"e","source":"m","executed":4,"rule":"must_not"}],"pseudo":1}"#,
        out: "d:3306<a:3306\n",
        err: "",
        status: 0,
    },
    Example {
        arguments: "orch -c match -i d -d a --tables",
        scenario: r#"{"version":1,"servers":[{"name":"m","history":[["m",100,4]]},{"name":"a","source":"m","executed":2},{"name":"b","source":"m","executed":3},{"name":"c","source":"m","executed":2},{"name":"d","source":"m","executed":1},{"name":"e","source":"m","executed":4,"rule":"must_not"}],"pseudo":1}"#,
        out: "d:3306<a:3306
..
server d:3306 up ro executed 4 end mysql-bin.000001:404 source a:3306 ..
..
",
        err: "",
        status: 0,
    },
    Example {
        arguments: "orch -c match -i x -d m",
        scenario: r#"{"version":1,"servers":[{"name":"m","history":[["m",100,3]],"cluster":"c"},{"name":"x","history":[["m",100,2],["x",100,1]],"cluster":"c"}],"pseudo":2}"#,
        out: "",
        err: "failed Mismatch x:3306 3\n",
        status: 7,
    },
];
