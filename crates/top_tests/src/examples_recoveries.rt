//! Worked examples of analyses, decisions, recoveries and takeovers, of hooks and of several orchestrators.

use crate::examples::Example;

/// Analyses, decisions, recoveries, takeovers, hooks and claims.
pub(crate) const RECOVERIES: &[Example] = &[
    Example {
        arguments: "orch -c run",
        scenario: r#"{"version":1,"servers":[{"name":"m","history":[["m",100,1]]},{"name":"r","source":"m","executed":1}],"turns":[["poll-read",1,"m"],["fail","m"],["poll-read",2,"m"],["poll-store",2],["poll-store",1],["command","replication-analysis",{}]]}"#,
        out: "1 poll-read 1 m:3306: read 1
2 fail m:3306: done
3 poll-read 2 m:3306: read 2 unreachable
4 poll-store 2: stored
5 poll-store 1: old 2
6 command replication-analysis: done
  m:3306 UnreachableMaster replicas 1 valid 1 replicating 1 lagging 0
..
",
        err: "",
        status: 0,
    },
    Example {
        arguments: "orch -c recover -i m --tables",
        scenario: r#"{"version":1,"servers":[{"name":"m","history":[["m",100,3]]},{"name":"a","source":"m","executed":2},{"name":"b","source":"m","executed":2,"rule":"prefer"},{"name":"c","source":"m","executed":3}],"turns":[["fetch","a"],["apply","a"],["fail","m"],["polls"]]}"#,
        out: "promoted b:3306
a:3306<b:3306
c:3306<a:3306
server m:3306 down rw executed 3 end mysql-bin.000001:304 source none
server a:3306 up ro executed 3 end mysql-bin.000001:304 source b:3306 at mysql-bin.000001:304 read mysql-bin.000001:304 io on sql on
server b:3306 up rw executed 3 end mysql-bin.000001:304 source none
server c:3306 up ro executed 3 end mysql-bin.000001:304 source a:3306 at mysql-bin.000001:304 read mysql-bin.000001:304 io on sql on
recovery 1 m:3306 master m:3306 begun 0 ended 0 promoted b:3306 unacked
errant 0
",
        err: "",
        status: 0,
    },
    Example {
        arguments: "orch -c run",
        scenario: r#"{"version":1,"servers":[{"name":"m","history":[["m",100,1]]},{"name":"a","source":"m","executed":1}],"turns":[["fail","m"],["polls"],["command","recover",{"i":"m"}],["heal","m"],["job",1],["fail","m"],["poll-read",0,"m"],["poll-store",0],["tick",3599],["command","recover",{"i":"m"}],["tick",1],["command","recover",{"i":"m"}],["heal","m"],["job",2],["fail","m"],["poll-read",0,"m"],["poll-store",0],["command","ack-cluster-recoveries",{"i":"m"}],["command","recover",{"i":"m"}]]}"#,
        out: "..
6 command recover m:3306: begun 1
..
8 job 1: failed Reachable m:3306
..
10 poll-read 0 m:3306: read 4 unreachable
..
13 command recover m:3306: refused 25 Blocked 1 until 3600
..
15 command recover m:3306: begun 2
..
17 job 2: failed Reachable m:3306
..
19 poll-read 0 m:3306: read 6 unreachable
20 poll-store 0: stored
21 command ack-cluster-recoveries m:3306: done
  acknowledged 2
22 command recover m:3306: begun 3
..
",
        err: "",
        status: 7,
    },
    Example {
        arguments: "orch -c run",
        scenario: r#"{"version":1,"servers":[{"name":"m"},{"name":"a","source":"m"}],"turns":[["fail","m"],["polls"],["command","stop-replica",{"i":"a"}],["command","recover",{"i":"m"}]]}"#,
        out: "..
6 command stop-replica a:3306: begun 1
7 command recover m:3306: refused 4 Busy a:3306 1
..
",
        err: "",
        status: 7,
    },
    Example {
        arguments: "orch -c run",
        scenario: r#"{"version":1,"servers":[{"name":"m"},{"name":"a","source":"m"}],"turns":[["fail","m"],["polls"],["command","begin-downtime",{"i":"m","duration":"600"}],["scan"]]}"#,
        out: "..
7 scan: done
  m:3306 DeadMaster refused 22 Downtimed until 600
..
",
        err: "",
        status: 0,
    },
    Example {
        arguments: "orch -c run",
        scenario: r#"{"version":1,"servers":[{"name":"m"},{"name":"a","source":"m"}],"turns":[["fail","m"],["polls"],["command","disable-global-recoveries",{}],["scan"]]}"#,
        out: "..
7 scan: done
  m:3306 DeadMaster refused 21 GloballyDisabled
..
",
        err: "",
        status: 0,
    },
    Example {
        arguments: "orch -c run",
        scenario: r#"{"version":1,"servers":[{"name":"m"},{"name":"a","source":"m"}],"turns":[["fail","m"],["polls"],["scan"]],"filters":{"master":["^other"]}}"#,
        out: "..
6 scan: done
  m:3306 DeadMaster refused 23 FilteredOut
..
",
        err: "",
        status: 0,
    },
    Example {
        arguments: "orch -c run",
        scenario: r#"{"version":1,"servers":[{"name":"m","history":[["m",100,1]]},{"name":"a","source":"m","executed":1}],"turns":[["fail","m"],["polls"],["command","recover",{"i":"m"}],["restart"],["command","recover",{"i":"m"}]]}"#,
        out: "..
6 command recover m:3306: begun 1
7 restart: done
8 command recover m:3306: refused 25 Blocked 1 until 3600
..
recovery 1 m:3306 master m:3306 begun 0 ended 0 interrupted unacked
..
",
        err: "",
        status: 7,
    },
    Example {
        arguments: "orch -c recover -i c1m",
        scenario: r#"{"version":1,"servers":[{"name":"c1m","history":[["c1m",500,100]]},{"name":"c1r01","source":"c1m","executed":100},{"name":"c1r02","source":"c1m","executed":100},{"name":"c1r03","source":"c1m","executed":100},{"name":"c1r04","source":"c1m","executed":100},{"name":"c1r05","source":"c1m","executed":100},{"name":"c1r06","source":"c1m","executed":100},{"name":"c1r07","source":"c1m","executed":100},{"name":"c1r08","source":"c1m","executed":100},{"name":"c1r09","source":"c1m","executed":100},{"name":"c1r10","source":"c1m","executed":100},{"name":"c1r11","source":"c1m","executed":100},{"name":"c1r12","source":"c1m","executed":100},{"name":"c1r13","source":"c1m","executed":100},{"name":"c2m","history":[["c2m",500,100]]},{"name":"c2r01","source":"c2m","executed":100},{"name":"c2r02","source":"c2m","executed":100},{"name":"c2r03","source":"c2m","executed":100},{"name":"c2r04","source":"c2m","executed":100},{"name":"c2r05","source":"c2m","executed":100},{"name":"c2r06","source":"c2m","executed":100},{"name":"c2r07","source":"c2m","executed":100},{"name":"c2r08","source":"c2m","executed":100},{"name":"c2r09","source":"c2m","executed":100},{"name":"c2r10","source":"c2m","executed":100},{"name":"c2r11","source":"c2m","executed":100},{"name":"c2r12","source":"c2m","executed":100},{"name":"c3m","history":[["c3m",500,100]]},{"name":"c3r01","source":"c3m","executed":100},{"name":"c3r02","source":"c3m","executed":100},{"name":"c3r03","source":"c3m","executed":100},{"name":"c3r04","source":"c3m","executed":100},{"name":"c3r05","source":"c3m","executed":100},{"name":"c3r06","source":"c3m","executed":100},{"name":"c3r07","source":"c3m","executed":100},{"name":"c3r08","source":"c3m","executed":100},{"name":"c3r09","source":"c3m","executed":100},{"name":"c3r10","source":"c3m","executed":100},{"name":"c3r11","source":"c3m","executed":100},{"name":"c3r12","source":"c3m","executed":100}],"turns":[["polls"],["fail","c1m"],["polls"]]}"#,
        out: "promoted c1r01:3306
c1r02:3306<c1r01:3306
c1r03:3306<c1r01:3306
c1r04:3306<c1r01:3306
c1r05:3306<c1r01:3306
c1r06:3306<c1r01:3306
c1r07:3306<c1r01:3306
c1r08:3306<c1r01:3306
c1r09:3306<c1r01:3306
c1r10:3306<c1r01:3306
c1r11:3306<c1r01:3306
c1r12:3306<c1r01:3306
c1r13:3306<c1r01:3306
",
        err: "",
        status: 0,
    },
    Example {
        arguments: "orch -c clusters",
        scenario: r#"{"version":1,"servers":[{"name":"c1m","history":[["c1m",500,100]]},{"name":"c1r01","source":"c1m","executed":100},{"name":"c1r02","source":"c1m","executed":100},{"name":"c1r03","source":"c1m","executed":100},{"name":"c1r04","source":"c1m","executed":100},{"name":"c1r05","source":"c1m","executed":100},{"name":"c1r06","source":"c1m","executed":100},{"name":"c1r07","source":"c1m","executed":100},{"name":"c1r08","source":"c1m","executed":100},{"name":"c1r09","source":"c1m","executed":100},{"name":"c1r10","source":"c1m","executed":100},{"name":"c1r11","source":"c1m","executed":100},{"name":"c1r12","source":"c1m","executed":100},{"name":"c1r13","source":"c1m","executed":100},{"name":"c2m","history":[["c2m",500,100]]},{"name":"c2r01","source":"c2m","executed":100},{"name":"c2r02","source":"c2m","executed":100},{"name":"c2r03","source":"c2m","executed":100},{"name":"c2r04","source":"c2m","executed":100},{"name":"c2r05","source":"c2m","executed":100},{"name":"c2r06","source":"c2m","executed":100},{"name":"c2r07","source":"c2m","executed":100},{"name":"c2r08","source":"c2m","executed":100},{"name":"c2r09","source":"c2m","executed":100},{"name":"c2r10","source":"c2m","executed":100},{"name":"c2r11","source":"c2m","executed":100},{"name":"c2r12","source":"c2m","executed":100},{"name":"c3m","history":[["c3m",500,100]]},{"name":"c3r01","source":"c3m","executed":100},{"name":"c3r02","source":"c3m","executed":100},{"name":"c3r03","source":"c3m","executed":100},{"name":"c3r04","source":"c3m","executed":100},{"name":"c3r05","source":"c3m","executed":100},{"name":"c3r06","source":"c3m","executed":100},{"name":"c3r07","source":"c3m","executed":100},{"name":"c3r08","source":"c3m","executed":100},{"name":"c3r09","source":"c3m","executed":100},{"name":"c3r10","source":"c3m","executed":100},{"name":"c3r11","source":"c3m","executed":100},{"name":"c3r12","source":"c3m","executed":100}],"turns":[["polls"],["fail","c1m"],["polls"]]}"#,
        out: "c1m:3306
c2m:3306
c3m:3306
",
        err: "",
        status: 0,
    },
    Example {
        arguments: "orch -c graceful-master-takeover -i m -d p --tables",
        scenario: r#"{"version":1,"servers":[{"name":"m","history":[["m",100,2]]},{"name":"p","source":"m","executed":2},{"name":"r","source":"m","executed":2}]}"#,
        out: "promoted p:3306
m:3306<p:3306
r:3306<p:3306
server m:3306 up ro executed 2 end mysql-bin.000001:204 source p:3306 at mysql-bin.000001:204 read mysql-bin.000001:204 io off sql off
server p:3306 up rw executed 2 end mysql-bin.000001:204 source none
server r:3306 up ro executed 2 end mysql-bin.000001:204 source p:3306 at mysql-bin.000001:204 read mysql-bin.000001:204 io on sql on
recovery 1 m:3306 takeover m:3306 begun 0 ended 0 promoted p:3306 acked
errant 0
",
        err: "",
        status: 0,
    },
    Example {
        arguments: "orch -c recover -i x",
        scenario: r#"{"version":1,"servers":[{"name":"m","history":[["m",100,2]]},{"name":"x","source":"m","executed":2},{"name":"r","source":"x","executed":2}],"turns":[["fail","x"],["polls"]]}"#,
        out: "successor m:3306
r:3306<m:3306
",
        err: "",
        status: 0,
    },
    Example {
        arguments: "orch -c begin-downtime -i m --duration 10m",
        scenario: r#"{"version":1,"servers":[{"name":"m"}]}"#,
        out: "m:3306 until 600\n",
        err: "",
        status: 0,
    },
    Example {
        arguments: "orch -c recover -i m",
        scenario: r#"{"version":1,"servers":[{"name":"m","history":[["m",100,2]]},{"name":"a","source":"m","executed":2},{"name":"e","source":"m","executed":1,"up":false}],"turns":[["fail","m"],["polls"]]}"#,
        out: "promoted a:3306
e:3306 unreachable
",
        err: "",
        status: 0,
    },
    Example {
        arguments: "orch -c replication-analysis",
        scenario: r#"{"version":1,"servers":[{"name":"m","history":[["m",100,2]]},{"name":"a","source":"m","executed":2},{"name":"e","source":"m","executed":1,"up":false}],"turns":[["fail","m"],["polls"]]}"#,
        out: "..
m:3306 DeadMasterAndSomeReplicas ..
..
",
        err: "",
        status: 0,
    },
    Example {
        arguments: "orch -c recover -i m",
        scenario: r#"{"version":1,"servers":[{"name":"m"},{"name":"a","source":"m","logs":false}],"turns":[["fail","m"],["polls"]]}"#,
        out: "",
        err: "refused 26 NoCandidate\n",
        status: 7,
    },
    Example {
        arguments: "orch -c run",
        scenario: r#"{"version":1,"servers":[{"name":"m"},{"name":"a","source":"m","logs":false}],"turns":[["fail","m"],["polls"],["scan"]]}"#,
        out: "..
6 scan: done
  m:3306 DeadMaster refused 26 NoCandidate
..
",
        err: "",
        status: 0,
    },
    Example {
        arguments: "orch -c recover -i x",
        scenario: r#"{"version":1,"servers":[{"name":"m","history":[["m",100,3]]},{"name":"x","source":"m","executed":3},{"name":"r","source":"x","executed":1}],"turns":[["fail","x"],["polls"]]}"#,
        out: "successor m:3306
r:3306 behind mysql-bin.000001:104 detached
",
        err: "",
        status: 0,
    },
    Example {
        arguments: "orch -c graceful-master-takeover -i m -d d",
        scenario: r#"{"version":1,"servers":[{"name":"m"},{"name":"s","source":"m"},{"name":"d","source":"s"}]}"#,
        out: "",
        err: "refused 28 NotReplica\n",
        status: 7,
    },
    Example {
        arguments: "orch -c graceful-master-takeover -i s -d d",
        scenario: r#"{"version":1,"servers":[{"name":"m"},{"name":"s","source":"m"},{"name":"d","source":"s"}]}"#,
        out: "",
        err: "refused 27 NotMaster\n",
        status: 7,
    },
    Example {
        arguments: "orch -c recover -i m",
        scenario: r#"{"version":1,"servers":[{"name":"m","history":[["m",100,3]]},{"name":"a","source":"m","executed":1,"limit":100},{"name":"d","source":"m","executed":1}],"turns":[["fetch","a"],["apply","a"],["fetch","a"],["apply","a"],["purge","a",4],["fail","m"],["polls"]]}"#,
        out: "promoted a:3306
d:3306 purged mysql-bin.000002:4 detached
",
        err: "",
        status: 0,
    },
    Example {
        arguments: "orch -c run",
        scenario: r#"{"version":1,"servers":[{"name":"m","history":[["m",100,1]]},{"name":"a","source":"m","executed":1}],"turns":[["fail","m"],["polls"],["command","recover",{"i":"m"}],["heal","m"],["job",1],["fail","m"],["poll-read",0,"m"],["poll-store",0],["tick",59],["command","recover",{"i":"m"}],["tick",1],["command","recover",{"i":"m"}]],"blocks":{"m:3306":60}}"#,
        out: "..
6 command recover m:3306: begun 1
..
12 tick 59: now 59
13 command recover m:3306: refused 25 Blocked 1 until 60
14 tick 1: now 60
15 command recover m:3306: begun 2
..
",
        err: "",
        status: 7,
    },
    Example {
        arguments: "orch -c recover -i m --tables",
        scenario: r#"{"version":1,"servers":[{"name":"m","history":[["m",100,3]]},{"name":"a","source":"m","executed":2},{"name":"b","source":"m","executed":2,"rule":"prefer"},{"name":"c","source":"m","executed":3}],"turns":[["fetch","a"],["apply","a"],["fail","m"],["polls"]],"hooks":{"pre_failover":[["check {failedHost}",3]]}}"#,
        out: "server m:3306 down rw executed 3 end mysql-bin.000001:304 source none
server a:3306 up ro executed 3 end mysql-bin.000001:304 source m:3306 ..
server b:3306 up ro executed 2 end mysql-bin.000001:204 source m:3306 ..
server c:3306 up ro executed 3 end mysql-bin.000001:304 source m:3306 ..
recovery 1 m:3306 master m:3306 begun 0 ended 0 failed HookFailed unacked
errant 0
",
        err: "failed HookFailed 1 exit 3
hook pre_failover check m exit 3
",
        status: 7,
    },
    Example {
        arguments: "orch -c run",
        scenario: r#"{"version":1,"servers":[{"name":"m","history":[["m",100,1]]},{"name":"a","source":"m","executed":1}],"turns":[["claim",1],["fail","m"],["as",1,["polls"]],["as",1,["command","recover",{"i":"m"}]],["as",2,["scan"]],["claim",2],["tick",60],["as",1,["job",1]],["claim",2],["as",2,["command","recover",{"i":"m"}]]],"nodes":2}"#,
        out: "1 claim 1: held until 60
2 fail m:3306: done
..
7 as 1 command recover m:3306: begun 1
8 as 2 scan: lapsed
9 claim 2: taken 1 until 60
10 tick 60: now 60
11 as 1 job 1: lapsed
12 claim 2: held until 120
13 as 2 command recover m:3306: refused 25 Blocked 1 until 3600
..
recovery 1 m:3306 master m:3306 begun 0 ended 60 interrupted unacked
errant 0
",
        err: "",
        status: 7,
    },
    Example {
        arguments: "orch -c run",
        scenario: r#"{"version":1,"servers":[{"name":"m","history":[["m",100,1]]},{"name":"a","source":"m","executed":1}],"turns":[["claim",1],["tick",30],["claim",1],["release",1],["claim",2],["release",1]],"nodes":2}"#,
        out: "1 claim 1: held until 60
2 tick 30: now 30
3 claim 1: held until 90
4 release 1: released
5 claim 2: held until 90
6 release 1: not held
..
",
        err: "",
        status: 0,
    },
];
