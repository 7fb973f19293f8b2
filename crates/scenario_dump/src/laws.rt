//! Laws of the text.

ghost use Rattle.std.specs.Prelude.{◌≡◌, ℕ, ◌++◌, Some, codes, true};
ghost use Rattle.scenario_dump.specs.Prelude.{Scenario, World, is_utf8, read};
ghost use Rattle.scenario_dump.specs.Promises.{HasTexts, IsReadable};
ghost use Rattle.scenario_dump.specs.Small.{named_scenario, one_server, plain_scenario, two_servers};
ghost use Rattle.scenario_dump.specs.Texts.{dump_data, dump_text};

/// The text is JSON, and reads as the value of the world. If its texts are UTF-8 so is the whole.
pub fn dumps_read_as_json()
    ensures read { (w : World) (s : Scenario) (now : ℕ) → IsReadable w s now
        → read (dump_text w s now) ≡ Some (dump_data w s now) }
    ensures utf8 { (w : World) (s : Scenario) (now : ℕ) → HasTexts w s
        → is_utf8 (dump_text w s now) ≡ true }
{}

/// Small worlds in full.
#[rattlefmt::skip]
pub fn small_dumps_are_known()
    ensures one { dump_text one_server plain_scenario 0
        ≡ codes "{\"aliases\":{},\"block\":3600,\"blocks\":{},"
        ++ codes "\"filters\":{\"intermediate\":[\"*\"],\"master\":[\"*\"]},\"gtid\":false,"
        ++ codes "\"hooks\":{\"post_failover\":[],\"post_unsuccessful\":[],\"pre_failover\":[]},"
        ++ codes "\"nodes\":1,\"now\":0,\"pseudo\":0,"
        ++ codes "\"servers\":[{\"cluster\":\"m:3306\",\"dc\":\"\",\"desk\":true,\"feed\":true,"
        ++ codes "\"flushes\":[],\"history\":[],\"limit\":1073741824,"
        ++ codes "\"logs\":true,\"name\":\"m:3306\",\"purged\":1,\"read_only\":false,"
        ++ codes "\"server_id\":1,\"up\":true,"
        ++ codes "\"uuid\":\"00000000-0000-0000-0000-000000000001\",\"version\":\"8.0.36\"}],"
        ++ codes "\"turns\":[],\"version\":1}\n" }
    ensures two { dump_text two_servers named_scenario 7
        ≡ codes "{\"aliases\":{\"m:3306\":\"a \\\"b\\\"\"},\"block\":3600,"
        ++ codes "\"blocks\":{\"m:3306\":60},\"filters\":{\"intermediate\":[\"*\"],"
        ++ codes "\"master\":[\"*\"]},"
        ++ codes "\"gtid\":false,\"hooks\":{\"post_failover\":[[\"page {failedHost}\",0]],"
        ++ codes "\"post_unsuccessful\":[],\"pre_failover\":[]},\"nodes\":1,\"now\":7,\"pseudo\":5,"
        ++ codes "\"servers\":[{\"cluster\":\"m:3306\",\"dc\":\"\",\"desk\":true,\"feed\":true,"
        ++ codes "\"flushes\":[1,3],"
        ++ codes "\"history\":[[\"m:3306\",100,2],[\"m:3306\",200,1]],\"limit\":250,"
        ++ codes "\"logs\":true,\"name\":\"m:3306\",\"purged\":1,\"read_only\":false,"
        ++ codes "\"server_id\":1,\"up\":true,"
        ++ codes "\"uuid\":\"00000000-0000-0000-0000-000000000001\",\"version\":\"8.0.36\"},"
        ++ codes "{\"at\":\"mysql-bin.000002:104\",\"auto\":false,\"cluster\":\"m:3306\","
        ++ codes "\"dc\":\"east\",\"desk\":false,\"detached\":true,"
        ++ codes "\"executed\":2,\"feed\":true,\"flushes\":[],\"io\":false,\"limit\":100,"
        ++ codes "\"logs\":false,\"name\":\"r:3306\",\"purged\":1,"
        ++ codes "\"read\":\"mysql-bin.000002:304\",\"read_only\":true,\"server_id\":2,"
        ++ codes "\"source\":\"m:3306\",\"sql\":false,"
        ++ codes "\"until\":\"mysql-bin.000003:4\",\"up\":true,"
        ++ codes "\"uuid\":\"00000000-0000-0000-0000-000000000002\",\"version\":\"8.0.36\"}],"
        ++ codes "\"turns\":[],\"version\":1}\n" }
{}
