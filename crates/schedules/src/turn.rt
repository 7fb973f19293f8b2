//! Turns as JSON.

ghost use Rattle.std.specs.Prelude.{◌≡◌, IfOk};
ghost use Rattle.serde_json.specs.Data.{string};
ghost use Rattle.serde_json.specs.View.{view};
ghost use Rattle.scenarios.specs.ServerWords.Words.{link_text};
ghost use Rattle.schedules.specs.Turns.{act_data, name_data, step_data, turn_data, with_one, with_two};
ghost use Rattle.row_texts.specs.Written.{whole};

use crate::command::given_value;
use crate::commands::CommandTurn;
use crate::orch_base::{Memory, Name, ServerNo};
use crate::server_words_items::Link;
use crate::turns::{Act, Step, Turn};
use crate::words::name_string;
use serde_json::{Value, json};
use std::alloc::Global;

// A word and a server.
fn at_server(alloc: Global, names: &[Name], word: &str, no: ServerNo) -> Result<Value, Memory>
    ensures { IfOk result (λ v. view v ≡ with_one word.now (name_data names.now no)) }
{
    let name = name_string(alloc, names, no)?;
    json!(in alloc; [word, name])
}

// A word, a server and a number.
fn with_number(
    alloc: Global,
    names: &[Name],
    word: &str,
    no: ServerNo,
    number: u32,
) -> Result<Value, Memory>
    ensures { IfOk result (λ v. view v
        ≡ with_two word.now (name_data names.now no) (whole number)) }
{
    let name = name_string(alloc, names, no)?;
    json!(in alloc; [word, name, number])
}

// A word, a server and a link.
fn with_link(
    alloc: Global,
    names: &[Name],
    word: &str,
    no: ServerNo,
    link: Link,
) -> Result<Value, Memory>
    ensures { IfOk result (λ v. view v
        ≡ with_two word.now (name_data names.now no) (string (link_text link))) }
{
    let name = name_string(alloc, names, no)?;
    let link = link.word();
    json!(in alloc; [word, name, link])
}

fn step_value(alloc: Global, names: &[Name], step: Step) -> Result<Value, Memory>
    ensures { IfOk result (λ v. view v ≡ step_data names.now step) }
{
    match step {
        Step::Write(no, size) => with_number(alloc, names, "write", no, size),
        Step::Fetch(no) => at_server(alloc, names, "fetch", no),
        Step::Apply(no) => at_server(alloc, names, "apply", no),
        Step::Fail(no) => at_server(alloc, names, "fail", no),
        Step::Heal(no) => at_server(alloc, names, "heal", no),
        Step::Cut(no, link) => with_link(alloc, names, "cut", no, link),
        Step::Join(no, link) => with_link(alloc, names, "join", no, link),
        Step::Rotate(no) => at_server(alloc, names, "rotate", no),
        Step::Purge(no, file) => with_number(alloc, names, "purge", no, file),
    }
}

fn read_value(alloc: Global, names: &[Name], poller: u32, no: ServerNo) -> Result<Value, Memory>
    ensures { IfOk result (λ v. view v ≡ act_data names.now (Act.PollRead poller no)) }
{
    let name = name_string(alloc, names, no)?;
    json!(in alloc; ["poll-read", poller, name])
}

fn command_value(alloc: Global, names: &[Name], t: &CommandTurn) -> Result<Value, Memory>
    ensures { IfOk result (λ v. view v ≡ act_data names.now (Act.Command t.now)) }
{
    let word = t.command.name.word();
    let given = given_value(alloc, names, t)?;
    json!(in alloc; ["command", word, given])
}

fn act_value(alloc: Global, names: &[Name], act: &Act) -> Result<Value, Memory>
    ensures { IfOk result (λ v. view v ≡ act_data names.now act.now) }
{
    match act {
        Act::PollRead(poller, no) => read_value(alloc, names, *poller, *no),
        Act::PollStore(poller) => json!(in alloc; ["poll-store", *poller]),
        Act::Command(t) => command_value(alloc, names, t.as_turn()),
        Act::Job(job) => json!(in alloc; ["job", *job]),
        Act::Scan => json!(in alloc; ["scan"]),
        Act::Restart => json!(in alloc; ["restart"]),
    }
}

fn act_as(alloc: Global, names: &[Name], node: u32, act: &Act) -> Result<Value, Memory>
    ensures { IfOk result (λ v. view v ≡ turn_data names.now (Turn.As node act.now)) }
{
    let act = act_value(alloc, names, act)?;
    json!(in alloc; ["as", node, act])
}

/// A turn in the scenario's form.
pub(crate) fn turn_value(alloc: Global, names: &[Name], turn: &Turn) -> Result<Value, Memory>
    ensures { IfOk result (λ v. view v ≡ turn_data names.now turn.now) }
{
    match turn {
        Turn::Step(step) => step_value(alloc, names, *step),
        Turn::Tick(seconds) => json!(in alloc; ["tick", *seconds]),
        Turn::Act(act) => act_value(alloc, names, act),
        Turn::As(node, act) => act_as(alloc, names, *node, act),
        Turn::Claim(node) => json!(in alloc; ["claim", *node]),
        Turn::Release(node) => json!(in alloc; ["release", *node]),
    }
}
