//! The answers.

ghost use Rattle.std.specs.Prelude.{◌≡◌, ◌<◌, IfOk, IsTrue, length};
ghost use Rattle.asking_commands.specs.Prelude.{Gives, is_within};
ghost use Rattle.asking_commands.specs.Answers.{answer_fault, answer_of, answer_to, answers_of, is_known, lines_of, permitted};

use crate::Memory;
use crate::analysis::replication_analysis;
use crate::labels::clusters;
use crate::listing::{
    all_instances, find, global_switch, which_cluster, which_cluster_instances, which_master,
    which_replicas,
};
use crate::orch_base::ServerNo;
use crate::recoveries::recovery_lines;
use crate::trees::topology;
use book_views::is_instance;
use commands::{Command, CommandTurn, Found, Lines, Question, Refusal, Route, unknown_instance};
use instance_keeper::{Book, Recovery};
use std::alloc::Global;
use std::fmt;

/// Why there is no answer.
#[derive(Drop)]
pub enum AnswerFault {
    /// The command is refused.
    Refused(Refusal),
    /// Out of memory.
    Memory,
}

impl From<Memory> for AnswerFault {
    ghost use Rattle.asking_commands.specs.declared.answers.AnswerFault.TheVariants.{Memory as NoMemory};

    ghost from_gives = { λ _ e. e ≡ NoMemory };

    fn from(_e: Memory) -> AnswerFault {
        AnswerFault::Memory
    }
}

impl fmt::Display for AnswerFault {
    fn fmt<W: fmt::Write>(&self, f: &mut fmt::Formatter<W>) -> fmt::Result {
        match self {
            AnswerFault::Refused(refusal) => write!(f, "refused {}", refusal.number()),
            AnswerFault::Memory => write!(f, "out of memory"),
        }
    }
}

fn is_known(book: &Book, given: Option<ServerNo>) -> bool
    requires { IsTrue (is_within (length book.now.names) given) }
    ensures { result ≡ is_known book.now given }
{
    match given {
        Some(no) => is_instance(book, no),
        None => false,
    }
}

/// Refuses a command that uses an instance or a destination which isn't one of the book's, by
/// `commands::unknown_instance`. What it doesn't use isn't tested.
pub fn permit(book: &Book, command: Command) -> Result<(), Refusal>
    requires i { IsTrue (is_within (length book.now.names) command.i) }
    requires d { IsTrue (is_within (length book.now.names) command.d) }
    ensures { result ≡ permitted book.now command }
{
    match unknown_instance(
        command,
        is_known(book, command.i),
        is_known(book, command.d),
    ) {
        Some(refusal) => Err(refusal),
        None => Ok(()),
    }
}

fn answers_of(pattern: &Option<Found>) -> &[bool]
    ensures { result.now ≡ answers_of pattern.now }
{
    match pattern {
        Some(found) => found.answers.as_slice(),
        None => &[],
    }
}

fn answer_to(
    alloc: Global,
    book: &Book,
    recoveries: &[Recovery],
    turn: &CommandTurn,
    question: Question,
) -> Result<Lines, Memory>
    requires { IsTrue (is_within (length book.now.names) turn.now.command.i) }
    ensures { IfOk result (λ lines. lines ≡ answer_to book.now recoveries.now turn.now question) }
{
    match (question, turn.command.i) {
        (Question::Clusters, _) => clusters(alloc, book),
        (Question::AllInstances, _) => all_instances(alloc, book),
        (Question::Find, _) => find(alloc, book, answers_of(&turn.keys.pattern)),
        (Question::Analysis, _) => replication_analysis(alloc, book),
        (Question::Recoveries, _) => recovery_lines(alloc, recoveries),
        (Question::Switch, _) => global_switch(alloc, book),
        (Question::Topology, Some(i)) => topology(alloc, book, i),
        (Question::WhichMaster, Some(i)) => which_master(alloc, book, i),
        (Question::WhichReplicas, Some(i)) => which_replicas(alloc, book, i),
        (Question::WhichCluster, Some(i)) => which_cluster(alloc, book, i),
        (Question::WhichClusterInstances, Some(i)) => which_cluster_instances(alloc, book, i),
        (
            Question::Topology
            | Question::WhichMaster
            | Question::WhichReplicas
            | Question::WhichCluster
            | Question::WhichClusterInstances,
            None,
        ) => Ok(Lines::new(Vec::new(alloc))),
    }
}

fn lines_of(
    alloc: Global,
    book: &Book,
    recoveries: &[Recovery],
    turn: &CommandTurn,
) -> Result<Lines, Memory>
    requires { IsTrue (is_within (length book.now.names) turn.now.command.i) }
    ensures { IfOk result (λ lines. lines
        ≡ lines_of book.now recoveries.now turn.now turn.now.command.name) }
{
    match Route::of(turn.command.name) {
        Route::Asks(question) => answer_to(alloc, book, recoveries, turn, question),
        Route::Discovers
        | Route::Forgets
        | Route::Decides(_)
        | Route::Begins(_)
        | Route::Recovers
        | Route::TakesOver => Ok(Lines::new(Vec::new(alloc))),
    }
}

/// The lines of a command that only asks the book or the audit's recoveries. `UnknownInstance` exactly if it uses an
/// instance or a destination that the book hasn't. Any other command has no lines here.
#[tactic(auto, unfolding(crate::specs::Answers::answer_of))]
pub fn answer(
    alloc: Global,
    book: &Book,
    recoveries: &[Recovery],
    turn: &CommandTurn,
) -> Result<Lines, AnswerFault>
    requires i { IsTrue (is_within (length book.now.names) turn.now.command.i) }
    requires d { IsTrue (is_within (length book.now.names) turn.now.command.d) }
    ensures { Gives (λ lines. lines) answer_fault result
        (answer_of book.now recoveries.now turn.now) }
{
    match permit(book, turn.command) {
        Ok(()) => Ok(lines_of(alloc, book, recoveries, turn)?),
        Err(refusal) => Err(AnswerFault::Refused(refusal)),
    }
}
