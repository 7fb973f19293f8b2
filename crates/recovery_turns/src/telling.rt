//! What a recovery reports when it is done.

ghost use Rattle.std.specs.Prelude.{◌≡◌, ◌++◌, IfOk, OnOk, filter_map};
ghost use Rattle.recovery_turns.specs.Prelude.{cause_of, follower_line, lost_line, option_to_list, replica_line, result_lines, told_why};
ghost use Rattle.recovery_turns.specs.Deciding.{decided_on};
ghost use Rattle.recovery_turns.specs.Lines.{source_line};

use crate::RecoveryJob;
use crate::commands::{Cause, Line, Lines};
use crate::decided::Decided;
use crate::orch_base::{Memory, ServerNo};
use recovery_plans::{Miss, Purpose, Why};
use std::alloc::Global;

fn follower_line(of: &RecoveryJob, no: ServerNo) -> Option<Line>
    ensures { result ≡ follower_line of.now.outcome no }
{
    let follower = of.outcome.followers.iter().find(|x| x.no.0 == no.0)?;
    Some(Line::Follows(follower.no, follower.source))
}

fn push_some(lines: &mut Vec<Line>, line: Option<Line>) -> Result<(), Memory>
    ensures { OnOk result (lines.new.items ≡ lines.old.items ++ option_to_list line) }
{
    if let Some(line) = line {
        lines.push(line)?;
    }
    Ok(())
}

// The line of the new source.
fn source_line(purpose: Purpose, no: ServerNo) -> Line
    ensures { result ≡ source_line purpose no }
{
    match purpose {
        Purpose::Regroup => Line::Server(no),
        Purpose::Master | Purpose::Takeover(_) => Line::Promoted(no),
        Purpose::Intermediate(_) => Line::Successor(no),
    }
}

fn cause_of(no: ServerNo, miss: Miss) -> Cause
    ensures { result ≡ cause_of no miss }
{
    match miss {
        Miss::Unreachable(away) => Cause::Unreachable(away),
        Miss::Running => Cause::Running(no),
        Miss::Interfered { expected, found } => Cause::Interfered {
            no,
            expected,
            found,
        },
        Miss::Loop => Cause::Loop(no),
        Miss::Purged(first) => Cause::Purged(no, first),
        Miss::NoMark => Cause::NoMark(no),
        Miss::Mismatch(entry) => Cause::Mismatch(no, entry),
    }
}

// The line of a lost one, detached or not; that of one that met a cause has that cause.
fn told_why(no: ServerNo, detached: bool, why: Why) -> Line
    ensures { result ≡ told_why no detached why }
{
    match why {
        Why::Lost(why) => Line::Lost { no, why, detached },
        Why::Unmatched(miss) => Line::Unmatched {
            no,
            why: cause_of(no, miss),
        },
    }
}

impl Decided {
    fn lost_line(&self, of: &RecoveryJob, no: ServerNo) -> Option<Line>
        ensures { result ≡ lost_line (decided_on of.now self.now).outcome no }
    {
        let replica = self.lost_one(of, no)?;
        Some(told_why(replica.no, replica.detached, replica.why))
    }

    // The line of a replica that follows or is lost.
    fn replica_line(&self, of: &RecoveryJob, no: ServerNo) -> Option<Line>
        ensures { result ≡ replica_line (decided_on of.now self.now).outcome no }
    {
        match follower_line(of, no) {
            Some(line) => Some(line),
            None => self.lost_line(of, no),
        }
    }

    // The lines of those that follow or are lost, in order.
    fn add_replicas(
        &self,
        of: &RecoveryJob,
        order: &[ServerNo],
        lines: &mut Vec<Line>,
    ) -> Result<(), Memory>
        ensures { OnOk result (lines.new.items ≡ lines.old.items ++ filter_map
            (replica_line (decided_on of.now self.now).outcome) order.now) }
    {
        for no in order {
            push_some(lines, self.replica_line(of, *no))?;
        }
        Ok(())
    }

    fn add_followers(
        &self,
        of: &RecoveryJob,
        order: &[ServerNo],
        lines: &mut Vec<Line>,
    ) -> Result<(), Memory>
        ensures { OnOk result (lines.new.items ≡ lines.old.items ++ filter_map
            (follower_line (decided_on of.now self.now).outcome) order.now) }
    {
        for no in order {
            push_some(lines, follower_line(of, *no))?;
        }
        Ok(())
    }

    fn add_lost(
        &self,
        of: &RecoveryJob,
        order: &[ServerNo],
        lines: &mut Vec<Line>,
    ) -> Result<(), Memory>
        ensures { OnOk result (lines.new.items ≡ lines.old.items ++ filter_map
            (lost_line (decided_on of.now self.now).outcome) order.now) }
    {
        for no in order {
            push_some(lines, self.lost_line(of, *no))?;
        }
        Ok(())
    }

    // The new source, then the others in name order.
    pub(crate) fn result_lines(&self, alloc: Global, of: &RecoveryJob) -> Result<Lines, Memory>
        ensures { IfOk result (λ lines. lines ≡ result_lines (decided_on of.now self.now)) }
    {
        let mut lines = Vec::new(alloc);
        if let Some(no) = self.promoted {
            lines.push(source_line(of.purpose, no))?;
        }
        match of.purpose {
            Purpose::Regroup => self.add_replicas(of, &of.order, &mut lines)?,
            Purpose::Master | Purpose::Intermediate(_) | Purpose::Takeover(_) => {
                self.add_followers(of, &of.order, &mut lines)?;
                self.add_lost(of, &of.order, &mut lines)?;
            }
        }
        Ok(Lines::new(lines))
    }
}
