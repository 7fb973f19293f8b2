//! Laws of several orchestrators over the same kept rows.

ghost use Rattle.run_laws.specs.Acting.{ActiveActAlike, HeldLastAMinute, LapsedKeepNothing, PassingRestarts, RenewingClaimsAlone, TakenChangeNothing};
ghost use Rattle.run_laws.specs.Prelude.{State};
ghost use Rattle.run_laws.specs.Claims.{ActsWhereActive, ClaimsAreReached, ClaimsWait, ItsClaimIsKept, JobsAreBegunSince, LapsedDoesNothing, OneIsActive, PassingLeavesNoJob, PassingStartsAgain};
ghost use Rattle.run_laws.specs.Runs.{AtEveryTurn, InEveryState};

/// In every state of every run at most one of the orchestrators is active, and the kept claim is then its own. Each of
/// their turns that doesn't answer that it lapsed is the active one's. One that lapsed does nothing. One that doesn't
/// answers, keeps and does what the same turn does without several orchestrators.
pub fn one_orchestrator_is_active()
    ensures reached { InEveryState ClaimsAreReached }
    ensures one { InEveryState OneIsActive }
    ensures kept { InEveryState ItsClaimIsKept }
    ensures acting { AtEveryTurn ActsWhereActive }
    ensures lapsed { AtEveryTurn LapsedDoesNothing }
    ensures alike { (s : State) → ActiveActAlike s }
    ensures keeps_nothing { (s : State) → LapsedKeepNothing s }
{}

/// No claim is granted before another node's has run out. If one passes from the node that had the last, orchestrator
/// starts again, and no job is left. Each that is unended in a later state was begun later. Such a claim is the restart
/// and the claim. One of the node that had the last is the claim alone. Each lasts 60 seconds, and one that is taken
/// changes nothing.
pub fn claims_pass_alone()
    ensures waits { AtEveryTurn ClaimsWait }
    ensures restart { AtEveryTurn PassingStartsAgain }
    ensures jobs { AtEveryTurn PassingLeavesNoJob }
    ensures since { JobsAreBegunSince }
    ensures passing { (s : State) → PassingRestarts s }
    ensures renewing { (s : State) → RenewingClaimsAlone s }
    ensures minute { (s : State) → HeldLastAMinute s }
    ensures taken { (s : State) → TakenChangeNothing s }
{}
