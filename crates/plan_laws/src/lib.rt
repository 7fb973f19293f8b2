//! Laws of plans: a command's plan is what its job would do, and what the turns of a recovery do.
#![tactic(auto)]

ghost use Rattle.plan_laws.specs.Begun.{MovesAreToldWhole, RecoveriesAreToldAsExpected, TakeoversAreToldWhole};
ghost use Rattle.plan_laws.specs.Conditions.{ChoicesHaveTheirConditions};
ghost use Rattle.plan_laws.specs.Deciding.{ConditionsDecideTheChoice};
ghost use Rattle.plan_laws.specs.Doing.{RecoveriesAreDoneAsTold, RecoveriesAreOfTheirInstances};
ghost use Rattle.plan_laws.specs.Followed.{RecoveriesFollowTheirPlans};

/// If a command would begin its job, and nobody's claim lasts, its plan prints the operations of that job, in their
/// order. For a recovery or a regroup these are those of the expected branch, by its own choices over the book then.
/// For a takeover they are those of one that loses no replica, with the replicas that the book has then.
pub fn plans_tell_begun_jobs()
    ensures moves { MovesAreToldWhole }
    ensures recoveries { RecoveriesAreToldAsExpected }
    ensures takeovers { TakeoversAreToldWhole }
{}

/// The turns of a recovery or a regroup do exactly the operations of its plan's lines, in their order, whatever comes
/// between the turns. This holds if everything is found as the plan assumes.
pub fn recoveries_are_followed()
    ensures { RecoveriesFollowTheirPlans }
{}

/// A recovery or a regroup that a command begins is one of the given instance. Its replicas are those of the book then,
/// and none is named twice. Its plan goes by the same means, except the distance of marks. So its turns do the plan, if
/// everything is found as the plan assumes.
pub fn begun_recoveries_are_followed()
    ensures instance { RecoveriesAreOfTheirInstances }
    ensures done { RecoveriesAreDoneAsTold }
{}

/// The plan of a recovery or a regroup by a choice has a line for each other replica that might be chosen: on which
/// condition the choice falls before it.
pub fn choices_have_their_conditions()
    ensures { ChoicesHaveTheirConditions }
{}

/// If what is noted meets each line of a plan's choice, the recovery chooses the plan's server. Each drained replica is
/// one that the plan expects, and no two have one name. The rules, the logging and the data centres are those by which
/// the plan was made.
pub fn conditions_decide_the_choice()
    ensures { ConditionsDecideTheChoice }
{}
