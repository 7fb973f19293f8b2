//! Laws of tasks, over their definitions alone.

ghost use Rattle.tasks.specs.Laws.{ClaimedCommandsAreTaken, CutTextsBeginAnswers, KnownRowsFixRuns, PlansAreAnsweredAsCommands, PlansTellClaimsThatLast, RepliesAreOfTurns, SummariesCountTurns, TakenAreAsked, TakenClaimsTakeNoCommand};

/// What an accepted command line asks of a scenario is something, and its turn meets the condition of the calls that
/// take turns. What its command needs is there, each number and text is in its range, and its instance and destination
/// are among the servers.
pub fn asked_turns_are_sound()
    ensures { TakenAreAsked }
{}

/// If the row store's rows are known, they fix the run: the opening and these turns lead to one run and to one list of
/// kept rows.
pub fn known_rows_fix_the_run()
    ensures { KnownRowsFixRuns }
{}

/// What is left of a task that is cut after any of its turns begins what it answers on out if nothing fails.
pub fn cut_texts_begin_the_report()
    ensures { CutTextsBeginAnswers }
{}

/// The replies that a summary counts are those of the turns that were taken, one for each, in their order. So it has as
/// many turns as there were.
pub fn summaries_count_the_turns()
    ensures replies { RepliesAreOfTurns }
    ensures turns { SummariesCountTurns }
{}

/// Before a single command the first of several orchestrators claims, if none is active. If it gets the claim, it takes
/// the command. If another's claim lasts, the command isn't taken.
pub fn claims_decide_single_commands()
    ensures held { ClaimedCommandsAreTaken }
    ensures taken { TakenClaimsTakeNoCommand }
{}

/// If a command's plan is asked for, it is answered as the command would be: by its own turn, and if its claim would be
/// in vain, by the claim.
pub fn plans_are_answered_as_commands()
    ensures alike { PlansAreAnsweredAsCommands }
    ensures lasting { PlansTellClaimsThatLast }
{}
