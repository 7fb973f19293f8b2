//! Laws of plans' lines, over the turns of recoveries.

ghost use Rattle.plan_lines.specs.Courses.{TakeoversFollowTheirPlans};

/// The turns of a takeover do exactly the operations of its plan's lines, in their order, whatever comes between the
/// turns. So it is if nothing happens to an operation and nobody is lost.
pub fn plans_are_followed()
    ensures { TakeoversFollowTheirPlans }
{}
