//! Laws of plans' texts, over their definitions alone.

ghost use Rattle.std.specs.Prelude.{◌≡◌, codes, false, true};
ghost use Rattle.plan_texts.specs.Examples.{as_told, branch_plan, branch_text, move_gtid_ops, move_gtid_text, move_up_ops, move_up_text, other_ops, other_text, three_names};
ghost use Rattle.plan_texts.specs.Letters.{letter_at};
ghost use Rattle.plan_texts.specs.Texts.{plan_text};

/// Two plans as texts: a replica goes up, by coordinates; and it goes below its source's source by GTIDs. There the
/// applier of the server that is waited for must be on, and the replica has executed all that its new source has
/// purged. A line of each operation that these don't have: what is attached again is stopped first. A line of each
/// expectation, of a choice and of each loss: in auto position host and port alone change. And the letter of the 28th
/// server.
pub fn plans_are_told_so()
    ensures up { plan_text three_names false (as_told move_up_ops) ≡ move_up_text }
    ensures gtids { plan_text three_names false (as_told move_gtid_ops) ≡ move_gtid_text }
    ensures others { plan_text three_names false (as_told other_ops) ≡ other_text }
    ensures branch { plan_text three_names true branch_plan ≡ branch_text }
    ensures letters { letter_at 27 ≡ codes "B1" }
{}
