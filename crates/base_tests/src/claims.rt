ghost use Rattle.std.specs.Prelude.{◌≡◌, length, IfOk};

use crate::orch_base::{Memory, Moment};
use node_claims::{ClaimAnswer, Claims, ReleaseAnswer};
use std::alloc::Global;

// What a node asks for, or claims that begin with the kept one that the step names.
#[derive(Clone, Copy, Debug, PartialEq, Eq)]
enum Ask {
    Begin,
    Claim,
    Release,
    Act,
}

// What it is answered.
#[derive(Clone, Copy, Debug, PartialEq, Eq)]
enum Answer {
    Begun,
    Held(u64),
    Taken(u32, u64),
    Released,
    NotHeld,
    Acts(bool),
}

// What one of two nodes asks for at a moment, and what it is answered; the kept claim and the active node after it.
type Step = (Ask, u32, u64, Answer, Option<(u32, u64)>, Option<u32>);

// What a node asks for, or nothing if it is none of the two.
#[tactic(auto, using(node_claims::proofs::Owned::answered_long, node_claims::proofs::Owned::released_long, node_claims::proofs::Owned::acted_long))]
fn answer_to(claims: &mut Claims, ask: Ask, node: u32, now: u64) -> Option<Answer>
    requires { length claims.old.remembered ≡ 2 }
    ensures { length claims.new.remembered ≡ 2 }
{
    if node < 1 || 2 < node || 1_000_000 < now {
        return None;
    }
    Some(match ask {
        Ask::Begin => Answer::Begun,
        Ask::Claim => match claims.claim(node, Moment(now)) {
            ClaimAnswer::Held(until) => Answer::Held(until.0),
            ClaimAnswer::Taken { node, until } => Answer::Taken(node, until.0),
        },
        Ask::Release => match claims.release(node, Moment(now)) {
            ReleaseAnswer::Released => Answer::Released,
            ReleaseAnswer::NotHeld => Answer::NotHeld,
        },
        Ask::Act => Answer::Acts(claims.may_act(node, Moment(now))),
    })
}

// Two nodes over a kept claim.
fn begun(alloc: Global, kept: Option<(u32, u64)>) -> Result<Claims, Memory>
    ensures { IfOk result (λ c. length c.remembered ≡ 2) }
{
    Claims::make(alloc, 2, kept.map(|(node, until)| (node, Moment(until))))
}

// The first step that isn't answered so.
fn first_other(alloc: Global) -> Result<Option<usize>, Memory> {
    let mut claims = begun(alloc, None)?;
    for (n, step) in STEPS.iter().enumerate() {
        let (ask, node, now, want, kept, active) = *step;
        if ask == Ask::Begin {
            claims = begun(alloc, kept)?;
        }
        let got = answer_to(&mut claims, ask, node, now);
        let left = claims.kept().map(|(node, until)| (node, until.0));
        if (got, left, claims.active(Moment(now))) != (Some(want), kept, active) {
            return Ok(Some(n));
        }
    }
    Ok(None)
}

const ONE: Option<u32> = Some(1);

const TWO: Option<u32> = Some(2);

const STEPS: [Step; 26] = [
    (Ask::Begin, 1, 0, Answer::Begun, None, None),
    (Ask::Act, 1, 0, Answer::Acts(false), None, None),
    (Ask::Claim, 1, 0, Answer::Held(60), Some((1, 60)), ONE),
    (Ask::Claim, 1, 30, Answer::Held(90), Some((1, 90)), ONE),
    (Ask::Release, 1, 30, Answer::Released, None, None),
    (Ask::Claim, 2, 30, Answer::Held(90), Some((2, 90)), TWO),
    (Ask::Release, 1, 30, Answer::NotHeld, Some((2, 90)), TWO),
    (Ask::Act, 1, 30, Answer::Acts(false), Some((2, 90)), TWO),
    (Ask::Act, 2, 89, Answer::Acts(true), Some((2, 90)), TWO),
    // a claim passes on when it has run out
    (Ask::Begin, 1, 0, Answer::Begun, None, None),
    (Ask::Claim, 1, 0, Answer::Held(60), Some((1, 60)), ONE),
    (Ask::Act, 2, 0, Answer::Acts(false), Some((1, 60)), ONE),
    (Ask::Claim, 2, 0, Answer::Taken(1, 60), Some((1, 60)), ONE),
    (Ask::Claim, 2, 59, Answer::Taken(1, 60), Some((1, 60)), ONE),
    (Ask::Act, 1, 60, Answer::Acts(false), Some((1, 60)), None),
    (Ask::Claim, 2, 60, Answer::Held(120), Some((2, 120)), TWO),
    (Ask::Act, 2, 60, Answer::Acts(true), Some((2, 120)), TWO),
    (Ask::Act, 1, 60, Answer::Acts(false), Some((2, 120)), TWO),
    (Ask::Claim, 1, 120, Answer::Held(180), Some((1, 180)), ONE),
    (Ask::Claim, 1, 500, Answer::Held(560), Some((1, 560)), ONE),
    (Ask::Release, 1, 900, Answer::Released, None, None),
    // the kept claim of a node that isn't there
    (Ask::Begin, 1, 0, Answer::Begun, Some((9, 100)), None),
    (Ask::Act, 1, 7, Answer::Acts(false), Some((9, 100)), None),
    (
        Ask::Claim,
        1,
        99,
        Answer::Taken(9, 100),
        Some((9, 100)),
        None,
    ),
    (Ask::Release, 2, 99, Answer::NotHeld, Some((9, 100)), None),
    (Ask::Claim, 1, 100, Answer::Held(160), Some((1, 160)), ONE),
];

#[test]
fn one_node_is_active(rt: HostRuntime) {
    assert_eq!(rt; first_other(rt.alloc()), Ok(None));
}
