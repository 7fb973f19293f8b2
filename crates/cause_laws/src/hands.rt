//! What jobs have in their hands.

ghost use Rattle.std.specs.Prelude.{◌≡◌, ◌==◌, ℕ, [], List, map, AllPairs, false, true};
ghost use Rattle.cause_laws.specs.Prelude.{Cause as Why, HasLeases, IsLeased, Job, Leases, Line as ALine, Request};
ghost use Rattle.cause_laws.specs.Prelude.asking;
ghost use Rattle.cause_laws.specs.Prelude.step;
ghost use Rattle.cause_laws.specs.Courses.{AllGoing, Meeting, exchanges_in, job_after, turn_at};
ghost use Rattle.cause_laws.specs.Hands.{IsLeftStopped, is_in_hands};

/// Over a job's turns a server is in its hands exactly if one of them stopped it and none has started it after that.
/// Each is there once. A job that fails starts each of them, and does nothing else. What is in its hands is leased to
/// it.
pub fn hands_are_what_is_left_stopped()
    ensures left { (j : Job) (ms : List Meeting) (n : ℕ) → j.hands ≡ [] → AllGoing j ms →
        is_in_hands (job_after j ms) n ≡ true → IsLeftStopped n (exchanges_in j ms) }
    ensures held { (j : Job) (ms : List Meeting) (n : ℕ) → j.hands ≡ [] → AllGoing j ms →
        IsLeftStopped n (exchanges_in j ms) → is_in_hands (job_after j ms) n ≡ true }
    ensures once { (j : Job) (ms : List Meeting) → j.hands ≡ [] → AllGoing j ms →
        AllPairs (λ a b. (a.0 == b.0) ≡ false) (job_after j ms).hands }
    ensures started { (j : Job) (m : Meeting) (c : Why) (lines : List ALine) →
        (turn_at j m).step ≡ step.Failed c lines →
        (turn_at j m).exchanges ≡ map (λ k. Request k.0 asking.Start) j.hands }
    ensures leased { (l : Leases) (j : Job) (ms : List Meeting) (n : ℕ) → HasLeases l j →
        j.hands ≡ [] → AllGoing j ms → IsLeftStopped n (exchanges_in j ms) → IsLeased l j.id n }
{}
