//! Leases as a list by the servers' numbers.

ghost use Rattle.std.specs.Prelude.{◌≡◌, ◌<◌, ℕ, All, List, Option, length};
ghost use Rattle.job_laws.specs.Prelude.{ServerNo as Number, given_back, taken};
ghost use Rattle.job_laws.specs.Flights.{leased_to, without_leases};
ghost use Rattle.job_laws.specs.Leases.{leases_of};

/// Leases that are taken and given back in the list are so as `Flight` has them.
pub fn leases_are_listed()
    ensures taken { (xs : List (Option ℕ)) (list : List Number) (id : ℕ) →
        All (λ k. k.0 < length xs) list →
        leases_of (taken xs list id) ≡ leased_to (leases_of xs) list id }
    ensures given_back { (xs : List (Option ℕ)) (id : ℕ) →
        leases_of (given_back xs id) ≡ without_leases (leases_of xs) id }
{}
