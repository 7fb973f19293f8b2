//! Intervals of GTIDs of one server.

ghost use Rattle.std.specs.Prelude.{max, ◌≡◌, ◌+◌, ◌^◌, ◌<◌, ◌≤◌, ◌&&◌, ◌||◌, ℕ, nat_lt, nat_le};
ghost use Rattle.gtid_sets.specs.Adding.{touches, merged};
ghost use Rattle.gtid_sets.specs.Sets.{point, low, high, between, IsInterval};

/// The largest number of a GTID.
pub const LARGEST: u64 = 9_223_372_036_854_775_806;

/// The GTIDs of one server from number `first` to number `last`.
#[derive(Clone, Copy, Debug, PartialEq, Eq)]
pub struct Interval {
    /// The server's UUID, with the high byte first.
    pub uuid: u128,
    /// From 1 to `last`.
    pub first: u64,
    /// To `LARGEST`.
    pub last: u64,
}

/// One GTID.
#[derive(Clone, Copy)]
pub struct Gtid {
    pub uuid: u128,
    pub n: u64,
}

impl Gtid {
    /// Whether it is before the other: by the UUID, then by the number.
    #[tactic(auto, using(crate::proofs::Line::point_lt))]
    pub fn is_before(self, other: Gtid) -> bool
        ensures { result ≡ nat_lt (point self.uuid self.n) (point other.uuid other.n) }
    {
        self.uuid < other.uuid || (self.uuid == other.uuid && self.n < other.n)
    }

    /// The one that is after the other.
    pub fn later(self, other: Gtid) -> Gtid
        ensures { point result.uuid result.n
            ≡ max (point self.uuid self.n) (point other.uuid other.n) }
    {
        if self.is_before(other) { other } else { self }
    }
}

impl Interval {
    /// The first GTID.
    pub fn start(&self) -> Gtid
        ensures uuid { result.uuid ≡ self.now.uuid }
        ensures n { result.n ≡ self.now.first }
    {
        Gtid {
            uuid: self.uuid,
            n: self.first,
        }
    }

    /// The last GTID.
    pub fn end(&self) -> Gtid
        ensures uuid { result.uuid ≡ self.now.uuid }
        ensures n { result.n ≡ self.now.last }
    {
        Gtid {
            uuid: self.uuid,
            n: self.last,
        }
    }

    /// The first GTID, or the given one if that is later.
    pub fn start_from(&self, front: Gtid) -> Gtid
        ensures { point result.uuid result.n ≡ max (point front.uuid front.n) (low self.now) }
    {
        front.later(self.start())
    }

    /// Whether the last GTID is before this one.
    pub fn ends_before(&self, gtid: Gtid) -> bool
        ensures { result ≡ nat_lt (high self.now) (point gtid.uuid gtid.n) }
    {
        self.end().is_before(gtid)
    }

    /// The GTID after the last one.
    pub fn behind(&self) -> Gtid
        requires { IsInterval self.now }
        ensures uuid { result.uuid ≡ self.now.uuid }
        ensures n { result.n ≡ self.now.last + 1 }
    {
        Gtid {
            uuid: self.uuid,
            n: self.last + 1,
        }
    }

    /// Whether the next interval begins in this one or just after it, or before it.
    #[tactic(auto, using(crate::proofs::Line::point_behind))]
    pub fn reaches(&self, next: &Interval) -> bool
        requires this { IsInterval self.now }
        requires next { IsInterval next.now }
        ensures { result ≡ nat_le (low next.now) (high self.now + 1) }
    {
        !self.behind().is_before(next.start())
    }

    /// Whether the two overlap, or one begins just after the other.
    pub fn touches(&self, other: &Interval) -> bool
        requires this { IsInterval self.now }
        requires other { IsInterval other.now }
        ensures { result ≡ touches self.now other.now }
    {
        self.uuid == other.uuid && (other.first <= self.last + 1 && self.first <= other.last + 1)
    }

    /// Both as one, if they touch.
    pub fn merged(&self, other: &Interval) -> Interval
        ensures { result ≡ merged self.now other.now }
    {
        Interval {
            uuid: self.uuid,
            first: self.first.min(other.first),
            last: self.last.max(other.last),
        }
    }

    /// Both as one.
    pub fn joined(&self, next: &Interval) -> Interval
        requires this { IsInterval self.now }
        requires next { IsInterval next.now }
        requires order { low self.now ≤ low next.now }
        requires reaches { low next.now ≤ high self.now + 1 }
        ensures is { IsInterval result }
        ensures low { low result ≡ low self.now }
        ensures has { (x : ℕ) → between x result ≡ (between x self.now || between x next.now) }
    {
        Interval {
            uuid: self.uuid,
            first: self.first,
            last: self.last.max(next.last),
        }
    }
}
