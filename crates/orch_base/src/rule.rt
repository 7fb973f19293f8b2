//! Rules of promotion.

ghost use Rattle.std.specs.Prelude.{◌≡◌};
ghost use Rattle.orch_base.specs.Words.{rule_text};

use crate::Same;

/// Whether a server should be promoted (orchestrator's documentation, "register-candidate"): the best first.
#[derive(Clone, Copy, Debug, PartialEq, Eq, PartialOrd, Ord)]
pub enum Rule {
    /// Before others.
    Prefer,
    /// As it is, without a registration.
    Neutral,
    /// After others.
    PreferNot,
    /// Never.
    MustNot,
}

impl Rule {
    /// Its word.
    pub fn word(self) -> &'static str
        ensures { result.now ≡ rule_text self }
    {
        match self {
            Rule::Prefer => "prefer",
            Rule::Neutral => "neutral",
            Rule::PreferNot => "prefer_not",
            Rule::MustNot => "must_not",
        }
    }
}

impl Same for Rule {
    fn is_same(&self, other: &Rule) -> bool {
        self == other
    }
}
