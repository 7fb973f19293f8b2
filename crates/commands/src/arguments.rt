//! What the commands are given.

ghost use Rattle.std.specs.Prelude.{◌≡◌};
ghost use Rattle.commands.specs.Table.{is_any, needed, used};

/// The keys that must be there. Any other may be.
#[derive(Clone, Copy, Debug, PartialEq, Eq)]
pub struct Needs {
    /// The instance.
    pub i: bool,
    /// The destination.
    pub d: bool,
    /// The rule of promotion.
    pub rule: bool,
    /// The pattern.
    pub pattern: bool,
}

/// The keys that make a difference if they are there.
#[derive(Clone, Copy, Debug, PartialEq, Eq)]
pub struct Uses {
    /// The instance.
    pub i: bool,
    /// The destination.
    pub d: bool,
    /// The rule of promotion.
    pub rule: bool,
    /// How long a downtime lasts.
    pub duration: bool,
    /// Why a downtime begins.
    pub reason: bool,
    /// Whose downtime it is.
    pub owner: bool,
    /// The pattern.
    pub pattern: bool,
}

/// What a command is given.
#[derive(Clone, Copy, Debug, PartialEq, Eq)]
pub enum Arguments {
    /// Nothing.
    Nothing,
    /// An instance.
    Instance,
    /// A server, an instance or not.
    AnyServer,
    /// An instance and a destination.
    Destination,
    /// An instance, and optionally a destination.
    OptionalDestination,
    /// An instance and a rule of promotion.
    Rule,
    /// An instance, and optionally how long its downtime lasts, why it begins and whose it is.
    Downtime,
    /// A pattern.
    Pattern,
}

const NOTHING: Needs = Needs {
    i: false,
    d: false,
    rule: false,
    pattern: false,
};

const UNUSED: Uses = Uses {
    i: false,
    d: false,
    rule: false,
    duration: false,
    reason: false,
    owner: false,
    pattern: false,
};

impl Arguments {
    /// The keys that must be there.
    pub fn needs(self) -> Needs
        ensures { result ≡ needed self }
    {
        match self {
            Arguments::Nothing => NOTHING,
            Arguments::Instance
            | Arguments::AnyServer
            | Arguments::OptionalDestination
            | Arguments::Downtime => Needs { i: true, ..NOTHING },
            Arguments::Destination => Needs {
                i: true,
                d: true,
                ..NOTHING
            },
            Arguments::Rule => Needs {
                i: true,
                rule: true,
                ..NOTHING
            },
            Arguments::Pattern => Needs {
                pattern: true,
                ..NOTHING
            },
        }
    }

    /// The keys that make a difference if they are there.
    pub fn uses(self) -> Uses
        ensures { result ≡ used self }
    {
        match self {
            Arguments::Nothing => UNUSED,
            Arguments::Instance | Arguments::AnyServer => Uses { i: true, ..UNUSED },
            Arguments::Destination | Arguments::OptionalDestination => Uses {
                i: true,
                d: true,
                ..UNUSED
            },
            Arguments::Rule => Uses {
                i: true,
                rule: true,
                ..UNUSED
            },
            Arguments::Downtime => Uses {
                i: true,
                duration: true,
                reason: true,
                owner: true,
                ..UNUSED
            },
            Arguments::Pattern => Uses {
                pattern: true,
                ..UNUSED
            },
        }
    }

    /// Whether the server may be one that is no instance yet.
    pub fn is_any(self) -> bool
        ensures { result ≡ is_any self }
    {
        match self {
            Arguments::AnyServer => true,
            Arguments::Nothing
            | Arguments::Instance
            | Arguments::Destination
            | Arguments::OptionalDestination
            | Arguments::Rule
            | Arguments::Downtime
            | Arguments::Pattern => false,
        }
    }
}
