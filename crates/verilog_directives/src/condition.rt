ghost use Rattle.std.specs.Prelude.{◌≡◌};
ghost use Rattle.verilog_directives.specs.Conditions as spec;

/// A branch of a condition.
#[derive(Clone, Copy, Debug, PartialEq, Eq)]
pub(crate) enum Branch {
    /// No branch was taken yet.
    Waiting,
    /// This branch is taken.
    Taken,
    /// A branch before it was taken.
    Passed,
}

impl Branch {
    pub(crate) fn is_taken(self) -> bool
        ensures { result ≡ spec.is_taken self }
    {
        match self {
            Branch::Taken => true,
            Branch::Waiting | Branch::Passed => false,
        }
    }

    fn first(holds: bool) -> Branch
        ensures { result ≡ spec.first_branch holds }
    {
        if holds {
            Branch::Taken
        } else {
            Branch::Waiting
        }
    }

    fn next(self, holds: bool) -> Branch
        ensures { result ≡ spec.next_branch holds self }
    {
        match self {
            Branch::Waiting => Branch::first(holds),
            Branch::Taken | Branch::Passed => Branch::Passed,
        }
    }
}

/// An open condition: its present branch, and whether that is the one of its `else`.
#[derive(Clone, Copy, Debug, PartialEq, Eq)]
pub(crate) struct Condition {
    pub branch: Branch,
    pub is_else: bool,
}

impl Condition {
    pub(crate) fn opened(holds: bool) -> Condition
        ensures { result ≡ spec.opened holds }
    {
        Condition {
            branch: Branch::first(holds),
            is_else: false,
        }
    }

    pub(crate) fn at_elsif(self, holds: bool) -> Condition
        ensures { result ≡ spec.at_elsif holds self }
    {
        Condition {
            branch: self.branch.next(holds),
            is_else: false,
        }
    }

    pub(crate) fn at_else(self) -> Condition
        ensures { result ≡ spec.at_else self }
    {
        Condition {
            branch: self.branch.next(true),
            is_else: true,
        }
    }
}
