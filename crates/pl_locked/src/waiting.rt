//! For which call a caller waits.
ghost use Rattle.std.specs.Prelude.{◌≡◌};
ghost use Rattle.pl_locked.specs.Waking.{waits, awake, is_awake_for, sleeps_for, is_together, is_together_for, call_together};

/// For which call a caller waits, by the call's number, and whether it looks itself when the call can end.
#[derive(Drop, Clone, Copy, Debug, PartialEq, Eq)]
pub(crate) enum Waiting {
    /// It waits for none.
    Nothing,
    /// It is awake, or was woken, and looks once more before it sleeps.
    Awake(u64),
    /// It sleeps until it is woken.
    Asleep(u64),
    /// It sleeps until it is woken, and its call is a read of the same description as those of the others that sleep so.
    Together(u64),
}

/// What a caller finds that looks whether its call can end.
#[derive(Drop, Clone, Copy, Debug, PartialEq, Eq)]
pub(crate) enum Looked {
    /// The call can end.
    Ends,
    /// The caller waits on. As that is noted, this one is woken.
    Waits(Option<usize>),
}

impl Waiting {
    /// Whether it waits for a call.
    pub(crate) fn waits(&self) -> bool
        ensures { result ≡ waits self.now }
    {
        match self {
            Waiting::Nothing => false,
            Waiting::Awake(_) => true,
            Waiting::Asleep(_) => true,
            Waiting::Together(_) => true,
        }
    }

    /// What it is once the caller was woken.
    pub(crate) fn awake(&self) -> Waiting
        ensures { result ≡ awake self.now }
    {
        match self {
            Waiting::Nothing => Waiting::Nothing,
            Waiting::Awake(call) => Waiting::Awake(*call),
            Waiting::Asleep(call) => Waiting::Awake(*call),
            Waiting::Together(call) => Waiting::Awake(*call),
        }
    }

    /// Whether it is awake for the call of a number.
    pub(crate) fn is_awake_for(&self, number: u64) -> bool
        ensures { result ≡ is_awake_for number self.now }
    {
        match self {
            Waiting::Awake(call) => number == *call,
            _ => false,
        }
    }

    /// Whether it sleeps until the call of a number can end.
    pub(crate) fn sleeps_for(&self, number: u64) -> bool
        ensures { result ≡ sleeps_for number self.now }
    {
        match self {
            Waiting::Asleep(call) => number == *call,
            Waiting::Together(call) => number == *call,
            _ => false,
        }
    }

    /// Whether it sleeps together with others.
    pub(crate) fn is_together(&self) -> bool
        ensures { result ≡ is_together self.now }
    {
        match self {
            Waiting::Together(_) => true,
            _ => false,
        }
    }

    /// The call for which it does so.
    pub(crate) fn call_together(&self) -> Option<u64>
        ensures { result ≡ call_together self.now }
    {
        match self {
            Waiting::Together(call) => Some(*call),
            _ => None,
        }
    }

    /// Whether it does so for the call of a number.
    pub(crate) fn is_together_for(&self, number: u64) -> bool
        ensures { result ≡ is_together_for number self.now }
    {
        match self {
            Waiting::Together(call) => number == *call,
            _ => false,
        }
    }
}
