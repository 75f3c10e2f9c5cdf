//! The arithmetic of a budget.
ghost use Rattle.std.specs.Prelude.{◌≡◌, ◌-◌};
ghost use Rattle.pl_budget.specs.Accounts.{between, opened, taken, given_back};

/// What has been given out of a budget, in bytes.
#[derive(Clone, Copy, Debug, PartialEq, Eq)]
pub struct Account {
    /// The bytes that are held now.
    pub held: u64,
    /// The most bytes that were held at once.
    pub peak: u64,
    /// The most bytes that may be held.
    pub most: u64,
}

impl Account {
    /// An account of which nothing is held.
    pub fn new(most: u64) -> Account
        ensures { result ≡ opened most }
    {
        Account {
            held: 0,
            peak: 0,
            most,
        }
    }

    /// The account when so many bytes more are held; none where that is above the most.
    pub fn take(self, size: u64) -> Option<Account>
        ensures { result ≡ taken self size }
    {
        match self.held.checked_add(size) {
            Some(held) if held <= self.most => Some(Account {
                held,
                peak: self.peak.max(held),
                most: self.most,
            }),
            _ => None,
        }
    }

    /// The account when so many bytes fewer are held, or none if that is more than there are.
    pub fn give_back(self, size: u64) -> Account
        ensures { result ≡ given_back self size }
    {
        Account {
            held: self.held.saturating_sub(size),
            peak: self.peak,
            most: self.most,
        }
    }

    /// The bytes that may still be asked for.
    pub fn spare(self) -> u64
        ensures { result ≡ self.most - self.held }
    {
        self.most.saturating_sub(self.held)
    }
}

/// The bytes by which a block of so many items is larger than one of fewer, or as many as a `u64` can tell.
pub(crate) fn bytes_between(fewer: usize, more: usize, each: usize) -> u64
    ensures { result ≡ between fewer more each }
{
    let items = more.saturating_sub(fewer) as u64;
    items.saturating_mul(each as u64)
}
