//! Sets of entries of FROM.

ghost use Rattle.std.specs.Prelude.{◌≡◌, ◌<◌, ◌+◌, ◌^◌, ◌==◌, ◌||◌, ℕ, false};
ghost use Rattle.stats.specs.View.{members};

/// A set of entries of FROM, of which the index is below 64.
#[derive(Clone, Copy, Debug, PartialEq, Eq)]
pub struct EntrySet {
    /// The bit at each index is set where the entry is a member.
    pub bits: u64,
}

impl EntrySet {
    /// No entry.
    pub fn none() -> EntrySet
        ensures bits { result.bits ≡ 0 }
        ensures members { (i : ℕ) → members result i ≡ false }
    {
        EntrySet { bits: 0 }
    }

    /// True for a member.
    pub fn contains(self, entry: usize) -> bool
        ensures { result ≡ members self entry }
    {
        let bits = self.bits;
        entry < 64 && bits >> entry & 1 == 1
    }

    /// The set with one entry more.
    pub fn with(self, entry: usize) -> EntrySet
        requires { entry < 64 }
        ensures members { (i : ℕ) → members result i ≡ ((entry == i) || members self i) }
        ensures bits { members self entry ≡ false → result.bits ≡ self.bits + 2 ^ entry }
    {
        EntrySet {
            bits: self.bits | 1 << entry,
        }
    }
}
