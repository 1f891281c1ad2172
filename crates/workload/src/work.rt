ghost use Rattle.std.specs.Prelude.{◌≡◌};
ghost use Rattle.rv_word.specs.Validity.{FitsSignedBits};
ghost use Rattle.workload.specs.Listing.{words_of};

/// The kinds of workloads. In each, harts run rounds that take locks, and hart 0 tells a sum at the end. There are n
/// harts.
#[derive(Clone, Copy, Debug, PartialEq, Eq)]
pub enum Work {
    /// Each hart adds 1 to one word under one lock, 100 times. The sum is 100 n.
    Counter,
    /// Each hart moves 1 from a drawn account to a drawn account under one lock, 200 times. There are 64 accounts, each
    /// with 1,000 at the start. The sum is 64,000.
    Bank,
    /// Each hart adds 1 to a drawn one of 16 buckets under the bucket's lock, 200 times. The sum is 200 n.
    Buckets,
    /// Each hart takes two locks, in the same order, and adds 1 to two words, 100 times. The sum is 200 n.
    Locks,
    /// Each hart adds 1 to each of 20 words under one lock, 20 times. The sum is 400 n.
    Overflow,
    /// As `Counter`, but the lock is taken by LR.W and SC.W. The sum is 100 n.
    Pairs,
}

impl Work {
    /// How many words are added up at the end.
    pub(crate) fn words(self) -> i32
        ensures exact { result ≡ words_of self }
        ensures fits { FitsSignedBits 12 result }
    {
        match self {
            Work::Counter | Work::Pairs => 1,
            Work::Bank => 64,
            Work::Buckets => 16,
            Work::Locks => 2,
            Work::Overflow => 20,
        }
    }
}
