ghost use Rattle.std.specs.Prelude.{◌≡◌, ◌≤◌, ◌↔◌, IfOk, Contains, IsTrue, IsFalse};
ghost use Rattle.fault_io.specs.Faults.{one_more};

use host_ids::NoMemory;
use std::alloc::Global;

/// Which calls fail, how many calls there were, and how many of them failed.
///
/// Both counts stay at 2^64-1 once they reach it. Source: this project's own.
#[derive(Drop)]
pub(crate) struct Calls {
    made: u64,
    failing: Vec<u64>,
    failed: u64,
}

impl Calls {
    /// No call was made yet, and the listed ones will fail. The only error is `NoMemory`.
    pub(crate) fn new(alloc: Global, failing: &[u64]) -> Result<Calls, NoMemory>
        ensures made { IfOk result (λ calls. calls.made ≡ 0) }
        ensures failing { IfOk result (λ calls. calls.failing.items ≡ failing.now) }
        ensures failed { IfOk result (λ calls. calls.failed ≡ 0) }
    {
        let failing = Vec::from_slice(alloc, failing)?;
        Ok(Calls {
            made: 0,
            failing,
            failed: 0,
        })
    }

    /// Counts a call, and says whether it is to fail, which it then counts too. The list stays.
    pub(crate) fn next_fails(&mut self) -> bool
        ensures listed { IsTrue result ↔ Contains self.old.failing.items (one_more self.old.made) }
        ensures made { self.new.made ≡ one_more self.old.made }
        ensures failing { self.new.failing.items ≡ self.old.failing.items }
        ensures rose { IsTrue result → self.new.failed ≡ one_more self.old.failed }
        ensures kept { IsFalse result → self.new.failed ≡ self.old.failed }
        ensures later { self.old.failed ≤ self.new.failed }
    {
        self.made = self.made.saturating_add(1);
        let fails = self.failing.contains(&self.made);
        if fails {
            self.failed = self.failed.saturating_add(1);
        }
        fails
    }

    /// How many calls failed.
    pub(crate) fn failed(&self) -> u64
        ensures { result ≡ self.now.failed }
    {
        self.failed
    }
}
