ghost use Rattle.std.specs.Prelude.{◌≡◌, ◌+◌, ◌-◌, ◌^◌, ◌≤◌, ◌||◌, min, [], true, false, Some, None, nat_eq, OnOk, OnErr, IsTrue, IsFalse, ◌++◌, ◌∷◌};
ghost use Rattle.std.specs.List.{list_any};
ghost use Rattle.disk_model.specs.Plan.{one_more, is_past};

use std::alloc::{AllocError, Global};

/// How many calls a disk had, which fail, and how many have failed.
///
/// Both counts stay at 2^64-1 once they reach it.
#[derive(Drop)]
pub(crate) struct Calls {
    made: u64,
    failing: Vec<u64>,
    last: Option<u64>,
    failed: u64,
}

/// A call is among the listed ones.
fn has_call(failing: &[u64], call: u64) -> bool
    ensures { result ≡ list_any (nat_eq call) failing.now }
{
    failing.iter().any(|listed| call == *listed)
}

/// A call comes after the last one that is let through.
fn passes(call: u64, last: Option<u64>) -> bool
    ensures { result ≡ is_past call last }
{
    match last {
        Some(last) => call > last,
        None => false,
    }
}

impl Calls {
    /// No call was made yet, and none fails.
    pub(crate) fn new(alloc: Global) -> Calls
        ensures made { result.made ≡ 0 }
        ensures failing { result.failing.items ≡ [] }
        ensures last { result.last ≡ None }
        ensures failed { result.failed ≡ 0 }
    {
        Calls {
            made: 0,
            failing: Vec::new(alloc),
            last: None,
            failed: 0,
        }
    }

    /// Counts a call, and says whether it fails, which it counts too.
    pub(crate) fn next_fails(&mut self) -> bool
        ensures fails { result ≡ (list_any (nat_eq (one_more self.old.made)) self.old.failing.items || is_past (one_more self.old.made) self.old.last) }
        ensures made { self.new.made ≡ one_more self.old.made }
        ensures failing { self.new.failing.items ≡ self.old.failing.items }
        ensures last { self.new.last ≡ self.old.last }
        ensures rose { result ≡ true → self.new.failed ≡ one_more self.old.failed }
        ensures kept { result ≡ false → self.new.failed ≡ self.old.failed }
        ensures later { self.old.failed ≤ self.new.failed }
    {
        self.made = self.made.saturating_add(1);
        let fails = has_call(self.failing.as_slice(), self.made) || passes(self.made, self.last);
        if fails {
            self.failed = self.failed.saturating_add(1);
        }
        fails
    }

    /// Lists a call that fails, counted from 1. An error changes nothing.
    pub(crate) fn list(&mut self, call: u64) -> Result<(), AllocError>
        ensures made { self.new.made ≡ self.old.made }
        ensures failing { OnOk result (self.new.failing.items ≡ self.old.failing.items ++ call ∷ []) }
        ensures err { OnErr result (self.new.failing.items ≡ self.old.failing.items) }
        ensures last { self.new.last ≡ self.old.last }
        ensures failed { self.new.failed ≡ self.old.failed }
    {
        self.failing.push(call)?;
        Ok(())
    }

    /// Lets `calls` further calls through; those after them fail.
    pub(crate) fn arm(&mut self, calls: u64)
        ensures made { self.new.made ≡ self.old.made }
        ensures failing { self.new.failing.items ≡ self.old.failing.items }
        ensures last { self.new.last ≡ Some (min (self.old.made + calls) (2 ^ 64 - 1)) }
        ensures failed { self.new.failed ≡ self.old.failed }
    {
        self.last = Some(self.made.saturating_add(calls));
    }

    /// Ends what `arm` did.
    pub(crate) fn disarm(&mut self)
        ensures made { self.new.made ≡ self.old.made }
        ensures failing { self.new.failing.items ≡ self.old.failing.items }
        ensures last { self.new.last ≡ None }
        ensures failed { self.new.failed ≡ self.old.failed }
    {
        self.last = None;
    }

    /// How many calls have failed.
    pub(crate) fn failed(&self) -> u64
        ensures { result ≡ self.now.failed }
    {
        self.failed
    }
}
