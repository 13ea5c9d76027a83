//! Calls that fail by a script.
ghost use Rattle.std.specs.Prelude.{◌≡◌, ◌↔◌, ◌+◌, ◌-◌, ◌^◌, ◌≤◌, Contains, IsTrue, if◌then◌else◌, min};
ghost use Rattle.std.specs.List.Sorted.{IsNonDecreasing, IsPermutation};
ghost use Rattle.xet_outside.specs.Told.{Rose};

/// The numbers of the calls of a fake that fail, how many were made, and how many failed.
#[derive(Drop)]
pub struct FaultScript {
    // the numbers of the calls that fail, in ascending order
    fails: Vec<u64>,
    // how many calls were made, at most `u64::MAX`
    calls: u64,
    // how many of them failed, at most `u64::MAX`
    faults: u64,
    ghost ascending: { IsNonDecreasing fails.items },
}

impl FaultScript {
    /// A script in which the calls with these numbers fail, counted from 0. It takes no memory.
    pub fn new(mut fails: Vec<u64>) -> FaultScript
        ensures fails { IsPermutation fails.items result.fails.items }
        ensures calls { result.calls ≡ 0 }
        ensures faults { result.faults ≡ 0 }
    {
        fails.sort_unstable();
        FaultScript {
            fails,
            calls: 0,
            faults: 0,
        }
    }

    /// Whether the call that is made now fails. It counts the call, and where it fails a fault.
    pub fn fails_now(&mut self) -> bool
        ensures is { IsTrue result ↔ Contains self.old.fails.items self.old.calls }
        ensures same { self.new.fails ≡ self.old.fails }
        ensures calls { self.new.calls ≡ min (self.old.calls + 1) (2 ^ 64 - 1) }
        ensures faults { self.new.faults
            ≡ (if result then min (self.old.faults + 1) (2 ^ 64 - 1) else self.old.faults) }
        ensures later { self.old.faults ≤ self.new.faults }
        ensures rose { IsTrue result → Rose self.old.faults self.new.faults }
    {
        let number = self.calls;
        self.calls = number.saturating_add(1);
        let fails = is_among(self.fails.as_slice(), number);
        if fails {
            self.faults = self.faults.saturating_add(1);
        }
        fails
    }
}

// Whether the number is among ascending ones.
fn is_among(numbers: &[u64], number: u64) -> bool
    requires { IsNonDecreasing numbers.now }
    ensures { IsTrue result ↔ Contains numbers.now number }
{
    numbers.binary_search(&number).is_ok()
}
