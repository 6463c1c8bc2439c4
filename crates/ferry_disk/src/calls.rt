//! The calls of a device in memory, and which of them fail.
ghost use Rattle.std.specs.Prelude.{◌≡◌, None, if◌then◌else◌};
ghost use Rattle.ferry_disk.specs.Device.{counted, first_failed};
ghost use Rattle.ferry_disk.specs.Calls.{fails};

/// How many calls a device has had, how many have failed, the number of the first that did, and the numbers, from 1, of those
/// that fail.
#[derive(Drop)]
pub(crate) struct Calls {
    pub failing: Vec<u64>,
    pub calls: u64,
    pub faults: u64,
    pub failed: Option<u64>,
}

impl Calls {
    pub fn new(failing: Vec<u64>) -> Calls
        ensures failing { result.failing.items ≡ failing.items }
        ensures none { (result.calls ≡ 0) × (result.faults ≡ 0) × (result.failed ≡ None) }
    {
        Calls {
            failing,
            calls: 0,
            faults: 0,
            failed: None,
        }
    }

    /// Counts one more call, which doesn't fail.
    pub fn count_one(&mut self)
        ensures counted { self.new.calls ≡ counted self.old.calls }
        ensures same { (self.new.faults ≡ self.old.faults) × (self.new.failed ≡ self.old.failed) × (self.new.failing.items ≡ self.old.failing.items) }
    {
        self.calls = self.calls.saturating_add(1);
    }

    /// Counts one more call, and answers whether it fails.
    pub fn next_fails(&mut self) -> bool
        ensures fails { result ≡ fails self.old.failing.items self.old.calls }
        ensures counted { self.new.calls ≡ counted self.old.calls }
        ensures faults { self.new.faults ≡ (if result then counted self.old.faults else self.old.faults) }
        ensures failed { self.new.failed ≡ (if result then first_failed self.old.failed (counted self.old.calls) else self.old.failed) }
        ensures failing { self.new.failing.items ≡ self.old.failing.items }
    {
        let number = self.calls.saturating_add(1);
        let fails = self.failing.iter().any(|failing| *failing == number);
        if fails {
            self.fail_one();
        } else {
            self.count_one();
        }
        fails
    }

    /// Counts one more call, which fails.
    pub fn fail_one(&mut self)
        ensures counted { self.new.calls ≡ counted self.old.calls }
        ensures faults { self.new.faults ≡ counted self.old.faults }
        ensures failed { self.new.failed ≡ first_failed self.old.failed (counted self.old.calls) }
        ensures failing { self.new.failing.items ≡ self.old.failing.items }
    {
        self.count_one();
        self.faults = self.faults.saturating_add(1);
        if self.failed.is_none() {
            self.failed = Some(self.calls);
        }
    }
}
