//! A budget of unwritten bytes, whose limit comes with each try.
ghost use Rattle.std.specs.Prelude.{◌≡◌, ◌-◌, ◌≤◌};
ghost use Rattle.xet_run_rules.specs.Budgets.{AdmitCall};

/// So many bytes of a budget, which it gave.
#[derive(Drop)]
pub struct Admission {
    /// How many bytes.
    pub length: u64,
}

/// The bytes that were admitted and not released.
///
/// In place of the semaphore of `xet-data`.
#[derive(Drop)]
pub struct Budget {
    unwritten: u64,
}

impl Budget {
    /// A budget of which nothing is used.
    pub fn new() -> Budget
        ensures { result ≡ record { unwritten = 0 } }
    {
        Budget { unwritten: 0 }
    }

    /// Admits so many bytes. None exactly where bytes are unwritten and with these they would pass the limit.
    pub fn admit(&mut self, length: u64, limit: u64) -> Option<Admission>
        ensures { AdmitCall self.old self.new length limit result }
    {
        if self.unwritten == 0 {
            self.unwritten = length;
            return Some(Admission { length });
        }
        match self.unwritten.checked_add(length) {
            Some(total) if total <= limit => {
                self.unwritten = total;
                Some(Admission { length })
            }
            _ => None,
        }
    }

    /// Gives back an admission of this budget.
    pub fn release(&mut self, admission: Admission)
        requires { admission.length ≤ self.old.unwritten }
        ensures { self.new ≡ record self.old { unwritten = self.old.unwritten - admission.length } }
    {
        self.unwritten -= admission.length;
    }
}
