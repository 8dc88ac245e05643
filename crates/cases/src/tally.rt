// The count of the cases.
ghost use Rattle.std.specs.Prelude.{◌≡◌};
ghost use Rattle.cases.specs.Tallies.{noted};

#[derive(Clone, Copy)]
pub struct Tally {
    pub passed: u64,
    pub failed: u64,
}

impl Tally {
    // Prints the case's line and counts the case. No run has so many cases that a count wraps.
    pub fn note(self, rt: &impl Print, title: &[u8], passed: bool) -> Tally
        ensures { result ≡ noted self passed }
    {
        let head: &[u8] = if passed { b"ok " } else { b"FAILED " };
        let _ = rt.write_all(head);
        let _ = rt.write_all(title);
        if passed {
            Tally {
                passed: self.passed.wrapping_add(1),
                failed: self.failed,
            }
        } else {
            Tally {
                passed: self.passed,
                failed: self.failed.wrapping_add(1),
            }
        }
    }

    // Prints the line of both counts.
    pub fn print(self, rt: &impl Print) {
        let passed = self.passed;
        let failed = self.failed;
        let _ = println!(rt; "{passed} passed, {failed} failed");
    }
}
