//! The numbers by which tables tell their passes from those of others.
ghost use Rattle.std.specs.Prelude.{◌≡◌, ◌+◌, ◌≤◌, MatchOption};

/// The number that the next table gets. A program has one of these, and opens each of its tables with it, so that no
/// two tables have the same number. C begins with 0.
#[repr(C)]
pub struct Numbers {
    pub next: u64,
}

impl Numbers {
    /// A number that was not drawn before: each is one more than the last. None where all are drawn.
    pub fn draw(&mut self) -> Option<u64>
        ensures drawn { MatchOption result (self.new ≡ self.old)
            (λ number. (number ≡ self.old.next) × (self.new.next ≡ number + 1)) }
        ensures rises { self.old.next ≤ self.new.next }
    {
        let number = self.next;
        self.next = number.checked_add(1)?;
        Some(number)
    }
}
