//! Permits for exchanges. A lookup has as many as the shape's `tries`, and each exchange spends one, so it makes no
//! more.
use std::marker::Model;

/// One exchange that a lookup may make. This file alone makes permits, and none is made twice.
#[derive(Drop)]
pub(crate) struct Permit {
    made: (),
}

/// The permits that a lookup has left. Contracts see how many.
#[derive(Drop)]
pub(crate) struct Permits {
    left: u32,
}

impl Model for Permits {
    ghost use Rattle.std.specs.Prelude.{ℕ};

    ghost Value = { ℕ };

    ghost view = { λ p. p.left };
}

impl Permits {
    ghost use Rattle.std.specs.Prelude.{◌≡◌, ◌+◌, ◌≤◌};

    /// So many permits.
    pub(crate) fn new(tries: u32) -> Permits
        ensures { result ≡ tries }
    {
        Permits { left: tries }
    }

    /// Takes one of them.
    pub(crate) fn take(&mut self) -> Permit
        requires { 1 ≤ self.old }
        ensures { self.new + 1 ≡ self.old }
    {
        self.left -= 1;
        Permit { made: () }
    }
}
