//! The gate: what stands before each lookup of an audit, and is told after it.
ghost use Rattle.std.specs.Prelude.{◌≡◌, ℕ, IsNone, IfSome};

/// What stands before each lookup of an audit, and is told after it. Workers, which are numbered from 0, ask it from
/// their own threads.
///
/// An audit can neither make a permit nor copy it, keep it or let it go: so each place that is looked up was asked for
/// before, and each permit is spent by `after`.
pub trait Gate {
    /// Leave to look one place up.
    type Permit;

    /// The places that it may refuse.
    ghost may_refuse: { Self → ℕ → Type 0 };

    /// The place that a permit is for.
    ghost place_of: { Self.Permit → ℕ };

    /// A permit for this worker to look this place up. A refusal ends the audit.
    fn before(&self, worker: u32, place: u32) -> Option<Self::Permit>
        ensures refused { IsNone result → may_refuse self.now place }
        ensures place { IfSome result (λ permit. place_of permit ≡ place) };

    /// The worker has looked the place up by this permit, and holds nothing.
    fn after(&self, worker: u32, place: u32, permit: Self::Permit)
        requires { place_of permit ≡ place };
}

/// A permit that has the place alone.
pub struct PlacePermit {
    pub place: u32,
}

/// The gate that refuses no place.
#[derive(Clone, Copy, Drop)]
pub struct OpenGate;

impl Gate for OpenGate {
    type Permit = PlacePermit;

    ghost use Rattle.std.specs.Prelude.{ℕ};

    ghost may_refuse = { λ _ _. ⊥ };

    ghost place_of = { λ permit. permit.place };

    fn before(&self, _worker: u32, place: u32) -> Option<PlacePermit> {
        Some(PlacePermit { place })
    }

    fn after(&self, _worker: u32, _place: u32, permit: PlacePermit) {
        let PlacePermit { place: _ } = permit;
    }
}
