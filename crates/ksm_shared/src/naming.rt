//! Which parts a lock, a share or an answer is of.
use std::marker::Brand;

/// Stands for one set of parts. A program picks it where it hands its parts to a function over `N`; what is known of a
/// locked value is known by its type alone, so every type that has to agree on the parts has this parameter.
pub trait Naming {
    ghost use Rattle.ksm_shared.specs.Named.{PartsId};

    ghost parts: { PartsId };
}

impl Naming for Brand {
    ghost use Rattle.ksm_shared.specs.Named.{no_parts};

    ghost parts = { no_parts };
}
