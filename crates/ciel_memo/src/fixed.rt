//! Kits whose meaning their type gives.

use line_flow::kit::FlowKit;
use line_kit::kit::LineKit;
use sky_base::kit::Kit;

/// A kit of which all values give the same, so that what it gives is known by its type alone.
pub trait FixedKit: Kit {
    ghost use Rattle.std.specs.Prelude.{◌≡◌};

    /// All values give the same.
    ghost fixed: { (a b : Self) → Self.gives a ≡ Self.gives b };
}

impl FixedKit for LineKit {
    ghost use Rattle.std.specs.Prelude.{refl};

    ghost fixed = { λ _ _. refl };
}

impl FixedKit for FlowKit {
    ghost use Rattle.std.specs.Prelude.{refl};

    ghost fixed = { λ _ _. refl };
}
