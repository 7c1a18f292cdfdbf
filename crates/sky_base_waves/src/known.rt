// What is known of descriptions. The interpreter knows objects by the numbers of their descriptions, a worker those that an order
// brings along, by names: a wave of the result and the inputs of an executor are made from either.

ghost use Rattle.std.specs.Prelude.{◌≡◌, Option, None, Some, IfSome, MatchOption};
ghost use Rattle.sky_base.specs.Val.{known};
ghost use Rattle.sky_base.specs.ObjectView.{object_view};
ghost use Rattle.sky_base_known.specs.Known.{KeptObject};
ghost use Rattle.sky_base_known.specs.Walk.{Obj, Row, known_of};

use sky_base::name::Name;
use sky_base::object::Object;
use sky_base_known::objects::Objects;

/// Objects by the names of their descriptions, each within the limits.
pub trait Known {
    /// The object of each description that is known.
    ghost knows: { Self → Row → Option Obj };

    /// The object of the description of this name, if it is known.
    fn object(&self, name: &Name) -> Option<&Object>
        ensures value { MatchOption result (knows self.now (known name.now) ≡ None)
            (λ o. knows self.now (known name.now) ≡ Some (object_view o.now)) }
        ensures kept { IfSome result (λ o. KeptObject (object_view o.now)) };
}

impl Known for Objects {
    ghost knows = { known_of };

    fn object(&self, name: &Name) -> Option<&Object> {
        self.known(name)
    }
}
