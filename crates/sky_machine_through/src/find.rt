//! Where objects are found by the names of their descriptions.

ghost use Rattle.std.specs.Prelude.{◌≡◌, ℕ, List, MatchResult, Option, Some, IfErr, IfOk, IsSome, is_some};
ghost use Rattle.sky_base.specs.ObjectView.{object_view};
ghost use Rattle.sky_base.specs.Res as logic;
ghost use Rattle.sky_base.specs.Val.{Desc, known};

use sky_base::name::Name;
use sky_base::object::Object;
use sky_base::text::Memory;
use std::alloc::Global;

/// Objects by the names of their descriptions. What is there stays as it is while it is looked up.
pub trait Finds {
    /// Why an object that there is can't be handed out.
    type Refusal;

    /// The object of each description that there is.
    ghost finds: { Self → Desc (List ℕ) → Option (logic.Object (List ℕ)) };

    /// What holds of it before each call, and after one that doesn't answer `Memory`.
    ghost ready: { Self → Type 0 };

    /// What stays of it through each call, after `Memory` too.
    ghost Stays: { Type 0 };

    ghost stays: { Self → Stays };

    /// What it tells of the names that it was asked for, and what one name more makes of that. A refusal leaves it as it is.
    ghost Told: { Type 0 };

    ghost told: { Self → Told };

    ghost notes: { Told → List ℕ → Told };

    /// What a refusal tells.
    ghost refuses: { Self → Self.Refusal → Type 0 };

    /// Whether there is an object of the description of this name.
    fn has(&self, name: &Name) -> bool
        requires { ready self.now }
        ensures { result ≡ is_some (finds self.now (known name.now)) };

    /// The object of the description of this name, which there is.
    ///
    /// Answers `Memory` for want of memory.
    fn find(&mut self, alloc: Global, name: &Name) -> Result<Result<Object, Self::Refusal>, Memory>
        requires ready { ready self.old }
        requires there { IsSome (finds self.old (known name.now)) }
        ensures object { IfOk result (λ r. IfOk r (λ o. finds self.old (known name.now) ≡ Some (object_view o))) }
        ensures refusal { IfOk result (λ r. IfErr r (refuses self.new)) }
        ensures noted { IfOk result (λ r. MatchResult r (λ _. told self.new ≡ notes (told self.old) name.now)
            (λ _. told self.new ≡ told self.old)) }
        ensures ready { IfOk result (λ _. ready self.new) }
        ensures stays { stays self.new ≡ stays self.old }
        ensures same { finds self.new ≡ finds self.old };
}
