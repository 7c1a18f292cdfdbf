//! Lines of text.

ghost use Rattle.std.specs.Prelude.{◌≡◌, [], ◌∷◌, ◌++◌, IfOk};
ghost use Rattle.ciel_look_shown.specs.Lines.{IsLines};
ghost use Rattle.ciel_look_shown.specs.Plain.{IsPlain};

use crate::plain::Plain;
use sky_base::text::Memory;
use std::alloc::Global;
use std::marker::Model;

/// Lines without control characters. Contracts see their bytes.
#[derive(Drop)]
pub struct Lines {
    held: Vec<u8>,
}

impl Model for Lines {
    ghost use Rattle.std.specs.Prelude.{List, ℕ};
    ghost use Rattle.ciel_look_shown.specs.Lines.{IsLines};

    ghost Value = { List ℕ };

    ghost view = { λ t. t.held.items };

    ghost invariant = { λ t. IsLines t.held.items };
}

impl Lines {
    /// No lines.
    pub fn new(alloc: Global) -> Lines
        ensures { result ≡ [] }
    {
        Lines {
            held: Vec::new(alloc),
        }
    }

    /// Puts a line at the end.
    pub fn put(&mut self, line: &Plain) -> Result<(), Memory>
        ensures put { IfOk result (λ _. self.new ≡ self.old ++ line.now ++ 10 ∷ []) }
        ensures plain { IsPlain line.now }
    {
        let Ok(()) = self.held.extend_from_slice(line.as_slice()) else {
            return Err(Memory);
        };
        match self.held.push(b'\n') {
            Ok(()) => Ok(()),
            Err(_) => Err(Memory),
        }
    }

    /// The bytes: no control character stands there but the ends of lines.
    pub fn as_slice(&self) -> &[u8]
        ensures value { result.now ≡ self.now }
        ensures lines { IsLines self.now }
    {
        self.held.as_slice()
    }
}
