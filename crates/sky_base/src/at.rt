// Where something lies.

ghost use Rattle.std.specs.Prelude.{◌≡◌, ℕ};

/// Something that lies at a worker, as a place of an object.
pub trait At {
    /// The number of the worker.
    ghost at: { Self → ℕ };

    /// The number of the worker. It takes no memory.
    fn worker(&self) -> u32
        ensures { result ≡ at self.now };
}
