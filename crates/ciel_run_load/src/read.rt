//! A file is read whole, up to its limit.

ghost use Rattle.std.specs.Prelude.{◌≤◌, ◌<◌, ◌-◌, ◌^◌, ◌≡◌, ◌∷◌, [], IfOk, IfErr, IfSome, length};
ghost use Rattle.ciel_io.specs.Faults.{HasRisen};
ghost use Rattle.ciel_run_load.specs.Reading.{UnreadSo, AsksEach};

use ciel_io::files::{FileRefusal, Files};
use sky_base::text::{Bytes, Txt};
use std::alloc::Global;

/// Why a file wasn't read.
#[derive(Drop)]
pub enum Unread {
    /// The read of the file at this path failed.
    Failed { path: Txt },
    /// The file at this path has more bytes than the limit.
    TooLong { path: Txt, limit: u64 },
    /// Want of memory.
    Memory,
}

/// The bytes of the file at a path, at most so many.
pub fn read<F: Files>(alloc: Global, path: Txt, limit: u64, files: &mut F) -> Result<Bytes, Unread>
    requires { limit < 2 ^ 64 - 1 }
    ensures found { IfOk result (λ b. IfSome (F.content files.old path) (λ file. b ≡ file)) }
    ensures within { IfOk result (λ b. length b ≤ limit) }
    ensures unread { IfErr result (UnreadSo (F.content files.old) path limit (HasRisen (F.faults files.old) (F.faults files.new))) }
    ensures asks { AsksEach result (path ∷ []) (F.asked files.old) (F.asked files.new) }
    ensures never_falls { F.faults files.old ≤ F.faults files.new }
    ensures kept { F.content files.new ≡ F.content files.old }
{
    match files.read(alloc, &path, limit) {
        Ok(bytes) => Ok(bytes),
        Err(FileRefusal::Failed) => Err(Unread::Failed { path }),
        Err(FileRefusal::TooLong { limit }) => Err(Unread::TooLong { path, limit }),
        Err(FileRefusal::Memory) => Err(Unread::Memory),
    }
}
