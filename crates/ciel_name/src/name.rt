// Names and marks: digests of bytes. What names descriptions is handed in, so that one engine runs with names of 20
// bytes, of 32, or in a test with names that clash.

ghost use Rattle.std.specs.Prelude.{◌≡◌, ℕ, List, IfOk};
ghost use Rattle.sha1.specs.Sha1.{sha1};
ghost use Rattle.sha2.specs.Sha256.{sha256};
ghost use Rattle.sky_base.specs.Name.{digested};
ghost use Rattle.sky_base.specs.ObjectView.{desc_view};
ghost use Rattle.ciel_name.specs.Names.{first_output, weak};

use crate::object::{put_desc, put_output};
use crate::writer::Writer;
use sha1::Sha1;
use sha2::{Digest, Sha256};
use sky_base::name::Name;
use sky_base::object::{Desc1, TaskId};
use sky_base::text::Memory;
use std::alloc::Global;

/// The mark of an object or of a saved stack: the SHA-1 of its bytes. It takes no memory.
pub fn mark(bytes: &[u8]) -> [u8; 20]
    ensures mark { result ≡ sha1 bytes.now }
{
    Sha1::digest(bytes)
}

/// What names descriptions, by a digest of their canonical bytes.
pub trait Namer {
    /// The bytes of the name that is given for the bytes.
    ghost digest: { Self → List ℕ → List ℕ };

    /// The name. It takes no memory.
    fn name(&self, bytes: &[u8]) -> Name
        ensures name { result ≡ digest self.now bytes.now };
}

/// Names of 20 bytes, by SHA-1.
#[derive(Clone, Copy, Debug, Drop)]
pub struct Sha1Namer;

impl Namer for Sha1Namer {
    ghost digest = { λ _ bytes. sha1 bytes };

    fn name(&self, bytes: &[u8]) -> Name {
        Name::short(Sha1::digest(bytes))
    }
}

/// Names of 32 bytes, by SHA-256.
#[derive(Clone, Copy, Debug, Drop)]
pub struct Sha256Namer;

impl Namer for Sha256Namer {
    ghost digest = { λ _ bytes. sha256 bytes };

    fn name(&self, bytes: &[u8]) -> Name {
        Name::long(Sha256::digest(bytes))
    }
}

/// Names of 20 bytes that clash, for tests: the first so many bytes of SHA-1, at most 20, and then zeros.
#[derive(Clone, Copy, Debug, Drop)]
pub struct WeakNamer(pub u8);

impl Namer for WeakNamer {
    ghost digest = { λ namer bytes. weak namer.0 bytes };

    fn name(&self, bytes: &[u8]) -> Name {
        let digest = Sha1::digest(bytes);
        let kept = usize::from(self.0).min(20);
        let mut name = [0u8; 20];
        name[..kept].copy_from_slice(&digest[..kept]);
        Name::short(name)
    }
}

/// The task that makes what a description stands for: that of the call, or of the executor's first output. For an
/// input it is the name of the input, a task that never starts.
///
/// Answers `Memory` for want of memory.
pub fn task_of<N: Namer>(alloc: Global, desc: &Desc1, namer: &N) -> Result<TaskId, Memory>
    ensures task { IfOk result (λ t. t ≡ TaskId.Of (digested (N.digest namer.now) (first_output (desc_view desc.now)))) }
{
    let mut out = Writer::new(alloc);
    match desc {
        Desc1::Exec {
            executor,
            args,
            outputs,
            ..
        } => put_output(&mut out, executor, args, *outputs, 0)?,
        other => put_desc(&mut out, other)?,
    }
    Ok(TaskId::Of(namer.name(out.as_slice())))
}
