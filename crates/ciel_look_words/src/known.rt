//! Descriptions with their names.

ghost use Rattle.std.specs.Prelude.{◌≡◌, IfOk};
ghost use Rattle.sky_base.specs.Name.{canon, digested};
ghost use Rattle.sky_base.specs.ObjectView.{desc_view};
ghost use Rattle.sky_base.specs.declared.object.TaskId.{TaskId};
ghost use Rattle.ciel_name.specs.Names.{first_output};
ghost use Rattle.ciel_look_words.specs.Named.{digest_of};

use ciel_name::name::{Namer, Sha1Namer, Sha256Namer, task_of};
use ciel_name::object::canon;
use sky_base::name::Name;
use sky_base::object::{Desc1, TaskId};
use sky_base::text::Memory;
use std::alloc::Global;

/// A description with its name, and with the task that makes what it stands for. The name is the digest of its canonical bytes, that of the
/// task the digest of those of the first output: by SHA-1 where names are short, else by SHA-256.
#[derive(Drop)]
pub struct Known {
    pub short: bool,
    pub name: Name,
    pub task: TaskId,
    pub desc: Desc1,
    ghost named: { name ≡ digest_of short (canon (desc_view desc)) },
    ghost made: { task ≡ TaskId.Of (digest_of short (canon (first_output (desc_view desc)))) },
}

/// The description with its name.
///
/// Answers `Memory` for want of memory.
pub fn named(alloc: Global, short: bool, desc: Desc1) -> Result<Known, Memory>
    ensures kind { IfOk result (λ k. k.short ≡ short) }
    ensures desc { IfOk result (λ k. k.desc ≡ desc) }
{
    let bytes = canon(alloc, &desc)?;
    let name = name_of(short, bytes.as_slice());
    let task = task_name(alloc, short, &desc)?;
    Ok(Known {
        short,
        name,
        task,
        desc,
    })
}

/// The name that is given for the bytes.
fn name_of(short: bool, bytes: &[u8]) -> Name
    ensures { result ≡ digest_of short bytes.now }
{
    if short {
        Sha1Namer.name(bytes)
    } else {
        Sha256Namer.name(bytes)
    }
}

/// The task that makes what a description stands for.
fn task_name(alloc: Global, short: bool, desc: &Desc1) -> Result<TaskId, Memory>
    ensures { IfOk result (λ t. t ≡ TaskId.Of (digest_of short (canon (first_output (desc_view desc.now))))) }
{
    if short {
        task_of(alloc, desc, &Sha1Namer)
    } else {
        task_of(alloc, desc, &Sha256Namer)
    }
}
