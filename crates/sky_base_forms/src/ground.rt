// What a run stands on.

use sky_base_known::objects::Objects;
use sky_base_scope::program::Program;
use std::alloc::Global;

/// What a run stands on: its script, and the objects that are known.
#[derive(Clone, Copy)]
pub struct Ground<'a, 's> {
    pub alloc: Global,
    pub script: &'a Program<'s>,
    pub objects: &'a Objects,
}
