//! The shop: what all workers of a run share.

use crate::block::Block;
use crate::ready::ReadyJob;
use ciel_store::shelves::Shelves;

/// The job with its tables, what runs its executors, what names its descriptions, and the workers' shelves.
#[derive(Drop)]
pub struct Shop<K, N> {
    pub job: ReadyJob,
    pub kit: K,
    pub namer: N,
    pub shelves: Shelves<Block>,
}
