//! What the header of a log tells.

use sky_base::text::Txt;

/// An input of the run: its key, and the mark of its bytes.
#[derive(Drop)]
pub struct Input {
    pub key: Txt,
    pub mark: [u8; 20],
}

/// What a header tells of the job: whether names have 20 bytes (else they have 32), the mark of the script's bytes, and the inputs.
#[derive(Drop)]
pub struct Marks {
    pub short: bool,
    pub script: [u8; 20],
    pub inputs: Vec<Input>,
}

/// The header of a log: the number of workers, the seed, the losses, each a count of closes and a worker, and what it tells of the job.
#[derive(Drop)]
pub struct Header {
    pub workers: u32,
    pub seed: u64,
    pub losses: Vec<(u32, u32)>,
    pub job: Marks,
}
