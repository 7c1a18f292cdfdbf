//! A job that is ready to be run: with the tables of its script, which are made once for all of its tasks.

ghost use Rattle.std.specs.Prelude.{◌≡◌, IfOk};

use sky_base::job::{Inputs, Job};
use sky_base::script::Script;
use sky_base::text::Memory;
use sky_machine_numbers::code::{Numbered, number_script};
use sky_machine_numbers::tables::Tables;
use std::alloc::Global;
use std::marker::Model;

/// A job with the tables of its script. Contracts see it as the job.
#[derive(Drop)]
pub struct ReadyJob {
    job: Job,
    tables: Tables,
}

impl Model for ReadyJob {
    ghost use Rattle.std.specs.Coded.{codes};
    ghost use Rattle.sky_base.specs.ScriptCode.{script_code};
    ghost use Rattle.sky_base.specs.declared.job.Job as rust;
    ghost use Rattle.sky_machine_numbers.specs.Tabled.{TablesOf};

    ghost Value = { rust.Job };

    ghost coded = { Prim.hlevel (codes, script_code) };

    ghost view = { λ r. r.job };

    ghost invariant = { λ r. TablesOf r.job.script r.tables };
}

impl ReadyJob {
    /// The job, made ready: each node of its script is met once.
    ///
    /// Answers `Memory` for want of memory.
    pub fn new(alloc: Global, job: Job) -> Result<ReadyJob, Memory>
        ensures { IfOk result (λ r. r ≡ job) }
    {
        let tables = number_script(alloc, &job.script)?;
        Ok(ReadyJob { job, tables })
    }

    /// The script.
    pub fn script(&self) -> &Script
        ensures { result.now ≡ self.now.script }
    {
        &self.job.script
    }

    /// The inputs.
    pub fn inputs(&self) -> &Inputs
        ensures { result.now ≡ self.now.inputs }
    {
        &self.job.inputs
    }

    /// The script, ready to be run: in constant time, and without memory.
    pub fn numbered(&self) -> Numbered<'_>
        ensures code { result.code ≡ self.now.script }
        ensures nodes { result.nodes ≡ self.now.script }
    {
        self.tables.over(&self.job.script)
    }
}
