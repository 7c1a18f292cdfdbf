//! The job that a script means, as the master knows it, is all that the master's laws ask of a job.

ghost use Rattle.ciel_master_law.specs.Laws.{RealIsSetting};

/// Where what is read as data is plain and sound, and the script's functions are orderly (`sky_parse_law`), the job that a script
/// means has the laws of a job, tells where all comes from, and its descriptions by names tell what the master reads from them.
pub fn real_job_is_a_setting<P, B>()
    ensures real { RealIsSetting P B }
{}
