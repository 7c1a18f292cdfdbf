//! The run as a whole.

ghost use Rattle.std.specs.Prelude.{◌≡◌, ◌≢◌, true};
ghost use Rattle.ciel_run_drive.specs.Ended.{Ended};
ghost use Rattle.ciel_run_drive.specs.Kept.{Kept};
ghost use Rattle.ciel_run_drive.specs.Moved.{Ends};
ghost use Rattle.ciel_run_drive.specs.Told.{ToldOn};
ghost use Rattle.ciel_run_drive.specs.Working.{Working};
ghost use Rattle.ciel_master.specs.declared.stop.RunEnd.{RunEnd as End};

use crate::turn::turn;
use ciel_master::master::Master;
use ciel_master::stop::RunEnd;
use ciel_name::name::Namer;
use ciel_task_crew::crew::Crew;
use sky_base::kit::Kit;

/// Takes turns with a crew up to the end of the run: what is due is lost, then what can run is started at who is idle, and only then a
/// report is taken. `seed` is the state of the generator that chooses tasks and workers. The run ends by itself, without a budget.
///
/// Afterwards only the master's journal may be asked, and the crew be closed. Unless there was no memory, each worker's gate will then
/// have told the tasks of the Starts at it.
pub fn drive<K: Kit + Drop, N: Namer + Drop, C: Crew<K = K, N = N>>(
    master: &mut Master<K, N>,
    crew: &mut C,
    seed: u64,
) -> RunEnd
    requires working { Working K.gives N.digest (C.shop crew.old) (C.is_sound crew.old) master.old (C.out crew.old) }
    ensures shop { C.shop crew.new ≡ C.shop crew.old }
    ensures stays { C.stays crew.new ≡ C.stays crew.old }
    ensures end { Kept K.gives N.digest (C.shop crew.old) (C.is_sound crew.old) master.old (C.out crew.old) seed
        → Ended K.gives N.digest (C.shop crew.old) master.old.board.plan master.new.board.journal result }
    ensures sound { result ≢ End.Memory → C.is_sound crew.new ≡ true }
    ensures told { result ≢ End.Memory → ToldOn master.old.board.journal master.new.board.journal (C.told crew.old) (C.told crew.new) }
    ensures calls { Ends K.gives N.digest (C.shop crew.old)
        (Kept K.gives N.digest (C.shop crew.old) (C.is_sound crew.old) master.old (C.out crew.old) seed) C.goes
        (C.record_of crew.old) master.old.board (C.record_of crew.new) master.new.board.journal result }
{
    let mut state = seed;
    'run: loop {
        match turn(master, crew, &mut state) {
            Ok(()) => {}
            Err(end) => return end,
        }
    }
}
