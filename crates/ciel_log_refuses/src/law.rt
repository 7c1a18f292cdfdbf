//! The law of refusals.

ghost use Rattle.ciel_log_refuses.specs.Refusals.{LogsAreReplayed, LogsHaveNoBadPlace, RefusedAreBad, RefusedEndNothing, RefusedForCause};

use ciel_name::name::Namer;
use sky_base::kit::Kit;

/// Where `replay` refused a file at a record, from the beginning of a run on: the records up to and with that one begin no log of a driven
/// journal. So a file that begins such a log is never refused. Nor is a report refused with which the run would end since a name clashes or there is no room.
pub fn logs_are_replayed<K: Kit, N: Namer>()
    ensures cause { RefusedForCause K.gives N.digest }
    ensures bad { RefusedAreBad K.gives N.digest }
    ensures good { LogsHaveNoBadPlace }
    ensures never { LogsAreReplayed K.gives N.digest }
    ensures ends { RefusedEndNothing }
{}
