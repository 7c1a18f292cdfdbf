//! The law of replays.

ghost use Rattle.ciel_log_follows.specs.Follows.{ReplaysAreEnded, ReplaysAreKept, ReplaysAreTold};

use ciel_name::name::Namer;
use sky_base::kit::Kit;

/// Where `replay` came to the end of a file that begins a log of a driven journal: what stands whole there is a whole log of the master's
/// journal; where the run goes on, the master is kept as one that came there by itself; and where it has ended, it ended so for a reason.
pub fn replays_follow<K: Kit, N: Namer>()
    ensures told { ReplaysAreTold K.gives N.digest }
    ensures kept { ReplaysAreKept K.gives N.digest }
    ensures ended { ReplaysAreEnded K.gives N.digest }
{}
