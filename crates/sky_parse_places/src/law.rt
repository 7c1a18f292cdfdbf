//! The laws of the places of faults.

ghost use Rattle.sky_parse_places.specs.Laws.{MeantFaultsAreAt, PlacesAreWithin, SeenFaultsAreAt, TokensAreFew};

/// Of a job whose script is that of some bytes: each fault that it sees or means is at a token of the script, or nowhere, whatever lies
/// around the job.
pub fn faults_are_at_tokens()
    ensures seen { SeenFaultsAreAt }
    ensures meant { MeantFaultsAreAt }
{}

/// The line and the column of such a place are at most one more than there are bytes, and there are no more tokens than bytes.
pub fn places_are_within()
    ensures within { PlacesAreWithin }
    ensures tokens { TokensAreFew }
{}
