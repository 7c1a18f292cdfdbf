//! What the rule of a stream says of the bytes that lie there.

ghost use Rattle.ciel_flow_pieces.specs.Pieces.{FewLieThere};

/// Whatever was put and taken, the pieces that lie in a stream have at most 65,536 bytes each: eight have at most 524,288.
pub fn few_bytes_lie_there()
    ensures { FewLieThere }
{}
