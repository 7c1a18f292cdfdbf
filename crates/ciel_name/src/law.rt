//! Laws of bytes and names. Each is the contract of a function that does nothing.

ghost use Rattle.ciel_name.specs.Laws.{ApartByInner, ApartInSet, OneCanon, OneSpelling};

/// Two values with the same bytes are one, and so are two descriptions over names with the same canonical bytes.
pub fn one_spelling()
    ensures values { OneSpelling }
    ensures descriptions { OneCanon }
{}

/// Descriptions that differ have different canonical bytes, as long as no two that stand inside them share a name. So
/// two that share a name are told apart by their canonical bytes, and it is always the digest that clashed.
pub fn canonical_bytes_tell_apart()
    ensures set { ApartInSet }
    ensures inside { ApartByInner }
{}
