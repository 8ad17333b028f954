//! What follows for the clauses of a pair.

ghost use Rattle.job_cert.specs.pair_clauses.Clauses.{HaveOneEncoding, TextsHaveOneEncoding};

/// The clauses of two functions are determined by the circuits, the numbers of their inputs and both places, whichever call gives
/// them. It does nothing: its contract is a law.
pub fn one_encoding()
    ensures { HaveOneEncoding }
{}

/// The clauses of a pair are determined by both texts and the name: neither by the nets that the texts are loaded as, nor by the order of
/// their gates or the numbers of inputs that are left out. So what is printed by two calls fits together.
pub fn one_text_encoding()
    ensures { TextsHaveOneEncoding }
{}
