//! What a payload says: the outputs of its sender, one behind the other.
//!
//! There is no code.

ghost use Rattle.slave_laws.specs.Wiring.Back.{PayloadsReadBack};

/// A payload is cut back into the outputs that it was made of, where these lie in their types.
pub fn payloads_read_back()
    ensures { PayloadsReadBack }
{}
