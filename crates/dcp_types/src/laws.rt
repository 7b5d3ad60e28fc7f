//! What holds of all codes, words and bytes.

ghost use Rattle.dcp_types.specs.Laws.{TypesDiffer, StatesDiffer, ErrorsDiffer, FaultsDiffer, ErrorsAreNoFaults, ProtocolsDiffer, ValuesDiffer};

/// A code, a word or a name stands for one type, state, refusal, fault or transport, and no refusal has
/// the code of a fault.
pub fn codes_and_words_are_one_to_one()
    ensures types { TypesDiffer }
    ensures states { StatesDiffer }
    ensures errors { ErrorsDiffer }
    ensures faults { FaultsDiffer }
    ensures apart { ErrorsAreNoFaults }
    ensures protocols { ProtocolsDiffer }
{}

/// No two values of a type have the same bytes, so what was written is read back.
pub fn value_bytes_are_one_to_one()
    ensures { ValuesDiffer }
{}
