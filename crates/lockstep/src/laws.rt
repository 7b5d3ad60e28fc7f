//! What holds of every reference.

ghost use Rattle.std.specs.Prelude.{◌≡◌, ℕ, ℤ, List, Option};
ghost use Rattle.lockstep.specs.declared.references.RefFault.{RefFault};
ghost use Rattle.lockstep.specs.Lockstep.{IsReference};

use scenario::Scenario;

/// Each scenario has a reference, and no other.
pub fn one_reference(_scenario: &Scenario)
    ensures exists { (rows : List (List ℤ)) × (fault : Option RefFault) × IsReference _scenario.now rows fault }
    ensures unique { (rows others : List (List ℤ)) → (fault fault' : Option RefFault) → IsReference _scenario.now rows fault → IsReference _scenario.now others fault' → (rows ≡ others) × (fault ≡ fault') }
{}
