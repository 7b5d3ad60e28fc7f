//! The master as an end of the protocol.

ghost use Rattle.std.specs.Prelude.{◌≡◌, []};

use crate::records::MasterCore;
use dcp_ends::End;
use dcp_types::Address;

impl End for MasterCore {
    ghost use Rattle.master_spec.specs.declared.setups.Setup.{Setup};
    ghost use Rattle.master_core.specs.Standing.{StandsAfter, rules_of, core_setup};

    ghost Made = { Setup };

    ghost made = { core_setup };

    ghost stands = { StandsAfter };

    ghost rules = { rules_of };

    ghost outs = { λ m. m.out };

    fn address(&self) -> Address {
        self.address
    }

    fn on_gram(&mut self, from: Address, bytes: &[u8]) {
        if self.report.is_none() {
            self.take_gram(from, bytes);
        }
    }

    fn on_turn(&mut self) {
        if self.report.is_none() {
            self.turns = self.turns.saturating_add(1);
            self.take_turn();
        }
    }

    fn outgoing(&self, i: usize) -> Option<(Address, &[u8])> {
        self.out.get(i)
    }

    fn clear_outgoing(&mut self) {
        self.out.clear();
    }

    fn is_over(&self) -> bool {
        self.report.is_some()
    }
}
