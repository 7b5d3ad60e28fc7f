//! The machine as the transport calls it.

ghost use Rattle.std.specs.Prelude.{◌≡◌};

use crate::acts::Act;
use crate::devices::Device;
use dcp_types::{Address, ErrorCode, FaultCode, State};
use pdu_layout::Stc;
use slave_core::{Inner, SlaveOutbox};
use slave_spec::{Asked, SlaveRequest, Wired};

impl<W: Wired> Inner for Device<W> {
    ghost setup = { λ d. d.works.setup };

    ghost use Rattle.slave_device.specs.Devices.{DeviceFor};

    ghost stands = { DeviceFor W.stands };

    fn address(&self) -> Address {
        self.works.setup.desc.address
    }

    fn refuses(&self, asked: &Asked) -> Option<ErrorCode> {
        match asked {
            Asked::Change {
                named,
                request: Stc::Register {
                    uuid,
                    op_mode,
                    major,
                    minor,
                },
            } => {
                if named.code() != State::Alive.code() {
                    Some(ErrorCode::WrongState)
                } else if *uuid != self.works.setup.desc.uuid {
                    Some(ErrorCode::UuidMismatch)
                } else if *major != 1 || *minor != 0 {
                    Some(ErrorCode::Version)
                } else if *op_mode != 2 {
                    Some(ErrorCode::OpMode)
                } else {
                    None
                }
            }
            _ => None,
        }
    }

    fn answer(
        &mut self,
        from: Address,
        request: &SlaveRequest,
        next: u16,
        out: &mut SlaveOutbox,
    ) -> bool {
        match &request.asked {
            Asked::Change {
                named,
                request: body,
            } => self.answer_change(from, request, *named, body, next, out),
            Asked::Setting(body) => {
                self.answer_setting(from, request, body, next, out);
                false
            }
            Asked::Question(asked) => {
                self.inform(from, request, asked, next, out);
                false
            }
        }
    }

    fn turn(&mut self, quiet: u32, master: Address, id: u8, out: &mut SlaveOutbox) {
        match self.act(quiet) {
            Act::Stay => {}
            Act::Wait(left) => self.busy_left = left,
            Act::Fault(code) => self.fall(code, master, id, out),
            Act::Step => self.advance(master, id, out),
            Act::Pass => self.pass_on(master, id, out),
        }
    }

    fn bring(&mut self, from: Address, number: u16, id: u16, payload: &[u8]) {
        let code = self.state.code();
        if code >= State::Prepared.code() && code <= State::SendingD.code() {
            self.wiring.take_data(from, number, id, payload, self.steps);
        }
    }

    fn state(&self) -> State {
        self.state
    }

    fn steps_taken(&self) -> u32 {
        self.steps
    }

    fn fault(&self) -> Option<FaultCode> {
        self.fault
    }
}
