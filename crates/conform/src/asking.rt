//! The answers to a request that was taken.

ghost use Rattle.std.specs.Prelude.{◌≡◌, ◌≤◌, ◌<◌, ◌+◌, ◌++◌, ◌∷◌, [], map, length, ℕ};
ghost use Rattle.slave_desc.specs.declared.descriptions.SlaveDesc.{SlaveDesc};
ghost use Rattle.slave_spec.specs.Foreign.{ForeignPlant, verdict, fault_answers, log_answers};
ghost use Rattle.conform.specs.Plants.{ForeignFor, verdicts_of, faults_of};
ghost use Rattle.conform.specs.Asking.{HasAnswersOut, reply, heads, change_meaning, setting_meaning, log_meaning};

use crate::faults::Faults;
use crate::meanings::Meaning;
use crate::plants::{ForeignDevice, Setting};
use dcp_types::{Address, ErrorCode, FaultCode, State};
use pdu_layout::{Cfg, Inf, Stc};
use slave_core::{SlaveOutbox, put_ack, put_entries, put_error, put_nack, put_state};
use slave_spec::{Asked, SlaveRequest};

/// The code of an answer where there was no fault.
const NO_FAULT: u16 = 0;

/// The categories of log entries are 1 to this one.
const LAST_CATEGORY: u8 = 3;

/// Puts an answer that accepts a request or refuses it.
pub(crate) fn put_verdict(
    to: Address,
    request: &SlaveRequest,
    next: u16,
    refused: Option<ErrorCode>,
    out: &mut SlaveOutbox,
)
    requires { length out.old < 21 }
    ensures { out.new ≡ out.old ++ reply to request.now next (verdict refused) ∷ [] }
{
    let seq = request.number;
    let sender = request.receiver;
    match refused {
        None => put_ack(to, seq, sender, out),
        Some(code) => put_nack(to, seq, sender, next, code.code(), out),
    }
}

/// Puts the answers to a setting.
fn put_setting(
    to: Address,
    request: &SlaveRequest,
    next: u16,
    setting: Setting,
    out: &mut SlaveOutbox,
)
    requires { out.old ≡ [] }
    ensures { out.new ≡ map (reply to request.now next) (verdicts_of setting) }
{
    match setting {
        Setting::Only(refused) => put_verdict(to, request, next, refused, out),
        Setting::Free => {
            put_verdict(to, request, next, None, out);
            let range = Some(ErrorCode::ValueRange);
            put_verdict(to, request, next, range, out);
        }
        Setting::Logging(refused) => {
            let none = Some(ErrorCode::NotSupported);
            put_verdict(to, request, next, none, out);
            put_verdict(to, request, next, refused, out);
        }
    }
}

/// Puts the answers that name a fault.
fn put_faults(to: Address, request: &SlaveRequest, faults: Faults, out: &mut SlaveOutbox)
    requires { out.old ≡ [] }
    ensures { (next : ℕ) → out.new ≡ map (reply to request.now next) (fault_answers (faults_of faults)) }
{
    let seq = request.number;
    let sender = request.receiver;
    match faults {
        Faults::None => put_error(to, seq, sender, NO_FAULT, out),
        Faults::One(code) => put_error(to, seq, sender, code.code(), out),
        Faults::Model => {
            put_error(to, seq, sender, FaultCode::ModelOverflow.code(), out);
            put_error(to, seq, sender, FaultCode::DivideByZero.code(), out);
            put_error(to, seq, sender, FaultCode::OutOfRange.code(), out);
        }
    }
}

/// Puts the answers to a question for log entries; where the last one begins an answer with entries, the
/// meaning says so.
fn put_log(
    to: Address,
    request: &SlaveRequest,
    next: u16,
    category: u8,
    out: &mut SlaveOutbox,
) -> Meaning
    requires { out.old ≡ [] }
    ensures out { out.new ≡ map (reply to request.now next) (log_answers category) ++ heads result to request.now }
    ensures meaning { result ≡ log_meaning category }
{
    let none = Some(ErrorCode::NotSupported);
    put_verdict(to, request, next, none, out);
    if category == 0 || category > LAST_CATEGORY {
        let range = Some(ErrorCode::ValueRange);
        put_verdict(to, request, next, range, out);
        Meaning::Plain
    } else {
        put_entries(to, request.number, request.receiver, &[], out);
        Meaning::Entries
    }
}

/// What the only answer to a change of state means.
fn meaning_of(body: &Stc, accepted: bool) -> Meaning
    ensures { result ≡ change_meaning body.now accepted }
{
    match body {
        Stc::Deregister if accepted => Meaning::Last,
        _ => Meaning::Plain,
    }
}

/// Takes a request for a change of state.
#[tactic(auto, unfolding(slave_spec::specs::Requests::accepted))]
fn ask_change(
    plant: &mut ForeignDevice,
    to: Address,
    request: &SlaveRequest,
    named: State,
    body: &Stc,
    next: u16,
    out: &mut SlaveOutbox,
) -> Meaning
    requires out { out.old ≡ [] }
    requires asked { request.now.asked ≡ Asked.Change named body.now }
    ensures { (d : SlaveDesc) (p : ForeignPlant) → ForeignFor plant.old d p → HasAnswersOut d p to request.now next result plant.new out.new }
{
    let refused = plant.change(named, body);
    put_verdict(to, request, next, refused, out);
    meaning_of(body, refused.is_none())
}

/// What else an answer to a setting means.
fn meaning_of_setting(setting: Setting) -> Meaning
    ensures { result ≡ setting_meaning setting }
{
    match setting {
        Setting::Logging(None) => Meaning::Logging,
        _ => Meaning::Plain,
    }
}

/// Takes a setting.
fn ask_setting(
    plant: &mut ForeignDevice,
    parameters: usize,
    to: Address,
    request: &SlaveRequest,
    body: &Cfg,
    next: u16,
    out: &mut SlaveOutbox,
) -> Meaning
    requires out { out.old ≡ [] }
    requires asked { request.now.asked ≡ Asked.Setting body.now }
    ensures { (d : SlaveDesc) (p : ForeignPlant) → ForeignFor plant.old d p → parameters ≡ length d.parameters → HasAnswersOut d p to request.now next result plant.new out.new }
{
    let setting = plant.set(body, parameters);
    put_setting(to, request, next, setting, out);
    meaning_of_setting(setting)
}

/// Takes a question.
fn ask_question(
    plant: &ForeignDevice,
    to: Address,
    request: &SlaveRequest,
    asked: &Inf,
    next: u16,
    out: &mut SlaveOutbox,
) -> Meaning
    requires out { out.old ≡ [] }
    requires asked { request.now.asked ≡ Asked.Question asked.now }
    ensures { (d : SlaveDesc) (p : ForeignPlant) → ForeignFor plant.now d p → HasAnswersOut d p to request.now next result plant.now out.new }
{
    match asked {
        Inf::State => {
            put_state(to, request.number, request.receiver, plant.state, out);
            Meaning::Plain
        }
        Inf::Error => {
            put_faults(to, request, plant.faults, out);
            Meaning::Fault
        }
        Inf::Log { category, .. } => put_log(to, request, next, *category, out),
    }
}

/// Takes a request of a slave that has so many parameters. The answers that are awaited then stand in the
/// outbox, and the machine stands where they lead.
pub(crate) fn ask(
    plant: &mut ForeignDevice,
    parameters: usize,
    to: Address,
    request: &SlaveRequest,
    next: u16,
    out: &mut SlaveOutbox,
) -> Meaning
    requires { out.old ≡ [] }
    ensures { (d : SlaveDesc) (p : ForeignPlant) → ForeignFor plant.old d p → parameters ≡ length d.parameters → HasAnswersOut d p to request.now next result plant.new out.new }
{
    match &request.asked {
        Asked::Change {
            named,
            request: body,
        } => ask_change(plant, to, request, *named, body, next, out),
        Asked::Setting(body) => ask_setting(plant, parameters, to, request, body, next, out),
        Asked::Question(asked) => ask_question(plant, to, request, asked, next, out),
    }
}
