//! What is read of a host of all ends is of the reference of its scenario.

ghost use Rattle.std.specs.Prelude.{◌≡◌, ◌≤◌, ℕ, None, Some, IfSome, length};
ghost use Rattle.master_spec.specs.declared.reports.Report.TheVariants.{Finished};
ghost use Rattle.master_spec.specs.Setup.{setup_from};
ghost use Rattle.master_core.specs.Columns.{column_value};
ghost use Rattle.scenario.specs.Lookups.{slave_at};
ghost use Rattle.host.specs.Views.{report_in, row_count_in, row_value};
ghost use Rattle.host_laws.specs.Lockstep.{HostsAll, IsInRounds};
ghost use Rattle.host_laws.specs.Readings.{IsCloseToAll, OfReference, plant_in, StandsInLockstep};
ghost use Rattle.host_laws.specs.Reports.{HostFailsForReason, HostIsComplete};

use crate::hosts::{keeps_in_step, reports_for_reason};
use host::Host;
use master_spec::Report;

/// The report of the master, once it has one. While no fault stopped the host, a failure has its reason in the log, and
/// where nothing was lost or late, the report is what the reference gives.
pub fn report(host: &Host) -> Option<Report>
    requires all { HostsAll host.now }
    requires in_rounds { IsInRounds host.now }
    ensures report { result ≡ report_in host.now }
    ensures reasons { HostFailsForReason host.now }
    ensures complete { HostIsComplete host.now }
{
    reports_for_reason(host);
    host.report()
}

/// How many rows are whole: these are the first rows of the reference, and all of them where the report is that the
/// run finished. Then the reference has no fault.
pub fn rows(host: &Host) -> u32
    requires all { HostsAll host.now }
    requires in_rounds { IsInRounds host.now }
    ensures count { result ≡ row_count_in host.now }
    ensures front { OfReference host.now (λ rows fault. result ≤ length rows) }
    ensures whole { (steps : ℕ) → report_in host.now ≡ Some (Finished steps) → OfReference host.now (λ rows fault. (result ≡ length rows) × (fault ≡ None)) }
{
    keeps_in_step(host);
    host.rows()
}

/// The value of a port in row k, which counts over all runs; slaves count from 1, ports from 0. It is the value of
/// that port in row k of the reference.
pub fn row(host: &Host, k: u32, slave: u8, port: u8) -> Option<i128>
    requires all { HostsAll host.now }
    requires in_rounds { IsInRounds host.now }
    ensures value { result ≡ row_value host.now k slave port }
    ensures of_reference { OfReference host.now (λ rows fault. IfSome result (λ value. column_value (setup_from host.now.scenario).slaves rows k slave port ≡ Some value)) }
{
    keeps_in_step(host);
    host.row(k, slave, port)
}

/// The steps that a slave has taken since its last reset. Its model stands where the reference has it after so many
/// steps of that run, and no other slave is more than a step or a reset away.
pub fn slave_steps(host: &Host, slave: u8) -> Option<u32>
    requires all { HostsAll host.now }
    requires in_rounds { IsInRounds host.now }
    ensures steps { IfSome (slave_at host.now.scenario.slaves slave) (λ d. result ≡ Some (plant_in host.now d).steps) }
    ensures stands { IfSome (slave_at host.now.scenario.slaves slave) (λ d. OfReference host.now (λ rows fault. StandsInLockstep host.now slave rows d)) }
    ensures close { IfSome (slave_at host.now.scenario.slaves slave) (λ d. IsCloseToAll host.now d) }
{
    keeps_in_step(host);
    host.slave_steps(slave)
}
