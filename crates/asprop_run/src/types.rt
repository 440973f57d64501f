//! Why a run stops.

use cycle_check::Cycle;
use task_reading::Fault;

/// Why the work stopped.
#[derive(Drop)]
pub enum Failure {
    /// Memory ran out.
    Memory,
    /// A write of the answers failed.
    Write,
    /// The links have this provider cycle.
    Cycle(Cycle),
    /// The words and the files give no task.
    Fault(Fault),
}
