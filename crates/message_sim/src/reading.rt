//! Reading a file of deliveries.
ghost use Rattle.std.proofs.Common.{rules};
ghost use Rattle.std.specs.Prelude.{◌≡◌, ◌≤◌, ⊤, [], length};
ghost use Rattle.net_names.specs.Prelude.{kept_from};
ghost use Rattle.net_names.specs.declared.limits.TheConstants.{MOST_TEXT_BYTES as most_bytes};
ghost use Rattle.message_sim.specs.Files.{Fails as FailsBy, fails_on as fails_alike, Gives, deliveries_by, with_line};
ghost use Rattle.message_sim.specs.declared.reading.DeliveriesError.TheVariants.{Memory};

use crate::forms::step;
use crate::steps::{Deliveries, DeliverySteps, MOST_DELIVERIES};
use net_names::{LineByLine, MOST_TEXT_BYTES, NoMemory, Prefix, next_kept, put_lines};
use scenario_text::read_for;
use std::alloc::Global;

/// Why a file of deliveries is refused: the fault of its first faulty line, where it has one. Lines are
/// numbered from 1, and skipped lines count. A line is judged in the order Unreadable, TooMany.
#[derive(Clone, Copy, Debug, PartialEq, Eq)]
pub enum DeliveriesError {
    /// Memory ran out.
    Memory,
    /// The line has not the form: the first line that isn't skipped names the round and the prefix, and
    /// each later one asks for deliveries.
    Unreadable {
        /// The number of the line.
        line: u32,
    },
    /// With this line the file asks for more than 1,000,000 deliveries.
    TooMany {
        /// The number of the line.
        line: u32,
    },
    /// Each line is skipped.
    NoFor,
}

impl From<NoMemory> for DeliveriesError {
    ghost from_gives = { λ _ e. e ≡ Memory };

    fn from(_e: NoMemory) -> DeliveriesError {
        DeliveriesError::Memory
    }
}

impl LineByLine for Deliveries {
    type Error = DeliveriesError;

    ghost says = { with_line };

    ghost Fails = { FailsBy };

    ghost IsReady = { λ _ _. ⊤ };

    ghost most = { most_bytes };

    fn put_line(
        mut self,
        _alloc: Global,
        number: u32,
        line: &[u8],
    ) -> Result<Deliveries, DeliveriesError> {
        let Some(step) = step(number, line) else {
            return Err(DeliveriesError::Unreadable { line: number });
        };
        if step.most > MOST_DELIVERIES - self.steps.asked() {
            return Err(DeliveriesError::TooMany { line: step.line });
        }
        self.steps.push(step)?;
        Ok(self)
    }

    ghost fails_on = { fails_alike };

    ghost stays_ready = { λ _ _ _ _ ready. ready };

    ghost fits = { Prim.search rules };
}

// What a line of this number says alone that names these.
fn begun(alloc: Global, number: u32, names: (u32, Prefix)) -> Deliveries
    ensures { result ≡ record { for_line = number; round = names.0; prefix = names.1; steps = [] } }
{
    let (round, prefix) = names;
    Deliveries {
        for_line: number,
        round,
        prefix,
        steps: DeliverySteps::new(alloc),
    }
}

/// What a file of at most 16,777,216 bytes asks for. A line ends with a line feed, before which one
/// carriage return may stand; a line that is empty or begins with `#` is skipped. The first other line is
/// `for R P`, with the round R and the prefix P. Then come lines `deliver N A`, for a delivery of the
/// oldest message from AS N to another AS A, and lines `rest K`, for up to K deliveries, each of the
/// oldest message on the lowest link on which one is under way. The format is this project's own.
///
/// `NoFor` exactly where each line is skipped; `Unreadable` exactly where the first faulty line has not
/// the form, and `TooMany` exactly where it has it and the file asks with it for more than 1,000,000
/// deliveries; `Memory` where there is not enough memory.
pub fn read_deliveries(alloc: Global, bytes: &[u8]) -> Result<Deliveries, DeliveriesError>
    requires { length bytes.now ≤ MOST_TEXT_BYTES }
    ensures { Gives result (deliveries_by (kept_from 1 bytes.now)) }
{
    let Some(first) = next_kept(bytes, 1) else {
        return Err(DeliveriesError::NoFor);
    };
    let Some(names) = read_for(first.line) else {
        return Err(DeliveriesError::Unreadable { line: first.number });
    };
    let deliveries = begun(alloc, first.number, names);
    put_lines(alloc, deliveries, first.number + 1, first.rest)
}
