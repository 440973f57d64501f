//! The files of a run: each is read to its end, or to one byte past its limit, before it is judged.
ghost use Rattle.std.specs.Prelude.{◌<◌, ◌≤◌, Some, Ok, length};
ghost use Rattle.std.specs.Option.{option_map_or};
ghost use Rattle.caida_reader.specs.Prelude.{links_of};
ghost use Rattle.io_edge.specs.Prelude.{KeepsNames};
ghost use Rattle.net_names.specs.declared.limits.TheConstants.{MOST_LIST_BYTES, MOST_TEXT_BYTES};
ghost use Rattle.roa_table.specs.Prelude.{payloads_in};
ghost use Rattle.scenario_text.specs.Prelude.{scenario_of_bytes, nothing};
ghost use Rattle.task_reading.specs.Asking.{jobs_in, most_bytes, read_as};
ghost use Rattle.task_reading.specs.Files.{IsTaken, ReadsAs};
ghost use Rattle.task_reading.specs.Sources.{source_of};
ghost use Rattle.task_reading.specs.Words.{text_seen};
ghost use Rattle.task_reading.specs.declared.types.File.TheVariants as files;
ghost use Rattle.task_reading.specs.declared.types.Cause.TheVariants as cause;

use crate::errors::{of_payloads, of_relations, of_scenario};
use crate::forms::{jobs_in, most_bytes};
use crate::jobs::Jobs;
use crate::types::{AskError, Cause, Fault, File};
use crate::words::FileOption;
use caida_reader::Reader;
use io_edge::{Failed, Inputs, ReadAllError, read_all};
use net_names::{Links, MOST_LIST_BYTES, MOST_TEXT_BYTES};
use roa_table::Vrps;
use scenario_text::{Scenario, read_scenario};
use std::alloc::Global;

// How many bytes are taken at once.
const PIECE: usize = 65_536;

// Reads the relationship file in pieces as long as the room. It takes the whole file where it gives links, and at most one
// byte past the limit in any case; where `begin` failed nothing is begun.
fn read_pieces<I: Inputs>(
    alloc: Global,
    inputs: &mut I,
    name: &str,
    room: &mut [u8],
) -> Result<Links, AskError>
    requires { 0 < length room.old }
    ensures found { ReadsAs (source_of I.holds I.is_sound I.faults inputs.old inputs.new) (Some name.now)
        (λ links. links) result (read_as files.Relations MOST_LIST_BYTES cause.Relation links_of) }
    ensures taken { IsTaken (I.holds inputs.old name.now) (I.left inputs.new) result }
    ensures keeps { KeepsNames I.holds I.is_sound I.faults inputs.old inputs.new }
{
    if inputs.begin(name).is_err() {
        return Err(AskError::Fault(Fault::InFile(File::Relations, Cause::Unread)));
    }
    let mut reader = Reader::new(alloc);
    let most = room.len();
    let mut taken = 0usize;
    'pieces: while taken <= MOST_LIST_BYTES {
        let want = (MOST_LIST_BYTES + 1 - taken).min(most);
        match inputs.take(&mut room[..want]) {
            Err(Failed) => return Err(AskError::Fault(Fault::InFile(
                File::Relations,
                Cause::Unread,
            ))),
            Ok(0) => {
                return match reader.finish() {
                    Ok(links) => Ok(links),
                    Err(error) => Err(of_relations(error)),
                };
            }
            Ok(count) => {
                taken += count;
                // A reader that has failed answers its fault at the end.
                let _ = reader.feed(&room[..count]);
            }
        }
    }
    Err(AskError::Fault(Fault::InFile(File::Relations, Cause::TooLong(MOST_LIST_BYTES))))
}

/// Reads the relationship file.
pub fn read_relations<I: Inputs>(
    alloc: Global,
    inputs: &mut I,
    name: &str,
) -> Result<Links, AskError>
    ensures found { ReadsAs (source_of I.holds I.is_sound I.faults inputs.old inputs.new) (Some name.now)
        (λ links. links) result (read_as files.Relations MOST_LIST_BYTES cause.Relation links_of) }
    ensures keeps { KeepsNames I.holds I.is_sound I.faults inputs.old inputs.new }
{
    let mut room = vec![in alloc; 0u8; PIECE]?;
    read_pieces(alloc, inputs, name, room.as_mut_slice())
}

// Reads the bytes of a file that may have so many.
fn read_bytes<I: Inputs>(
    alloc: Global,
    inputs: &mut I,
    file: File,
    most: usize,
    name: &str,
) -> Result<Vec<u8>, AskError>
    requires { most ≤ MOST_LIST_BYTES }
    ensures found { ReadsAs (source_of I.holds I.is_sound I.faults inputs.old inputs.new) (Some name.now)
        (λ bytes. bytes.items) result (read_as file most (λ c. c) Ok) }
    ensures keeps { KeepsNames I.holds I.is_sound I.faults inputs.old inputs.new }
{
    match read_all(alloc, inputs, name, most) {
        Ok(bytes) => Ok(bytes),
        Err(ReadAllError::Memory) => Err(AskError::Memory),
        Err(ReadAllError::ReadFault) => Err(AskError::Fault(Fault::InFile(file, Cause::Unread))),
        Err(ReadAllError::TooLong) => Err(AskError::Fault(Fault::InFile(
            file,
            Cause::TooLong(most),
        ))),
    }
}

/// Reads the payloads of the file of this name; without a name there are none.
pub fn read_payloads<I: Inputs>(
    alloc: Global,
    inputs: &mut I,
    name: Option<&str>,
) -> Result<Vrps, AskError>
    ensures found { ReadsAs (source_of I.holds I.is_sound I.faults inputs.old inputs.new) (text_seen name.entry)
        (λ vrps. vrps) result (read_as files.Payloads MOST_LIST_BYTES cause.Payload payloads_in) }
    ensures keeps { KeepsNames I.holds I.is_sound I.faults inputs.old inputs.new }
{
    let Some(name) = name else {
        return Ok(Vrps::new(alloc));
    };
    let bytes = read_bytes(alloc, inputs, File::Payloads, MOST_LIST_BYTES, name)?;
    match roa_table::read(alloc, &bytes) {
        Ok(vrps) => Ok(vrps),
        Err(error) => Err(of_payloads(error)),
    }
}

/// Reads the scenario of the file of this name; without a name it is the empty one.
pub fn read_plan<I: Inputs>(
    alloc: Global,
    inputs: &mut I,
    name: Option<&str>,
) -> Result<Scenario, AskError>
    ensures found { ReadsAs (source_of I.holds I.is_sound I.faults inputs.old inputs.new) (text_seen name.entry)
        (λ scenario. scenario) result
        (λ reads. option_map_or (λ _. read_as files.Scenario MOST_TEXT_BYTES cause.Scenario scenario_of_bytes reads)
        (text_seen name.entry) (Ok nothing)) }
    ensures keeps { KeepsNames I.holds I.is_sound I.faults inputs.old inputs.new }
{
    let Some(name) = name else {
        return Ok(Scenario::new(alloc));
    };
    let bytes = read_bytes(alloc, inputs, File::Scenario, MOST_TEXT_BYTES, name)?;
    match read_scenario(alloc, &bytes) {
        Ok(scenario) => Ok(scenario),
        Err(error) => Err(of_scenario(error)),
    }
}

/// Reads the jobs that the file of this name asks for; without a name it is as an empty one.
pub fn read_jobs<I: Inputs>(
    alloc: Global,
    inputs: &mut I,
    option: FileOption,
    name: Option<&str>,
) -> Result<Jobs, AskError>
    ensures found { ReadsAs (source_of I.holds I.is_sound I.faults inputs.old inputs.new) (text_seen name.entry)
        (λ jobs. jobs) result (read_as files.Asked (most_bytes option) (λ c. c) (jobs_in option)) }
    ensures keeps { KeepsNames I.holds I.is_sound I.faults inputs.old inputs.new }
{
    let Some(name) = name else {
        return jobs_in(alloc, option, b"");
    };
    let bytes = read_bytes(alloc, inputs, File::Asked, most_bytes(option), name)?;
    jobs_in(alloc, option, &bytes)
}
