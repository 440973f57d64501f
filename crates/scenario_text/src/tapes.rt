//! The tokens of a JSON text, each with where its value ends.
ghost use Rattle.std.specs.Prelude.{◌≡◌, ◌≤◌, ◌↔◌, length, IfOk, IsTrue, IsSome, ok_or};
ghost use Rattle.std.specs.List.{list_all};
ghost use Rattle.json.specs.Tape.{node_token};
ghost use Rattle.serde_json.specs.Read.{read};
ghost use Rattle.scenario_text.specs.declared.faults.ScenarioError.TheVariants.{NotJson};
ghost use Rattle.scenario_text.specs.Faults.{GivesBy};
ghost use Rattle.scenario_text.specs.Tokens.{IsData, data_at, fits, whole};

use crate::faults::ScenarioError;
use crate::whole_numbers::whole_number;
use json::{Error, Node, Reader, Scratch, Tape};
use net_names::MOST_TEXT_BYTES;
use std::alloc::{AllocError, Global};

// How many levels serde_json reads: one fewer than a tape has.
const MOST_LEVELS: usize = 127;

// Whether the text is one JSON value of at most 127 levels, whatever its numbers are.
fn is_whole(text: &str, scratch: &mut Scratch) -> Result<bool, AllocError>
    ensures { IfOk result (λ b. IsTrue b ↔ IsSome (whole text.now)) }
{
    let mut reader = Reader::new(text, scratch)?;
    Ok(reader.skip_value(MOST_LEVELS).is_ok() && reader.next().is_none())
}

// Whether the token is no number, or one that a float or 64 bits hold.
fn has_room(node: &Node<'_>) -> bool
    ensures { result ≡ fits (node_token node.now) }
{
    match node {
        Node::Number(text) => whole_number(text).is_some(),
        _ => true,
    }
}

// Whether a float or 64 bits hold each number among these tokens.
fn all_fit(nodes: &[Node<'_>]) -> bool
    ensures { result ≡ list_all (λ n. fits (node_token n)) nodes.now }
{
    nodes.iter().all(|node| has_room(node))
}

/// The tokens of a text that is JSON as serde_json reads it. They take at most 24 bytes for each byte of the text.
#[tactic(auto, using(crate::proofs::Tokens::whole_document))]
pub(crate) fn tape<'a>(
    alloc: Global,
    text: &'a str,
    scratch: &'a mut Scratch,
) -> Result<Tape<'a>, ScenarioError>
    requires { length text.now ≤ MOST_TEXT_BYTES }
    ensures says { GivesBy (λ tape. data_at tape) result (ok_or (read text.now) NotJson) }
    ensures is_data { IfOk result IsData }
{
    if !is_whole(text, scratch)? {
        return Err(ScenarioError::NotJson);
    }
    let tape = match Tape::parse(text, scratch, Vec::new(alloc)) {
        Ok(tape) => tape,
        Err(Error::OutOfMemory) => return Err(ScenarioError::Memory),
        // A tape takes a text that is whole, and one of this length.
        Err(Error::Invalid) => unreachable!(),
        Err(Error::TooLong) => unreachable!(),
        Err(Error::DuplicateKey) => unreachable!(),
    };
    if all_fit(tape.nodes()) {
        Ok(tape)
    } else {
        Err(ScenarioError::NotJson)
    }
}
