//! All payloads in rising order, in chunks of some five hundred.
ghost use Rattle.std.specs.Prelude.{◌≡◌, ◌<◌, ◌∷◌, [], length, take as take_front, drop as drop_front, OnOk, OnErr, IfOk};
ghost use Rattle.roa_table.specs.Lists.{IsRising, row_in, stands_in};
ghost use Rattle.roa_table.specs.Sets.{added, taken, set_of};
ghost use Rattle.roa_table.specs.Chunks.{all_of, IsInOrder, IsHome, TakesLast};

use crate::chunk::Chunk;
use crate::row::{middle, part_before, row};
use net_names::{Prefix, Vrp};
use std::alloc::{AllocError, Global};

/// A chunk with more payloads is cut in two, where it has two prefixes.
const MANY: usize = 1024;

/// At least so many payloads go into a chunk at first, unless there are fewer.
const FEW: usize = 512;

/// The room of so many payloads is given back.
const MUCH: usize = 65_536;

// The chunk in which payloads of this prefix stand.
fn home(chunks: &[Chunk], prefix: Prefix) -> usize
    requires order { IsInOrder chunks.now }
    requires some { 0 < length chunks.now }
    ensures { IsHome chunks.now prefix result }
{
    chunks
        .partition_point(|chunk| chunk.starts_by(prefix))
        .saturating_sub(1)
}

/// The payloads of this prefix.
pub(crate) fn row_of(chunks: &[Chunk], prefix: Prefix) -> &[Vrp]
    requires { IsInOrder chunks.now }
    ensures { result.now ≡ row_in prefix (all_of chunks.now) }
{
    if chunks.is_empty() {
        return &[];
    }
    let chunk = &chunks[home(chunks, prefix)];
    row(chunk.vrps.as_slice(), prefix)
}

/// Whether the payload stands in a chunk.
pub(crate) fn stands(chunks: &[Chunk], vrp: Vrp) -> bool
    requires { IsInOrder chunks.now }
    ensures { result ≡ stands_in (all_of chunks.now) vrp }
{
    if chunks.is_empty() {
        return false;
    }
    let chunk = &chunks[home(chunks, vrp.prefix())];
    chunk.has(vrp)
}

/// Payloads from this place on, at least one where one stands there.
pub(crate) fn payloads_from(chunks: &[Chunk], place: usize) -> &[Vrp]
    ensures next { result.now ≡ take_front (length result.now) (drop_front place (all_of chunks.now)) }
    ensures some { place < length (all_of chunks.now) → 0 < length result.now }
{
    let mut left = place;
    for chunk in chunks {
        let vrps = chunk.vrps.as_slice();
        if left < vrps.len() {
            return &vrps[left..];
        }
        left -= vrps.len();
    }
    &[]
}

// A chunk for one payload.
fn put_first(chunks: &mut Vec<Chunk>, alloc: Global, vrp: Vrp) -> Result<(), AllocError>
    requires { chunks.old.items ≡ [] }
    ensures order { IsInOrder chunks.new.items }
    ensures ok { OnOk result (all_of chunks.new.items ≡ vrp ∷ []) }
    ensures err { OnErr result (all_of chunks.new.items ≡ []) }
{
    let mut vrps = Vec::new(alloc);
    vrps.push(vrp)?;
    chunks.push(Chunk {
        low: vrp.prefix(),
        vrps,
    })?;
    Ok(())
}

// Cuts a chunk in two between two prefixes, where it has two and memory is there.
fn cut(chunks: &mut Vec<Chunk>, alloc: Global, k: usize)
    requires order { IsInOrder chunks.old.items }
    requires inside { k < length chunks.old.items }
    ensures order { IsInOrder chunks.new.items }
    ensures same { all_of chunks.new.items ≡ all_of chunks.old.items }
{
    let vrps = chunks[k].vrps.as_slice();
    if vrps.is_empty() {
        return;
    }
    let at = middle(vrps);
    if at == vrps.len() {
        return;
    }
    let low = vrps[0].prefix();
    let next = vrps[at].prefix();
    if let Ok(tail) = Vec::from_slice(alloc, &vrps[at..]) {
        if chunks
            .insert(
                k + 1,
                Chunk {
                    low: next,
                    vrps: tail,
                },
            )
            .is_ok()
        {
            let chunk = &mut chunks[k];
            chunk.low = low;
            chunk.vrps.truncate(at);
        }
    }
}

/// Puts the payload into its chunk, if it does not stand there yet.
pub(crate) fn put(chunks: &mut Vec<Chunk>, alloc: Global, vrp: Vrp) -> Result<(), AllocError>
    requires { IsInOrder chunks.old.items }
    ensures order { IsInOrder chunks.new.items }
    ensures ok { OnOk result
        (set_of (all_of chunks.new.items) ≡ added (set_of (all_of chunks.old.items)) vrp) }
    ensures err { OnErr result (all_of chunks.new.items ≡ all_of chunks.old.items) }
{
    if chunks.is_empty() {
        return put_first(chunks, alloc, vrp);
    }
    let k = home(chunks.as_slice(), vrp.prefix());
    let chunk = &mut chunks[k];
    chunk.put(vrp)?;
    let is_long = chunk.vrps.len() > MANY;
    if is_long {
        cut(chunks, alloc, k);
    }
    Ok(())
}

// Removes the chunk at this place where no payload stands in it.
fn remove_empty(chunks: &mut Vec<Chunk>, k: usize)
    requires order { IsInOrder chunks.old.items }
    requires inside { k < length chunks.old.items }
    ensures order { IsInOrder chunks.new.items }
    ensures same { all_of chunks.new.items ≡ all_of chunks.old.items }
{
    if chunks[k].vrps.is_empty() {
        let _ = chunks.remove(k);
    }
}

/// Takes the payload from its chunk, and tells whether it stood there. An empty chunk is removed.
pub(crate) fn take(chunks: &mut Vec<Chunk>, vrp: Vrp) -> bool
    requires { IsInOrder chunks.old.items }
    ensures order { IsInOrder chunks.new.items }
    ensures gone { set_of (all_of chunks.new.items) ≡ taken (set_of (all_of chunks.old.items)) vrp }
    ensures found { result ≡ stands_in (all_of chunks.old.items) vrp }
{
    if chunks.is_empty() {
        return false;
    }
    let k = home(chunks.as_slice(), vrp.prefix());
    let chunk = &mut chunks[k];
    let found = chunk.take(vrp);
    remove_empty(chunks, k);
    found
}

// Gives back what room the payloads leave, where it is much.
fn give_back(vrps: &mut Vec<Vrp>)
    ensures { vrps.new.items ≡ vrps.old.items }
{
    if vrps.capacity() - vrps.len() >= MUCH {
        vrps.shrink_to_fit();
    }
}

// Takes the last payloads into a chunk of their own.
fn take_last(alloc: Global, vrps: &mut Vec<Vrp>) -> Result<Chunk, AllocError>
    requires rising { IsRising vrps.old.items }
    requires some { 0 < length vrps.old.items }
    ensures { IfOk result (λ chunk. TakesLast vrps.old.items vrps.new.items chunk) }
{
    let at = part_before(vrps.as_slice(), FEW);
    let last = &vrps.as_slice()[at..];
    let chunk = Chunk {
        low: last[0].prefix(),
        vrps: Vec::from_slice(alloc, last)?,
    };
    vrps.truncate(at);
    give_back(vrps);
    Ok(chunk)
}

/// Chunks with these payloads.
pub(crate) fn chunked(alloc: Global, mut vrps: Vec<Vrp>) -> Result<Vec<Chunk>, AllocError>
    requires { IsRising vrps.items }
    ensures order { IfOk result (λ ss. IsInOrder ss.items) }
    ensures all { IfOk result (λ ss. all_of ss.items ≡ vrps.items) }
{
    // The last ones are put up first, so that the room of those put up is given back on the way.
    let mut chunks = Vec::new(alloc);
    'rest: while !vrps.is_empty() {
        let chunk = take_last(alloc, &mut vrps)?;
        chunks.push(chunk)?;
    }
    chunks.reverse();
    Ok(chunks)
}
