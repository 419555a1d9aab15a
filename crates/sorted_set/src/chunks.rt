//! The chunks of a sorted set: each has neighbours, none is empty.
ghost use Rattle.std.specs.Prelude.{◌≡◌, ◌+◌, ◌<◌, ◌≤◌, false, insert, length, IfOk, OnOk, OnErr};
ghost use Rattle.std.specs.Prelude.{slice_get, vec_len, vec_capacity};
ghost use Rattle.std.specs.Option.{option_copied};
ghost use Rattle.std.specs.BTreeMap.{is_at};
ghost use Rattle.std.specs.BTreeSet.{insert_key};
ghost use Rattle.std.specs.Set.{remove_key};
ghost use Rattle.sorted_set.specs.Sorted.{elements_from};
ghost use Rattle.sorted_set.specs.Chunks.{AreChunks, IsPlaceFor, joined};

use crate::chunk::{CHUNK_MOST, Chunk};
use crate::rest::Rest;
use linx_base::NoMemory;

/// The place of the chunk in which an element stands or would stand: the last that doesn't begin
/// above it, or the first.
fn chunk_for<T: Ord + Drop>(chunks: &[Chunk<T>], element: &T) -> usize
    requires chunks { AreChunks T.cmp chunks.now }
    requires some { 0 < length chunks.now }
    ensures { IsPlaceFor T.cmp element.now chunks.now result }
{
    chunks
        .partition_point(|chunk| chunk.begins_by(element))
        .saturating_sub(1)
}

/// Adds a chunk, for which there is room.
fn insert_chunk<T: Ord + Drop>(chunks: &mut Vec<Chunk<T>>, at: usize, chunk: Chunk<T>)
    requires within { at ≤ vec_len chunks.old }
    requires room { vec_len chunks.old < vec_capacity chunks.old }
    ensures items { chunks.new.items ≡ insert chunks.old.items at chunk }
    ensures len { vec_len chunks.new ≡ vec_len chunks.old + 1 }
{
    let _ = chunks.insert(at, chunk);
}

/// Cuts a full chunk in two, and says whether it did. A refusal changes nothing.
fn split_full<T: Ord + Drop>(chunks: &mut Vec<Chunk<T>>, at: usize) -> Result<bool, NoMemory>
    requires within { at < vec_len chunks.old }
    requires chunks { AreChunks T.cmp chunks.old.items }
    ensures elements { joined chunks.new.items ≡ joined chunks.old.items }
    ensures chunks { AreChunks T.cmp chunks.new.items }
    ensures len { vec_len chunks.old ≤ vec_len chunks.new }
    ensures same { IfOk result (λ split. split ≡ false → chunks.new.items ≡ chunks.old.items) }
{
    if chunks[at].len() < CHUNK_MOST {
        return Ok(false);
    }
    chunks.reserve(1)?;
    let back = chunks[at].split()?;
    insert_chunk(chunks, at + 1, back);
    Ok(true)
}

/// The place of the chunk in which an element stands or would stand, which is cut in two first
/// where it is full.
fn room_for<T: Ord + Drop>(chunks: &mut Vec<Chunk<T>>, element: &T) -> Result<usize, NoMemory>
    requires chunks { AreChunks T.cmp chunks.old.items }
    requires some { 0 < vec_len chunks.old }
    ensures place { IfOk result (IsPlaceFor T.cmp element.now chunks.new.items) }
    ensures elements { joined chunks.new.items ≡ joined chunks.old.items }
    ensures chunks { AreChunks T.cmp chunks.new.items }
{
    let at = chunk_for(chunks, element);
    if split_full(chunks, at)? {
        return Ok(chunk_for(chunks, element));
    }
    Ok(at)
}

/// Adds an element at its place, unless an equal one is there. A refusal frees it.
pub(crate) fn insert<T: Ord + Drop>(chunks: &mut Vec<Chunk<T>>, element: T) -> Result<(), NoMemory>
    requires { AreChunks T.cmp chunks.old.items }
    ensures ok { OnOk result (joined chunks.new.items
        ≡ insert_key T.cmp (joined chunks.old.items) element) }
    ensures err { OnErr result (joined chunks.new.items ≡ joined chunks.old.items) }
    ensures chunks { AreChunks T.cmp chunks.new.items }
{
    if chunks.is_empty() {
        let chunk = Chunk::of(*chunks.allocator(), element)?;
        chunks.push(chunk)?;
        return Ok(());
    }
    let at = room_for(chunks, &element)?;
    chunks[at].insert(element)?;
    Ok(())
}

/// Removes the element that equals this one, if there is one.
pub(crate) fn remove<T: Ord + Drop>(chunks: &mut Vec<Chunk<T>>, element: &T)
    requires { AreChunks T.cmp chunks.old.items }
    ensures elements { joined chunks.new.items
        ≡ remove_key (is_at (T.cmp element.now)) (joined chunks.old.items) }
    ensures chunks { AreChunks T.cmp chunks.new.items }
{
    if chunks.is_empty() {
        return;
    }
    let at = chunk_for(chunks, element);
    chunks[at].remove(element);
    if chunks[at].is_empty() {
        chunks.remove(at);
    }
}

/// The k-th element of some chunks, from 0.
fn nth<T: Ord + Drop>(chunks: &[Chunk<T>], k: usize) -> Option<&T>
    ensures { option_copied result ≡ slice_get (joined chunks.now) k }
{
    let mut left = k;
    for chunk in chunks {
        if left < chunk.len() {
            return chunk.get(left);
        }
        left -= chunk.len();
    }
    None
}

/// The k-th element from 0 of those that aren't below this one.
pub(crate) fn nth_from<'a, T: Ord + Drop>(
    chunks: &'a [Chunk<T>],
    from: &T,
    k: usize,
) -> Option<&'a T>
    requires { AreChunks T.cmp chunks.now }
    ensures { option_copied result
        ≡ slice_get (elements_from T.cmp from.now (joined chunks.now)) k }
{
    if chunks.is_empty() {
        return None;
    }
    let at = chunk_for(chunks, from);
    let chunk = &chunks[at];
    let first = chunk.count_below(from);
    let here = chunk.len() - first;
    if k < here {
        return chunk.get(first + k);
    }
    nth(&chunks[at + 1..], k - here)
}

/// The elements that aren't below this one, in order.
pub(crate) fn rest_from<'a, T: Ord + Drop>(chunks: &'a [Chunk<T>], from: &T) -> Rest<'a, T>
    requires { AreChunks T.cmp chunks.now }
    ensures { result ≡ elements_from T.cmp from.now (joined chunks.now) }
{
    if chunks.is_empty() {
        return Rest::of(&[], chunks);
    }
    let at = chunk_for(chunks, from);
    let chunk = &chunks[at];
    let first = chunk.count_below(from);
    Rest::of(chunk.part_from(first), &chunks[at + 1..])
}
