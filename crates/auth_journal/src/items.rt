//! Items that batches share, a segment of them for each segment of nodes.
ghost use Rattle.std.specs.Prelude.{◌≡◌, ◌≤◌, ◌<◌, ◌^◌, List, ◌++◌, length, map, drop, slice_get, IfOk, OnOk, IsOkUnless};
ghost use Rattle.std.specs.Option.{option_copied};
ghost use Rattle.auth_journal.specs.Batched.{joined_items};

use crate::segment::Segment;
use codec_base::{Bytes, CodecError, Duplicate, Write};
use std::alloc::{AllocError, Global};
use std::rc::Rc;

/// Another handle to each of these lists.
pub(crate) fn share_all<T: Write + Drop>(
    alloc: Global,
    lists: &[Rc<Segment<T>>],
) -> Result<Vec<Rc<Segment<T>>>, AllocError>
    ensures { IfOk result (λ v. map {B = List T} (λ l. l.value) v.items ≡ map (λ l. l.value) lists.now) }
{
    let mut shared = Vec::with_capacity(alloc, lists.len().saturating_add(1))?;
    for i in 0..lists.len() {
        shared.push(lists[i].clone()?)?;
    }
    Ok(shared)
}

/// Keeps what stands from this place on, and lets go of what stands before it.
pub(crate) fn keep_from<X: Drop>(kept: &mut Vec<X>, place: usize)
    requires { place ≤ length kept.old.items }
    ensures { kept.new.items ≡ drop place kept.old.items }
{
    let left = kept.len() - place;
    kept.rotate_left(place);
    kept.truncate(left);
}

/// Puts copies of these encodings behind others.
fn push_copies(copies: &mut Vec<Bytes>, encodings: &[Bytes]) -> Result<(), CodecError>
    ensures copies { OnOk result (copies.new.items ≡ copies.old.items ++ encodings.now) }
    ensures memory { IsOkUnless result CodecError.Memory }
{
    for encoding in encodings {
        copies.push(encoding.duplicate()?)?;
    }
    Ok(())
}

/// Copies of the encodings of the items of the lists from this one on, one list after another.
pub(crate) fn encodings_from<T: Write + Drop>(
    alloc: Global,
    lists: &[Rc<Segment<T>>],
    place: usize,
) -> Result<Vec<Bytes>, CodecError>
    ensures copies { IfOk result (λ v. v.items ≡
        map T.spelling (joined_items (drop place (map {B = List T} (λ l. l.value) lists.now)))) }
    ensures memory { IsOkUnless result CodecError.Memory }
{
    let mut copies = Vec::new(alloc);
    for i in place..lists.len() {
        push_copies(&mut copies, lists[i].encodings())?;
    }
    Ok(copies)
}

/// How many items the lists have.
pub(crate) fn count_of<T: Write + Drop>(lists: &[Rc<Segment<T>>]) -> u64
    requires { length (joined_items (map {B = List T} (λ l. l.value) lists.now)) < 2 ^ 64 }
    ensures { result ≡ length (joined_items (map {B = List T} (λ l. l.value) lists.now)) }
{
    let mut count = 0;
    for i in 0..lists.len() {
        count += lists[i].items().len() as u64;
    }
    count
}

/// The item at an index.
fn nth<T>(items: &[T], index: usize) -> Option<&T>
    ensures { option_copied result ≡ slice_get items.now index }
{
    items.get(index)
}

/// The item at a place of the lists, one list after another.
pub(crate) fn item_of<T: Write + Drop>(lists: &[Rc<Segment<T>>], place: u64) -> Option<&T>
    ensures { option_copied result ≡ slice_get (joined_items (map {B = List T} (λ l. l.value) lists.now)) place }
{
    let mut left = place;
    for i in 0..lists.len() {
        let items = lists[i].items();
        let count = items.len() as u64;
        if left < count {
            return nth(items, left as usize);
        }
        left -= count;
    }
    None
}
