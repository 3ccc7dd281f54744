//! Numbers by class.
ghost use Rattle.std.specs.Prelude.{◌≡◌, [], ◌∷◌, slice_index, slice_set};

use arrayvec::ArrayVec;

/// A number for each class; one behind its end has 0.
pub type ByClass = ArrayVec<u64, 65>;

/// One class, which has this limit.
pub fn one_limit(limit: u64) -> ByClass
    ensures { result.items ≡ limit ∷ [] }
{
    let mut limits = ByClass::new();
    limits.push(limit);
    limits
}

/// The number of this class.
pub fn of_class(counts: &ByClass, class: u32) -> u64
    ensures { result ≡ slice_index counts.now.items class }
{
    match counts.as_slice().get(class as usize) {
        None => 0,
        Some(count) => *count,
    }
}

/// Puts the number of this class, where it has one.
pub fn put_class(counts: &mut ByClass, class: u32, count: u64)
    ensures { counts.new.items ≡ slice_set counts.old.items class count }
{
    let items = counts.as_mut_slice();
    let place = class as usize;
    if place < items.len() {
        items[place] = count;
    }
}

/// The same numbers once more.
pub fn copy_classes(counts: &ByClass) -> ByClass
    ensures { result.items ≡ counts.now.items }
{
    let mut copy = ByClass::new();
    let _ = copy.try_extend_from_slice(counts.as_slice());
    copy
}
