//! Buckets: the entries of all keys that share a cell. A bucket in a cell is never changed: another one takes its place, which has the
//! other keys' entries in common with it.
ghost use Rattle.std.specs.Prelude.{◌≡◌, ◌∷◌, ◌++◌, [], IfOk, None, Some, option_copied, option_map};
ghost use Rattle.std_alloc.specs.Arc.{arc_value};
ghost use Rattle.seize_map.specs.Buckets.{AnyEntry, MakesBucket, NoEntry, SomeEntry, entries_in, entries_of, entry_under, other_entries};
ghost use Rattle.seize_map.specs.declared.bucket.Unchanged.TheVariants.{NoMemory};

use std::alloc::{AllocError, Global};
use std::sync::Arc;

/// A value under its key.
#[derive(Drop)]
pub struct Entry<K: Drop, V: Drop> {
    /// The key.
    pub key: K,
    /// The value.
    pub value: V,
}

/// The entries of a bucket.
#[derive(Drop)]
pub struct Bucket<K: Drop, V: Drop> {
    pub(crate) entries: Vec<Arc<Entry<K, V>>>,
}

/// Why a bucket is left as it is.
pub(crate) enum Unchanged<K: Drop, V: Drop> {
    /// The allocator refused, or an entry is counted too often.
    NoMemory,
    /// The key has this entry, or none, and so there is nothing to do.
    Stays(Option<Arc<Entry<K, V>>>),
}

impl<K: Drop, V: Drop> From<AllocError> for Unchanged<K, V> {
    ghost from_gives = { λ _ why. why ≡ NoMemory };

    fn from(_error: AllocError) -> Self {
        Unchanged::NoMemory
    }
}

/// What takes the place of a bucket, if anything does, and the entry that the key had.
pub(crate) type Made<K, V> = Result<
    (Option<Bucket<K, V>>, Option<Arc<Entry<K, V>>>),
    Unchanged<K, V>,
>;

// The entry of this key, if there is one.
pub(crate) fn find<'b, K: Eq + Drop, V: Drop>(
    entries: &'b [Arc<Entry<K, V>>],
    key: &K,
) -> Option<&'b Arc<Entry<K, V>>>
    ensures { option_map arc_value (option_copied result) ≡ entry_under (K.eq key.now) (entries_of entries.now) }
{
    let mut rest = entries;
    while let Some((first, more)) = rest.split_first() {
        if *key == first.key {
            return Some(first);
        }
        rest = more;
    }
    None
}

// The entries of the other keys.
fn without<K: Eq + Drop, V: Drop>(
    alloc: Global,
    entries: &[Arc<Entry<K, V>>],
    key: &K,
) -> Result<Vec<Arc<Entry<K, V>>>, AllocError>
    ensures { IfOk result (λ left. entries_of left.items ≡ other_entries (K.eq key.now) (entries_of entries.now)) }
{
    let mut left = Vec::new(alloc);
    let mut rest = entries;
    while let Some((first, more)) = rest.split_first() {
        if *key != first.key {
            left.push(first.clone()?)?;
        }
        rest = more;
    }
    Ok(left)
}

// The entries of the other keys, and then this one.
fn with<K: Eq + Drop, V: Drop>(
    alloc: Global,
    entries: &[Arc<Entry<K, V>>],
    entry: &Arc<Entry<K, V>>,
) -> Result<Vec<Arc<Entry<K, V>>>, AllocError>
    ensures { let new = arc_value entry.now in
        IfOk result (λ all. entries_of all.items ≡ other_entries (K.eq new.key) (entries_of entries.now) ++ new ∷ []) }
{
    let mut all = without(alloc, entries, &entry.key)?;
    all.push(entry.clone()?)?;
    Ok(all)
}

// The entries of a bucket, and none where there is no bucket.
pub(crate) fn entries<'b, K: Drop, V: Drop>(
    bucket: Option<&'b Bucket<K, V>>,
) -> &'b [Arc<Entry<K, V>>]
    ensures { entries_of result.now ≡ entries_in (option_copied bucket.entry) }
{
    match bucket {
        Some(bucket) => bucket.entries.as_slice(),
        None => &[],
    }
}

// The entry of this key, counted once more.
fn counted<K: Eq + Drop, V: Drop>(
    entries: &[Arc<Entry<K, V>>],
    key: &K,
) -> Result<Option<Arc<Entry<K, V>>>, AllocError>
    ensures { IfOk result (λ was. option_map arc_value was ≡ entry_under (K.eq key.now) (entries_of entries.now)) }
{
    match find(entries, key) {
        Some(entry) => Ok(Some(entry.clone()?)),
        None => Ok(None),
    }
}

// The bucket with this entry in the place of that of its key, and that one, if there was one.
pub(crate) fn put<K: Eq + Drop, V: Drop>(
    alloc: Global,
    bucket: Option<&Bucket<K, V>>,
    entry: &Arc<Entry<K, V>>,
) -> Made<K, V>
    ensures { let new = arc_value entry.now in MakesBucket AnyEntry K.eq new.key (Some new) bucket.entry result }
{
    let before = entries(bucket);
    let was = counted(before, &entry.key)?;
    let all = with(alloc, before, entry)?;
    Ok((Some(Bucket { entries: all }), was))
}

// The bucket with this entry, where the key has none.
pub(crate) fn put_new<K: Eq + Drop, V: Drop>(
    alloc: Global,
    bucket: Option<&Bucket<K, V>>,
    entry: &Arc<Entry<K, V>>,
) -> Made<K, V>
    ensures { let new = arc_value entry.now in MakesBucket NoEntry K.eq new.key (Some new) bucket.entry result }
{
    match counted(entries(bucket), &entry.key)? {
        Some(was) => Err(Unchanged::Stays(Some(was))),
        None => put(alloc, bucket, entry),
    }
}

// The bucket without the entry of this key, and that one, where there is one. A bucket with no entry is none.
pub(crate) fn take<K: Eq + Drop, V: Drop>(
    alloc: Global,
    bucket: Option<&Bucket<K, V>>,
    key: &K,
) -> Made<K, V>
    ensures { MakesBucket SomeEntry K.eq key.now None bucket.entry result }
{
    let before = entries(bucket);
    let Some(was) = counted(before, key)? else {
        return Err(Unchanged::Stays(None));
    };
    let left = without(alloc, before, key)?;
    if left.is_empty() {
        return Ok((None, Some(was)));
    }
    Ok((Some(Bucket { entries: left }), Some(was)))
}
