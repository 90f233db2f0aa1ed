//! Places in the order of their keys, cut into buckets of keys, so that a search looks into one bucket alone.
//!
//! All buckets have the same width, a power of two, and there are about as many as entries. Where the keys lie close
//! together, each bucket has one key, and a search is a look-up. Where they don't, it is a binary search of a bucket. The
//! room is in proportion to the entries, however great the keys are.

ghost use Rattle.std.specs.Prelude.{◌≡◌, ◌<◌, ◌≤◌, ◌+◌, ◌/◌, ◌^◌, ℕ, length, IfOk, slice_index_or};
ghost use Rattle.std.specs.List.{AllWithin};
ghost use Rattle.std.specs.List.Sorted.{IsNonDecreasingBy, IsPermutation};
ghost use Rattle.mono_bounds.specs.Entries.{AreAround, AreBucketed, IsRange, IsStart, bucket};

use std::alloc::{AllocError, Global};
use std::marker::Model;

/// A place and its key.
#[derive(Clone, Copy)]
pub(crate) struct Entry {
    pub(crate) key: u32,
    pub(crate) place: u32,
}

/// Entries in the order of their keys. Contracts see their list.
#[derive(Drop)]
pub(crate) struct Entries {
    entries: Vec<Entry>,
    /// Where the entries of each bucket begin.
    starts: Vec<usize>,
    /// The first key of the first bucket.
    least: u32,
    /// The binary logarithm of a bucket's width.
    shift: u32,
}

impl Model for Entries {
    ghost use Rattle.std.specs.Prelude.{List};
    ghost use Rattle.mono_bounds.specs.declared.entries.Entry.{Entry};
    ghost use Rattle.mono_bounds.specs.Entries.{AreBucketed};

    ghost Value = { List Entry };

    ghost view = { λ e. e.entries.items };

    ghost invariant = { λ e. AreBucketed e.entries.items e.starts.items e.least e.shift };
}

/// The bucket of a key. Keys below the first bucket are counted to it.
fn bucket_of(least: u32, shift: u32, key: u32) -> usize
    requires { shift < 32 }
    ensures { result ≡ bucket least shift key }
{
    (key.saturating_sub(least) >> shift) as usize
}

/// The binary logarithm of the least width with which `count` buckets and one more take in a span of keys.
fn shift_of(span: u32, count: usize) -> u32
    ensures fits { result < 32 }
    ensures few { span / 2 ^ result ≤ count + 1 }
{
    for shift in 0..31 {
        if (span >> shift) as usize <= count {
            return shift;
        }
    }
    31
}

/// Where the entries of a bucket begin: not before `start`.
fn start_of(entries: &[Entry], least: u32, shift: u32, number: usize, start: usize) -> usize
    requires sorted { IsNonDecreasingBy (λ e. e.key) entries.now }
    requires shift { shift < 32 }
    requires start { start ≤ length entries.now }
    requires below { AllWithin (λ e. bucket least shift e.key < number) entries.now 0 start }
    ensures { IsStart entries.now least shift number result }
{
    for at in start..entries.len() {
        if bucket_of(least, shift, entries[at].key) >= number {
            return at;
        }
    }
    entries.len()
}

/// Where the entries of each bucket begin.
fn starts_of(
    alloc: Global,
    entries: &[Entry],
    least: u32,
    shift: u32,
    buckets: usize,
) -> Result<Vec<usize>, AllocError>
    requires sorted { IsNonDecreasingBy (λ e. e.key) entries.now }
    requires shift { shift < 32 }
    ensures len { IfOk result (λ starts. length starts.items ≡ buckets) }
    ensures each { IfOk result (λ starts. (b : ℕ) → b < buckets → IsStart entries.now least shift b (slice_index_or starts.items b 0)) }
{
    let mut starts = Vec::new(alloc);
    let mut start = 0;
    for number in 0..buckets {
        start = start_of(entries, least, shift, number, start);
        starts.push(start)?;
    }
    Ok(starts)
}

/// The least key, and how far above it the greatest lies.
fn span_of(entries: &[Entry]) -> (u32, u32) {
    if entries.is_empty() {
        return (0, 0);
    }
    let least = entries[0].key;
    let greatest = entries[entries.len() - 1].key;
    (least, greatest.saturating_sub(least))
}

/// The entries in the order of their keys.
fn sorted(mut entries: Vec<Entry>) -> Vec<Entry>
    ensures permutation { IsPermutation entries.items result.items }
    ensures sorted { IsNonDecreasingBy (λ e. e.key) result.items }
{
    entries.sort_unstable_by_key(|e| e.key);
    entries
}

/// From where to where the bucket of a key goes.
fn bucket_range(
    entries: &[Entry],
    starts: &[usize],
    least: u32,
    shift: u32,
    key: u32,
) -> (usize, usize)
    requires { AreBucketed entries.now starts.now least shift }
    ensures { AreAround entries.now key result.0 result.1 }
{
    let number = bucket_of(least, shift, key);
    let last = starts.len() - 1;
    if number < last {
        (starts[number], starts[number + 1])
    } else {
        (starts[last], entries.len())
    }
}

/// The first entry whose key isn't below, where it lies between two places.
fn first_from(entries: &[Entry], low: usize, high: usize, key: u64) -> usize
    requires sorted { IsNonDecreasingBy (λ e. e.key) entries.now }
    requires order { low ≤ high }
    requires end { high ≤ length entries.now }
    requires below { AllWithin (λ e. e.key < key) entries.now 0 low }
    requires from { AllWithin (λ e. key ≤ e.key) entries.now high (length entries.now) }
    ensures low { low ≤ result }
    ensures high { result ≤ high }
    ensures below { AllWithin (λ e. e.key < key) entries.now 0 result }
    ensures from { AllWithin (λ e. key ≤ e.key) entries.now result (length entries.now) }
{
    let mut first = low;
    let mut end = high;
    while first < end {
        let middle = first + (end - first) / 2;
        if u64::from(entries[middle].key) < key {
            first = middle + 1;
        } else {
            end = middle;
        }
    }
    first
}

/// From where to where the entries of a key stand.
fn range_between(entries: &[Entry], low: usize, high: usize, key: u32) -> (usize, usize)
    requires sorted { IsNonDecreasingBy (λ e. e.key) entries.now }
    requires around { AreAround entries.now key low high }
    ensures { IsRange entries.now key result.0 result.1 }
{
    let start = first_from(entries, low, high, u64::from(key));
    let end = first_from(entries, start, high, u64::from(key) + 1);
    (start, end)
}

/// From where to where the entries of a key stand, by its bucket.
fn range_of(entries: &[Entry], starts: &[usize], least: u32, shift: u32, key: u32) -> (usize, usize)
    requires { AreBucketed entries.now starts.now least shift }
    ensures { IsRange entries.now key result.0 result.1 }
{
    let (low, high) = bucket_range(entries, starts, least, shift, key);
    range_between(entries, low, high, key)
}

impl Entries {
    /// Puts entries in the order of their keys.
    pub(crate) fn new(alloc: Global, list: Vec<Entry>) -> Result<Entries, AllocError>
        ensures permutation { IfOk result (λ entries. IsPermutation list.items entries) }
        ensures sorted { IfOk result (λ entries. IsNonDecreasingBy (λ e. e.key) entries) }
    {
        let entries = sorted(list);
        let (least, span) = span_of(entries.as_slice());
        let shift = shift_of(span, entries.len());
        let buckets = (span >> shift) as usize + 2;
        let starts = starts_of(alloc, entries.as_slice(), least, shift, buckets)?;
        Ok(Entries {
            entries,
            starts,
            least,
            shift,
        })
    }

    /// The entries.
    pub(crate) fn as_slice(&self) -> &[Entry]
        ensures { result.now ≡ self.now }
    {
        self.entries.as_slice()
    }

    /// From where to where the entries of a key stand.
    pub(crate) fn range_of(&self, key: u32) -> (usize, usize)
        ensures { IsRange self.now key result.0 result.1 }
    {
        range_of(
            self.entries.as_slice(),
            self.starts.as_slice(),
            self.least,
            self.shift,
            key,
        )
    }
}
