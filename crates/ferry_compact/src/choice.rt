//! The segments that are compacted.
ghost use Rattle.std.specs.Prelude.{◌≡◌, IfOk, IfErr};
ghost use Rattle.std.specs.List.Sorted.{IsStrictlyIncreasing};
ghost use Rattle.ferry_compact.specs.Choice.{chosen_in, is_chosen, is_idle};
ghost use Rattle.ferry_compact.specs.Moving.{is_among};
ghost use Rattle.ferry_compact.specs.declared.fault.CompactFault.TheVariants as Compact;

use crate::fault::CompactFault;
use ferry_log::{Extent, Log};
use std::alloc::Global;

/// The segments of a log, by increasing number.
pub(crate) fn extents_of(alloc: Global, log: &Log) -> Result<Vec<Extent>, CompactFault>
    ensures extents { IfOk result (λ extents. extents.items ≡ log.now.extents) }
    ensures memory { IfErr result (λ fault. fault ≡ Compact.Memory) }
{
    let mut extents = Vec::new(alloc);
    while let Some(extent) = log.extent(extents.len()) {
        extents.push(extent)?;
    }
    Ok(extents)
}

/// Whether so many hundredths of a segment's bytes, or more, belong to no live PUT.
fn is_chosen(extent: &Extent, threshold: u8) -> bool
    ensures { result ≡ is_chosen threshold extent.now }
{
    let unused = u128::from(extent.size.saturating_sub(extent.live));
    u128::from(threshold) * u128::from(extent.size) <= unused * 100
}

/// The numbers of those of these segments that are chosen, in their order.
pub(crate) fn choose(
    alloc: Global,
    extents: &[Extent],
    threshold: u8,
) -> Result<Vec<u64>, CompactFault>
    ensures chosen { IfOk result (λ chosen. chosen.items ≡ chosen_in threshold extents.now) }
    ensures memory { IfErr result (λ fault. fault ≡ Compact.Memory) }
{
    let mut chosen = Vec::new(alloc);
    for extent in extents {
        if is_chosen(extent, threshold) {
            chosen.push(extent.segment)?;
        }
    }
    Ok(chosen)
}

/// Whether nothing is to be gained: no segment is chosen, or that of the last commit alone.
pub(crate) fn is_idle(transaction: u64, chosen: &[u64]) -> bool
    ensures { result ≡ is_idle transaction chosen.now }
{
    match chosen {
        [] => true,
        [only] => *only == transaction,
        _ => false,
    }
}

/// Whether a segment is one of these, whose numbers increase.
pub(crate) fn is_among(numbers: &[u64], segment: u64) -> bool
    ensures { IsStrictlyIncreasing numbers.now → result ≡ is_among numbers.now segment }
{
    numbers.binary_search(&segment).is_ok()
}
