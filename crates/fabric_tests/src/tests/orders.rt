// Orders and cycles of small wirings, worked out by hand.
ghost use Rattle.std.specs.Prelude.{◌≡◌, ℕ, ◌<◌, true, length, IsTrue};
ghost use Rattle.graph_order.specs.Wiring.{has};
ghost use Rattle.graph_order.specs.Rows.{wiring_of, ReadsWithin};

use graph_order::{least_cycle, write_order};
use std::alloc::{AllocError, Global};

/// Whether all classes of a row are below the count.
fn is_row(row: &[u32], count: usize) -> bool
    ensures { IsTrue result → (class : ℕ) → has row.now class ≡ true → class < count }
{
    for class in row {
        if *class as usize >= count {
            return false;
        }
    }
    true
}

/// Whether all classes of the rows are below the count.
fn are_rows(driven: &[bool], reads: &[Vec<u32>]) -> bool
    requires { length reads.now ≡ length driven.now }
    ensures { IsTrue result → ReadsWithin (wiring_of driven.now reads.now) }
{
    for class in 0..reads.len() {
        if !is_row(&reads[class], driven.len()) {
            return false;
        }
    }
    true
}

/// The order, or none where the rows aren't those of a wiring.
fn order(
    alloc: Global,
    driven: &[bool],
    reads: &[Vec<u32>],
) -> Result<Option<Vec<u32>>, AllocError> {
    if driven.len() == reads.len() && driven.len() <= 1_000_000 && are_rows(driven, reads) {
        write_order(alloc, driven, reads)
    } else {
        Ok(None)
    }
}

/// The least class on a cycle and its cycle, or none where the rows aren't those of a wiring.
fn cycle(
    alloc: Global,
    driven: &[bool],
    reads: &[Vec<u32>],
) -> Result<Option<Vec<u32>>, AllocError> {
    if driven.len() == reads.len() && driven.len() <= 1_000_000 && are_rows(driven, reads) {
        least_cycle(alloc, driven, reads)
    } else {
        Ok(None)
    }
}

fn rows(alloc: Global, reads: &[&[u32]]) -> Result<Vec<Vec<u32>>, AllocError> {
    let mut rows = Vec::new(alloc);
    for row in reads {
        rows.push(Vec::from_slice(alloc, row)?)
            .map_err(AllocError::from)?;
    }
    Ok(rows)
}

/// Whether the order is as expected.
fn is_order(
    alloc: Global,
    driven: &[bool],
    reads: &[&[u32]],
    expected: Option<&[u32]>,
) -> Result<bool, AllocError> {
    let rows = rows(alloc, reads)?;
    let found = order(alloc, driven, &rows)?;
    Ok(found.as_deref() == expected)
}

/// Whether the cycle is as expected.
fn is_cycle(alloc: Global, reads: &[&[u32]], expected: Option<&[u32]>) -> Result<bool, AllocError> {
    let rows = rows(alloc, reads)?;
    let driven = vec![in alloc; true; reads.len()]?;
    let found = cycle(alloc, &driven, &rows)?;
    Ok(found.as_deref() == expected)
}

#[test]
fn finds_the_order(rt: HostRuntime) {
    let cases: [(&[bool], &[&[u32]], Option<&[u32]>); 5] = [
        (&[], &[], Some(&[])),
        (&[true, true, true], &[&[2], &[], &[1]], Some(&[1, 2, 0])),
        (&[true, false, true], &[&[1, 2], &[], &[1]], Some(&[2, 0])),
        (&[true, true, true], &[&[], &[1], &[]], None),
        (&[true, true, true], &[&[1], &[2], &[1]], None),
    ];
    for (driven, reads, expected) in cases {
        assert_eq!(rt; is_order(rt.alloc(), driven, reads, expected), Ok(true));
    }
}

#[test]
fn finds_the_least_class_on_a_cycle(rt: HostRuntime) {
    let cases: [(&[&[u32]], Option<&[u32]>); 10] = [
        // no class, and a class by itself
        (&[], None),
        (&[&[]], None),
        (&[&[0]], Some(&[0])),
        // a chain, and a class that is read twice
        (&[&[1], &[2], &[]], None),
        (&[&[1, 2], &[3], &[3], &[]], None),
        // 0 leads to a cycle of 1 and 2
        (&[&[1], &[2], &[1]], Some(&[1, 2])),
        // 0 leads to the cycle of 3 and 4, and 2 lies on one with 1
        (&[&[3], &[2], &[1], &[4], &[3]], Some(&[1, 2])),
        // 0 is read from a cycle of 1, 3 and 2
        (&[&[], &[0, 3], &[1], &[2]], Some(&[1, 3, 2])),
        // two cycles through 0: the shorter one
        (&[&[1, 3], &[2], &[0], &[0]], Some(&[0, 3])),
        // a cycle leads from 2 to another of 1 and 4
        (&[&[], &[4], &[3], &[2, 1], &[1, 0]], Some(&[1, 4])),
    ];
    for (reads, expected) in cases {
        assert_eq!(rt; is_cycle(rt.alloc(), reads, expected), Ok(true));
    }
}
