//! What a path says of each Boolean and each variable, as tables that are made in one pass.

ghost use Rattle.std.specs.Prelude.{◌≡◌, reverse, slice_set, slice_index_or, IfOk};
ghost use Rattle.model_forces.specs.Paths.{tris_on, least_of, greatest_of};
ghost use Rattle.model_forces.specs.Tables.{
  listed,
  tris_after,
  no_ends as none_yet,
  tightened,
  ends_on,
  narrowed,
};

use crate::reading::of_half;
use gdp_tables::Tri;
use outcomes::Memory;
use proof_tree::{Half, Split};
use std::alloc::Global;

/// The ends that a path sets for a variable.
#[derive(Clone, Copy)]
pub(crate) struct Ends {
    /// The greatest number of a second half, which the variable exceeds.
    pub(crate) under: Option<i128>,
    /// The least number of a first half.
    pub(crate) high: Option<i128>,
}

/// What the halves make known of the first Booleans.
pub fn tris(alloc: Global, halves: &[Half], count: u32) -> Result<Vec<Tri>, Memory>
    ensures { IfOk result (λ tris. tris.items ≡ listed (tris_on (reverse halves.now)) 0 count) }
{
    let mut tris = opens(alloc, count)?;
    'halves: for half in halves {
        mark(&mut tris, half);
    }
    Ok(tris)
}

fn opens(alloc: Global, count: u32) -> Result<Vec<Tri>, Memory>
    ensures { IfOk result (λ tris. tris.items ≡ listed (λ k. Tri.Open) 0 count) }
{
    let mut tris = Vec::new(alloc);
    for id in 0..count {
        let _ = id;
        tris.push(Tri::Open)?;
    }
    Ok(tris)
}

fn mark(tris: &mut Vec<Tri>, half: &Half)
    ensures { tris.new.items ≡ tris_after half.now.split half.now.second tris.old.items }
{
    match half.split {
        Split::Int { column: _, at: _ } => {}
        Split::Truth { id } => put(tris, id, of_half(half.second)),
    }
}

fn put(tris: &mut Vec<Tri>, id: u32, tri: Tri)
    ensures { tris.new.items ≡ slice_set tris.old.items id tri }
{
    if (id as usize) < tris.len() {
        tris[id as usize] = tri;
    }
}

// The ends that the halves set for the first variables.
pub(crate) fn all_ends(alloc: Global, halves: &[Half], count: u32) -> Result<Vec<Ends>, Memory>
    ensures { IfOk result (λ ends. ends.items ≡ listed (ends_on (reverse halves.now)) 0 count) }
{
    let mut ends = no_ends(alloc, count)?;
    'halves: for half in halves {
        narrow(&mut ends, half);
    }
    Ok(ends)
}

fn no_ends(alloc: Global, count: u32) -> Result<Vec<Ends>, Memory>
    ensures { IfOk result (λ ends. ends.items ≡ listed (λ k. none_yet) 0 count) }
{
    let mut ends = Vec::new(alloc);
    for column in 0..count {
        let _ = column;
        ends.push(Ends {
            under: None,
            high: None,
        })?;
    }
    Ok(ends)
}

fn narrow(ends: &mut Vec<Ends>, half: &Half)
    ensures { ends.new.items ≡ narrowed half.now.split half.now.second ends.old.items }
{
    match half.split {
        Split::Truth { id: _ } => {}
        Split::Int { column, at } => tighten(ends, column, half.second, at),
    }
}

fn tighten(ends: &mut Vec<Ends>, column: u32, second: bool, at: i128)
    ensures { ends.new.items ≡ slice_set ends.old.items column (tightened (slice_index_or ends.old.items column none_yet) second at) }
{
    if (column as usize) < ends.len() {
        let before = ends[column as usize];
        ends[column as usize] = tighter(before, second, at);
    }
}

fn tighter(ends: Ends, second: bool, at: i128) -> Ends
    ensures { result ≡ tightened ends second at }
{
    if second {
        Ends {
            under: Some(greatest(at, ends.under)),
            high: ends.high,
        }
    } else {
        Ends {
            under: ends.under,
            high: Some(least(at, ends.high)),
        }
    }
}

fn greatest(at: i128, before: Option<i128>) -> i128
    ensures { result ≡ greatest_of at before }
{
    match before {
        None => at,
        Some(before) => { if at <= before { before } else { at } }
    }
}

fn least(at: i128, before: Option<i128>) -> i128
    ensures { result ≡ least_of at before }
{
    match before {
        None => at,
        Some(before) => { if at <= before { at } else { before } }
    }
}
