//! Frames of copies.

ghost use Rattle.std.specs.Prelude.{◌≡◌, ◌+◌, ◌*◌, ◌≤◌, ◌^◌, [], length, IfOk};
ghost use Rattle.block_tree.specs.View.{disjuncts_of};
ghost use Rattle.hull_rewrite.specs.Copies.{place};
ghost use Rattle.hull_rewrite.specs.Expanded.{listed_frame, frames_from};

use block_tree::Disjunct;
use outcomes::Memory;
use std::alloc::Global;
use std::marker::Model;

/// The column of each variable.
#[derive(Drop)]
pub struct Frame {
    columns: Vec<u32>,
}

impl Model for Frame {
    ghost use Rattle.std.specs.Prelude.{ℕ, List};

    ghost Value = { List ℕ };

    ghost view = { λ f. f.columns.items };
}

impl Frame {
    /// The columns.
    pub fn columns(&self) -> &[u32]
        ensures { result.now ≡ self.now }
    {
        self.columns.as_slice()
    }
}

/// The frame of each disjunct.
#[derive(Drop)]
pub struct FrameList {
    frames: Vec<Frame>,
}

impl Model for FrameList {
    ghost use Rattle.std.specs.Prelude.{ℕ, List};

    ghost Value = { List (List ℕ) };

    ghost view = { λ f. f.frames.items };
}

impl FrameList {
    /// No frames.
    pub fn new(alloc: Global) -> FrameList
        ensures { result ≡ [] }
    {
        FrameList {
            frames: Vec::new(alloc),
        }
    }

    /// The frames.
    pub fn as_slice(&self) -> &[Frame]
        ensures { result.now ≡ self.now }
    {
        self.frames.as_slice()
    }
}

// The column of a variable, where those of the list stand from a column on.
fn place_of(vars: &[u32], start: u32, var: u32) -> u32
    requires few { length vars.now ≤ 2 ^ 30 }
    requires start { start ≤ 2 ^ 31 }
    ensures { result ≡ place vars.now start var }
{
    let mut at = start;
    for other in vars {
        if var == *other {
            return at;
        }
        at += 1;
    }
    at
}

// The frame of copies that stand from a column on.
fn frame_from(alloc: Global, count: usize, vars: &[u32], start: u32) -> Result<Frame, Memory>
    requires count { count ≤ 2 ^ 30 }
    requires few { length vars.now ≤ 2 ^ 30 }
    requires start { start ≤ 2 ^ 31 }
    ensures { IfOk result (λ frame. frame ≡ listed_frame count (place vars.now start)) }
{
    let mut columns = Vec::new(alloc);
    for var in 0..count {
        if columns.push(place_of(vars, start, var as u32)).is_err() {
            return Err(Memory);
        }
    }
    Ok(Frame { columns })
}

// The frame of copies for each disjunct, the first of which stand from a column on.
pub(crate) fn frames_of(
    alloc: Global,
    count: usize,
    vars: &[u32],
    disjuncts: &[Disjunct],
    start: u32,
) -> Result<FrameList, Memory>
    requires count { count ≤ 2 ^ 30 }
    requires few { length vars.now ≤ 2 ^ 20 }
    requires fits { start + length vars.now * length disjuncts.now ≤ 2 ^ 20 }
    ensures { IfOk result (λ frames. frames ≡ frames_from count vars.now start (disjuncts_of disjuncts.now)) }
{
    let mut frames = Vec::new(alloc);
    let mut at = start;
    for _disjunct in disjuncts {
        let Ok(frame) = frame_from(alloc, count, vars, at) else {
            return Err(Memory);
        };
        if frames.push(frame).is_err() {
            return Err(Memory);
        }
        at += vars.len() as u32;
    }
    Ok(FrameList { frames })
}
