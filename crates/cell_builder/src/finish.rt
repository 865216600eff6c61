// The end of a build: the cells put in their places and the lost corners counted, or all slices cleared.
ghost use Rattle.std.specs.Prelude.{◌≡◌, ◌+◌, ◌≤◌, length};
ghost use Rattle.base.specs.numbers.Numbers.{EMPTY};
ghost use Rattle.definition.specs.Measures.{if_lost, lost_left};
ghost use Rattle.cell_builder.specs.finish.Finish.{RefusedCells, Finishable, FinishedCells, SettledCells};

use crate::placed::gather;
use base::numbers::EMPTY;
use cell_memory::layout::fill_from;
use cell_memory::outputs::clear_all;
use definition::{Fault, Reused};
use walks::shared::holds;

// How far the build is: the number of vertices, the owners of corners not yet wrapped, the points taken again, and its fault, whose number is 0 where there is none.
// The fault stands last, as the short fields of `clipping::Changed` do.
#[derive(Clone, Copy)]
pub struct Progress {
    pub count: usize,
    pub owners: [u32; 4],
    pub reused: Reused,
    pub fault: Fault,
}

// A build's answer beside the slices: the fault, the number of vertices, the owners as found, the lost corners, the points taken again.
#[derive(Clone, Copy)]
pub struct CellsAnswer {
    pub fault: Fault,
    pub count: usize,
    pub owners: [u32; 4],
    pub lost: u32,
    pub reused: Reused,
}

// The answer, and whether every fan was seen to be whole.
#[derive(Clone, Copy)]
pub struct Finished {
    pub answer: CellsAnswer,
    pub whole: bool,
}

// 1 where the corner of vertex v is lost: with its owner still, and in no cell.
fn lost_corner(entries: &[u32], v: u32, owner: u32) -> u32
    ensures { (result ≡ if_lost v owner entries.now) × (result ≤ 1) }
{
    if owner == EMPTY {
        return 0;
    }
    if holds(entries, v) {
        return 0;
    }
    1
}

// How many of the corners, the four vertices from `first` on, are lost. Only one that was not wrapped is searched for.
fn lost_corners(entries: &[u32], first: usize, left: [u32; 4]) -> u32
    requires { first + 4 ≤ EMPTY }
    ensures { result ≡ lost_left first left entries.now }
{
    let mut n: u32 = 0;
    for k in 0..4 {
        n += lost_corner(entries, (first + k) as u32, left[k]);
    }
    n
}

// The slices cleared, and a refusal's answer.
pub fn refuse(
    vertices: &mut [f64],
    indexes: &mut [u32],
    offsets: &mut [u32],
    fault: Fault,
) -> CellsAnswer
    ensures { RefusedCells fault vertices.old indexes.old offsets.old result
        vertices.new indexes.new offsets.new }
{
    clear_all(vertices, indexes, offsets);
    CellsAnswer {
        fault: fault,
        count: 0,
        owners: [EMPTY; 4],
        lost: 0,
        reused: Reused {
            extensions: 0,
            firsts: 0,
            seconds: 0,
        },
    }
}

// The cells put in their places, the vertices cleared past their count, and the answer with the owners as found and the corners lost; `centers` is the first corner's vertex.
fn finish(
    halfedges: &[u32],
    table: &[u32],
    marks: &[u8; 16384],
    vertices: &mut [f64],
    indexes: &mut [u32],
    offsets: &mut [u32],
    sites: usize,
    centers: usize,
    p: Progress,
    owners: [u32; 4],
) -> Finished
    requires { Finishable halfedges.now table.now marks.now sites centers p.count (length vertices.old) indexes.old offsets.old }
    ensures { FinishedCells halfedges.now table.now marks.now sites centers p owners
        vertices.old indexes.old offsets.old result vertices.new indexes.new offsets.new }
{
    let put = gather(halfedges, table, marks, indexes, offsets, sites, owners);
    fill_from(vertices, 2 * p.count, 0.0);
    let fault = p.fault;
    let left = p.owners;
    let reused = p.reused;
    Finished {
        answer: CellsAnswer {
            fault: fault,
            count: p.count,
            owners: owners,
            lost: lost_corners(&indexes[..put.used], centers, left),
            reused: reused,
        },
        whole: put.steps == halfedges.len(),
    }
}

// The answer by the fault: refused, the slices are cleared, else the cells are put in their places.
pub fn settle(
    halfedges: &[u32],
    table: &[u32],
    marks: &[u8; 16384],
    vertices: &mut [f64],
    indexes: &mut [u32],
    offsets: &mut [u32],
    sites: usize,
    centers: usize,
    p: Progress,
    owners: [u32; 4],
) -> Finished
    requires { p.fault.number ≡ 0 → Finishable halfedges.now table.now marks.now sites centers p.count (length vertices.old) indexes.old offsets.old }
    ensures { SettledCells halfedges.now table.now marks.now sites centers p owners
        vertices.old indexes.old offsets.old result vertices.new indexes.new offsets.new }
{
    let fault = p.fault;
    if fault.number != 0 {
        return Finished {
            answer: refuse(vertices, indexes, offsets, fault),
            whole: false,
        };
    }
    finish(
        halfedges, table, marks, vertices, indexes, offsets, sites, centers, p, owners,
    )
}
