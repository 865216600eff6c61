// Writes the line of `why` for a reason into a lent slice of bytes.
ghost use Rattle.octets.specs.Wrote.{Wrote, HasRoom};
ghost use Rattle.why.specs.line.ReasonLine.{place_line, edge_ends, edge_line, empty_line, dropped_line, reason_line};

use octets::put;
use printing::parts::{entry, labelled};
use reasons::Reason;

// A refusal with its place, which the label names.
fn with_place(out: &mut [u8], number: u32, label: &[u8], place: u32) -> usize
    requires { HasRoom out.old 0 (place_line number label.now place) }
    ensures { Wrote out.old out.new 0 result (place_line number label.now place) }
{
    let a = labelled(out, 0, b"refused", number);
    let b = labelled(out, a, label, place);
    put(out, b, b"\n")
}

fn edge_ends(out: &mut [u8], at: usize, from: u32, to: u32) -> usize
    requires { HasRoom out.old at (edge_ends from to) }
    ensures { Wrote out.old out.new at result (edge_ends from to) }
{
    let a = labelled(out, at, b" from", from);
    let b = labelled(out, a, b" to", to);
    put(out, b, b"\n")
}

// A refusal at an edge of a cell's ring.
fn at_edge(out: &mut [u8], number: u32, cell: u32, from: u32, to: u32) -> usize
    requires { HasRoom out.old 0 (edge_line number cell from to) }
    ensures { Wrote out.old out.new 0 result (edge_line number cell from to) }
{
    let a = labelled(out, 0, b"refused", number);
    let b = labelled(out, a, b": cell", cell);
    edge_ends(out, b, from, to)
}

// An empty cell, and why.
fn empty_cell(out: &mut [u8], site: u32, why: &[u8]) -> usize
    requires { HasRoom out.old 0 (empty_line site why.now) }
    ensures { Wrote out.old out.new 0 result (empty_line site why.now) }
{
    let a = labelled(out, 0, b"empty", site);
    put(out, a, why)
}

fn dropped(out: &mut [u8], site: u32, neighbour: u32, shared: u32) -> usize
    requires { HasRoom out.old 0 (dropped_line site neighbour shared) }
    ensures { Wrote out.old out.new 0 result (dropped_line site neighbour shared) }
{
    let a = labelled(out, 0, b"dropped", site);
    let b = entry(out, a, neighbour);
    let c = labelled(out, b, b":", shared);
    put(out, c, b" shared\n")
}

// The line of a reason.
pub fn reason_line(out: &mut [u8], r: Reason) -> usize
    requires { HasRoom out.old 0 (reason_line r) }
    ensures { Wrote out.old out.new 0 result (reason_line r) }
{
    match r {
        Reason::NoFault => put(out, 0, b"no fault\n"),
        Reason::Number(n) => printing::parts::refusal(out, n),
        Reason::AtSite(n, s) => with_place(out, n, b": site", s),
        Reason::AtTriangle(n, t) => with_place(out, n, b": triangle", t),
        Reason::AtHalfEdge(n, e) => with_place(out, n, b": half-edge", e),
        Reason::AtHullPlace(n, i) => with_place(out, n, b": hull place", i),
        Reason::AtEdge(n, s, p, q) => at_edge(out, n, s, p, q),
        Reason::Unused(s) => empty_cell(out, s, b": in no triangle\n"),
        Reason::TriesEmpty(s) => empty_cell(out, s, b": every try gave nothing\n"),
        Reason::Dropped(s, t, k) => dropped(out, s, t, k),
    }
}
