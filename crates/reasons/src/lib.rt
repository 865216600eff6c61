// The one reason why a mesh is refused, a cell is empty or a neighbour is gone: as an enum, as numbers, and what was asked answered over a build's slices.

#![tactic(auto)]

pub mod call;
pub mod explaining;
pub mod asked; // asked.rt: what was asked, answered

ghost use Rattle.std.specs.Prelude.{◌≡◌, ◌<◌};
ghost use Rattle.base.specs.numbers.Numbers.{EMPTY};
ghost use Rattle.reasons.specs.Reason.{of_mesh, fault_place, of_fault, tells, told_by};

use base::numbers::EMPTY;
use definition::Fault;
use mesh::MeshFault;

// Nothing wrong; a refusal's number alone; a refusal with its site, triangle, half-edge or hull place; with the cell and the ring edge's two vertices;
// an empty cell whose site is in no triangle, or whose every try gave nothing; a dropped neighbour: the two sites and how many entries they share.
#[derive(Clone, Copy)]
pub enum Reason {
    NoFault,
    Number(u32),
    AtSite(u32, u32),
    AtTriangle(u32, u32),
    AtHalfEdge(u32, u32),
    AtHullPlace(u32, u32),
    AtEdge(u32, u32, u32, u32),
    Unused(u32),
    TriesEmpty(u32),
    Dropped(u32, u32, u32),
}

// Nothing, the cell of a site, or the second of two sites as a neighbour of the first.
#[derive(Clone, Copy)]
pub enum Question {
    Nothing,
    About(u32),
    Between(u32, u32),
}

// A reason as numbers: the refusal's, 0 where nothing is refused, the kind, and the places, `EMPTY` where the kind has none.
#[derive(Clone, Copy)]
pub struct ReasonNumbers {
    pub number: u32,
    pub kind: u32,
    pub place: u32,
    pub from: u32,
    pub to: u32,
}

fn with_place(number: u32, kind: u32, place: u32) -> ReasonNumbers
    ensures { result ≡ tells number kind place EMPTY EMPTY }
{
    ReasonNumbers {
        number,
        kind,
        place,
        from: EMPTY,
        to: EMPTY,
    }
}

// The numbers of each reason.
pub fn tell(r: Reason) -> ReasonNumbers
    ensures { result ≡ told_by r }
{
    match r {
        Reason::NoFault => with_place(0, 0, EMPTY),
        Reason::Number(n) => with_place(n, 1, EMPTY),
        Reason::AtSite(n, s) => with_place(n, 2, s),
        Reason::AtTriangle(n, t) => with_place(n, 3, t),
        Reason::AtHalfEdge(n, e) => with_place(n, 4, e),
        Reason::AtHullPlace(n, i) => with_place(n, 5, i),
        Reason::AtEdge(n, s, p, q) => ReasonNumbers {
            number: n,
            kind: 6,
            place: s,
            from: p,
            to: q,
        },
        Reason::Unused(s) => with_place(0, 7, s),
        Reason::TriesEmpty(s) => with_place(0, 8, s),
        Reason::Dropped(_, _, k) => with_place(0, 9, k),
    }
}

fn narrow(n: usize) -> u32
    requires { n < 4294967296 }
    ensures { result ≡ n }
{
    n as u32
}

// What the check of a mesh answers.
pub fn of_mesh(f: Result<(), MeshFault>) -> Reason
    requires { fault_place f < 4294967296 }
    ensures { result ≡ of_mesh f }
{
    match f {
        Ok(()) => Reason::NoFault,
        Err(MeshFault::Counts) => Reason::Number(base::numbers::REFUSED_COUNT),
        Err(MeshFault::Room) => Reason::Number(base::numbers::REFUSED_ROOM),
        Err(MeshFault::Coordinate(s)) => Reason::AtSite(
            base::numbers::REFUSED_COORDINATE,
            narrow(s),
        ),
        Err(MeshFault::Triangle(t)) => Reason::AtTriangle(
            base::numbers::REFUSED_TRIANGLE,
            narrow(t),
        ),
        Err(MeshFault::Pairing(e)) => Reason::AtHalfEdge(base::numbers::REFUSED_PAIRING, narrow(e)),
        Err(MeshFault::HullPlace(i)) => Reason::AtHullPlace(base::numbers::REFUSED_HULL, narrow(i)),
        Err(MeshFault::HullEdge(e)) => Reason::AtHalfEdge(base::numbers::REFUSED_HULL, narrow(e)),
        Err(MeshFault::BrokenFan(s)) => Reason::AtSite(base::numbers::REFUSED_FAN, narrow(s)),
    }
}

// What the builder met; its number is 0 where it met nothing.
pub fn of_fault(f: Fault) -> Reason
    ensures { result ≡ of_fault f }
{
    if f.number == 0 {
        return Reason::NoFault;
    }
    if f.number == base::numbers::REFUSED_CIRCUMCENTER {
        return Reason::AtTriangle(f.number, f.place);
    }
    if f.number == base::numbers::REFUSED_EXTENSION {
        return Reason::AtHullPlace(f.number, f.place);
    }
    Reason::AtEdge(f.number, f.place, f.from, f.to)
}
