// Reads a mesh's form on standard input and prints one line: that every walk ends at a nearest gauge, those to the box's corners among them, or why that is not said.
#![tactic(auto)]

pub mod corners;
pub mod line;
pub mod whole_sites;

ghost use Rattle.std.specs.Prelude.{◌≡◌, ◌≤◌, length, take};
ghost use Rattle.form.specs.Limits.{most_sites, most_coordinates};
ghost use Rattle.grid.specs.check.Promise.{grid_mesh};
ghost use Rattle.nearest.specs.whole_sites.Whole.{wholes_of};
ghost use Rattle.nearest.specs.Printed.{kind_line, with_box, answer_line, NearestTold, FormLine, NearestPrints};

use crate::line::Offence;
use base::numbers::EMPTY;
use form::{COORDINATES, HULL, LINKS};
use grid::nearest::check_nearest_lent;
use plane::given::Given;
use std::io;

// The line where nothing is refused.
fn kind_line(kind: u32, place: u32, unused: u32, corner: u32) -> Result<(), Offence>
    ensures { result ≡ kind_line kind place unused corner }
{
    if kind == 1 {
        return Err(Offence::Triangle(place));
    }
    if kind == 2 {
        return Err(Offence::Halfedge(place));
    }
    if kind == 3 {
        return Err(Offence::HullPlace(place));
    }
    if unused != EMPTY {
        return Err(Offence::Unused(unused));
    }
    if corner != 4 {
        return Err(Offence::Corner(corner));
    }
    Ok(())
}

// Rule 3 stands behind rule 1, and before all others: rule 2 is kept.
fn with_box(sound: bool, number: u32) -> u32
    ensures { result ≡ with_box sound number }
{
    if sound {
        return number;
    }
    if number == base::numbers::REFUSED_COUNT {
        return number;
    }
    base::numbers::REFUSED_BOX
}

fn line_of(
    number: u32,
    kind: u32,
    place: u32,
    unused: u32,
    corner: u32,
    beyond: usize,
) -> Result<(), Offence>
    requires { beyond ≤ most_sites }
    ensures { result ≡ answer_line number kind place unused corner beyond }
{
    if number == base::numbers::REFUSED_GRID {
        return Err(Offence::OffGrid(beyond as u32));
    }
    if number != 0 {
        return Err(Offence::Refused(number));
    }
    kind_line(kind, place, unused, corner)
}

// The line of a mesh of whole numbers in a box.
fn of_grid(
    given: Given,
    grid: &[i32],
    triangles: &[u32],
    halfedges: &[u32],
    hull: &[u32],
) -> Result<(), Offence>
    requires { length grid.now ≤ most_coordinates }
    ensures { NearestTold given (grid_mesh grid.now triangles.now halfedges.now hull.now) result }
{
    let mut work = [0u32; form::SITES];
    let mut kind = 0u32;
    let mut place = 0u32;
    let mut unused = 0u32;
    let number = check_nearest_lent(
        grid,
        triangles,
        halfedges,
        hull,
        &mut work,
        &mut kind,
        &mut place,
        &mut unused,
    );
    let beyond = grid::first_beyond(grid);
    let corner = crate::corners::off_corner(given.bounds);
    let boxed = with_box(given.sound, number);
    line_of(boxed, kind, place, unused, corner, beyond)
}

// The same of a mesh of floats.
fn of_mesh(
    given: Given,
    sites: &[f64],
    triangles: &[u32],
    halfedges: &[u32],
    hull: &[u32],
) -> Result<(), Offence>
    requires { length sites.now ≤ most_coordinates }
    ensures { NearestTold given (grid_mesh (wholes_of sites.now) triangles.now halfedges.now hull.now) result }
{
    let mut grid = [0i32; COORDINATES];
    let count = sites.len();
    crate::whole_sites::to_grid(sites, &mut grid);
    of_grid(given, &grid[..count], triangles, halfedges, hull)
}

// The line for a form's bytes.
fn of_form(bytes: &[u8]) -> Result<(), Offence>
    ensures { FormLine bytes.now result }
{
    let mut sites = [0.0f64; COORDINATES];
    let mut triangles = [0u32; LINKS];
    let mut halfedges = [0u32; LINKS];
    let mut hull = [0u32; HULL];
    match form::mesh::read(
        false,
        bytes,
        &mut sites,
        &mut triangles,
        &mut halfedges,
        &mut hull,
    ) {
        Ok(mesh) => of_mesh(
            mesh.given,
            &sites[..mesh.coordinates],
            &triangles[..mesh.links],
            &halfedges[..mesh.links],
            &hull[..mesh.hull],
        ),
        Err(broken) => Err(Offence::Refused(form::step::number_of(Err(broken)))),
    }
}

// What is printed for a form's bytes.
fn answer(bytes: &[u8], out: &mut [u8]) -> usize
    requires { 128 ≤ length out.old }
    ensures { NearestPrints bytes.now (take result out.new) × (result ≤ length out.old) }
{
    let l = of_form(bytes);
    crate::line::nearest_line(out, l)
}

fn main(rt: HostRuntime) -> io::Result<()> {
    let mut bytes = [0u8; form::BYTES];
    let mut out = [0u8; 128];
    let n = host::read_full(&mut rt.stdin(), &mut bytes);
    let m = answer(&bytes[..n], &mut out);
    rt.write_all(&out[..m])
}
