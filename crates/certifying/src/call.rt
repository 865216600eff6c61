// The certificate: the first fault of the pieces as they lie, by the rules in their order, in lent work.
ghost use Rattle.std.specs.Prelude.{◌≡◌, ◌*◌, ◌/◌, ◌≤◌, ◌<◌, length};
ghost use Rattle.base.specs.refusal.Number.{number_of};
ghost use Rattle.plane.specs.given.Finite.{Fits};
ghost use Rattle.auditing.specs.Steps.{OutsideNamed};
ghost use Rattle.certifying.specs.sides.Sides.{side_count};
ghost use Rattle.certifying.specs.call.Verdict.{certify_far, certify_twin, twin_stage, certify_nearer, near_stage, border_stage, site_of_side, certify_side, side_stage};
ghost use Rattle.certifying.specs.call.Verdict.{certify_outside, certify_on};
ghost use Rattle.certifying.specs.call.Steps.{NearNamed, JudgeSafe, SideNamed, SidesChained, VerdictTold, CertifyJudged, RefusedAnswer};
ghost use Rattle.certifying.specs.call.Promise.{CertifyAnswer};

use crate::nearer::{first_site_nearer, no_others};
use crate::sides::{first_surplus, insert_all, left_once};
use crate::tree::narrow;
use crate::twins::first_site_twin;
use crate::windows::greater;
use auditing::corners::{entry_outside, first_site_outside};
use auditing::nearer::{first_beyond, first_nearer};
use auditing::places::twin_of;
use base::numbers::{EMPTY, REFUSED_TRIANGLE, wide};
use base::refusal::Refusal;
use plane::boxes::BoundingBox;
use plane::given::Given;

// A corner of a site's piece is outside; a side of it comes more often than the same side back; the corner of the box is not left once; a corner is nearer to another site; a site stands
// where one before it does. Each has the site, the vertex and the other site, as far as it names them.
#[derive(Clone, Copy, Debug, PartialEq, Eq)]
pub enum CertifyFault {
    Outside(u32, u32),
    Surplus(u32, u32),
    Border,
    Nearer(u32, u32, u32),
    Twin(u32, u32),
}

// 2^-bits of the largest magnitude of the four edges.
pub fn far(bounds: BoundingBox, bits: u64) -> f64
    requires { bits ≤ 52 }
    ensures { result ≡ certify_far bounds bits }
{
    let x = greater(root::magnitude(bounds.left), root::magnitude(bounds.top));
    let y = greater(
        root::magnitude(bounds.right),
        root::magnitude(bounds.bottom),
    );
    greater(x, y) * auditing::nearer::tolerance(bits)
}

fn name_twin(sites: &[f64], s: usize) -> CertifyFault
    requires { (s < length sites.now / 2) × (length sites.now / 2 ≤ 65536) }
    ensures { result ≡ certify_twin sites.now s }
{
    CertifyFault::Twin(narrow(s), twin_of(sites, s))
}

// The fifth fault, or none. What the work held is no longer needed.
fn judge_twins(work: &mut [u32], sites: &[f64]) -> Result<(), CertifyFault>
    requires { (2 * (length sites.now / 2) ≤ length work.old) × (length sites.now / 2 ≤ 65536) }
    ensures { (result ≡ twin_stage sites.now) × (length work.new ≡ length work.old) }
{
    let s = first_site_twin(sites, work);
    if s < sites.len() / 2 {
        return Err(name_twin(sites, s));
    }
    Ok(())
}

fn name_nearer(
    far: f64,
    sites: &[f64],
    vertices: &[f64],
    offsets: &[u32],
    indexes: &[u32],
    s: usize,
) -> CertifyFault
    requires { NearNamed far sites.now vertices.now offsets.now indexes.now s }
    ensures { result ≡ certify_nearer far sites.now vertices.now offsets.now indexes.now s }
{
    let none = no_others(indexes);
    let entries = walks::shared::cell(offsets, indexes, s);
    let k = first_nearer(far, sites, s, none, true, vertices, entries);
    let e = entries[k];
    let o = first_beyond(
        far,
        plane::points::point_at(vertices, wide(e)),
        sites,
        s,
        none,
        true,
    );
    CertifyFault::Nearer(narrow(s), e, narrow(o))
}

// The fourth fault, then the fifth. What the work held is no longer needed.
fn judge_nearer(
    work: &mut [u32],
    bounds: BoundingBox,
    bits: u32,
    sites: &[f64],
    vertices: &[f64],
    offsets: &[u32],
    indexes: &[u32],
) -> Result<(), CertifyFault>
    requires { JudgeSafe bounds bits sites.now vertices.now offsets.now indexes.now work.old }
    ensures { (result ≡ near_stage (certify_far bounds bits) sites.now vertices.now offsets.now indexes.now)
        × (length work.new ≡ length work.old) }
{
    let f = far(bounds, u64::from(bits));
    let s = first_site_nearer(f, sites, vertices, offsets, indexes, work);
    if s < sites.len() / 2 {
        return Err(name_nearer(f, sites, vertices, offsets, indexes, s));
    }
    judge_twins(work, sites)
}

// The third, then the fourth: the sides are chained in the work.
fn judge_border(
    work: &mut [u32],
    bounds: BoundingBox,
    bits: u32,
    sites: &[f64],
    vertices: &[f64],
    offsets: &[u32],
    indexes: &[u32],
    count: usize,
) -> Result<(), CertifyFault>
    requires { JudgeSafe bounds bits sites.now vertices.now offsets.now indexes.now work.old × SidesChained vertices.now offsets.now indexes.now count work.old }
    ensures { (result ≡ border_stage bounds bits sites.now vertices.now offsets.now indexes.now)
        × (length work.new ≡ length work.old) }
{
    if !left_once(work, vertices, indexes, bounds, count) {
        return Err(CertifyFault::Border);
    }
    judge_nearer(work, bounds, bits, sites, vertices, offsets, indexes)
}

// The first of so many sites whose ring ends after entry e, or their number.
fn site_of_side(offsets: &[u32], count: usize, e: usize) -> usize
    requires { count < length offsets.now }
    ensures { result ≡ site_of_side offsets.now count e }
{
    (0..count)
        .find(|&s| e < wide(offsets[s + 1]))
        .unwrap_or(count)
}

fn name_side(sites: &[f64], offsets: &[u32], indexes: &[u32], e: usize) -> CertifyFault
    requires { SideNamed sites.now offsets.now indexes.now e }
    ensures { result ≡ certify_side sites.now offsets.now indexes.now e }
{
    let s = site_of_side(offsets, sites.len() / 2, e);
    CertifyFault::Surplus(narrow(s), indexes[e])
}

// The second, then the third: the sides are chained in the work.
fn judge_chained(
    work: &mut [u32],
    bounds: BoundingBox,
    bits: u32,
    sites: &[f64],
    vertices: &[f64],
    offsets: &[u32],
    indexes: &[u32],
    count: usize,
) -> Result<(), CertifyFault>
    requires { JudgeSafe bounds bits sites.now vertices.now offsets.now indexes.now work.old × SidesChained vertices.now offsets.now indexes.now count work.old }
    ensures { (result ≡ side_stage bounds bits sites.now vertices.now offsets.now indexes.now)
        × (length work.new ≡ length work.old) }
{
    let e = first_surplus(work, vertices, indexes, bounds, count);
    if e < count {
        return Err(name_side(sites, offsets, indexes, e));
    }
    judge_border(work, bounds, bits, sites, vertices, offsets, indexes, count)
}

// How many sides there are.
fn side_count(offsets: &[u32]) -> usize
    requires { 0 < length offsets.now }
    ensures { result ≡ side_count offsets.now }
{
    let last = offsets.len() - 1;
    wide(offsets[last])
}

// The second, from sides that are not chained yet.
fn judge_sides(
    work: &mut [u32],
    bounds: BoundingBox,
    bits: u32,
    sites: &[f64],
    vertices: &[f64],
    offsets: &[u32],
    indexes: &[u32],
) -> Result<(), CertifyFault>
    requires { JudgeSafe bounds bits sites.now vertices.now offsets.now indexes.now work.old }
    ensures { (result ≡ side_stage bounds bits sites.now vertices.now offsets.now indexes.now)
        × (length work.new ≡ length work.old) }
{
    let count = side_count(offsets);
    insert_all(work, vertices, offsets, indexes, count);
    judge_chained(work, bounds, bits, sites, vertices, offsets, indexes, count)
}

fn name_outside(
    bounds: BoundingBox,
    vertices: &[f64],
    offsets: &[u32],
    indexes: &[u32],
    s: usize,
) -> CertifyFault
    requires { OutsideNamed bounds vertices.now offsets.now indexes.now s }
    ensures { result ≡ certify_outside bounds vertices.now offsets.now indexes.now s }
{
    CertifyFault::Outside(
        narrow(s),
        entry_outside(bounds, vertices, offsets, indexes, s),
    )
}

// The verdict on arguments that are not refused.
pub fn verdict(
    work: &mut [u32],
    bounds: BoundingBox,
    bits: u32,
    sites: &[f64],
    vertices: &[f64],
    offsets: &[u32],
    indexes: &[u32],
) -> Result<(), CertifyFault>
    requires { JudgeSafe bounds bits sites.now vertices.now offsets.now indexes.now work.old }
    ensures { (result ≡ certify_on bounds bits sites.now vertices.now offsets.now indexes.now)
        × (length work.new ≡ length work.old) }
{
    let s = first_site_outside(bounds, vertices, offsets, indexes);
    if s < sites.len() / 2 {
        return Err(name_outside(bounds, vertices, offsets, indexes, s));
    }
    judge_sides(work, bounds, bits, sites, vertices, offsets, indexes)
}

#[derive(Clone, Copy)]
pub struct CertifyNumbers {
    pub number: u32,
    pub kind: u32,
    pub site: u32,
    pub vertex: u32,
    pub other: u32,
}

fn told(kind: u32, site: u32, vertex: u32, other: u32) -> CertifyNumbers
    ensures { (result.number ≡ 0) × (result.kind ≡ kind) × (result.site ≡ site) × (result.vertex ≡ vertex) × (result.other ≡ other) }
{
    CertifyNumbers {
        number: 0,
        kind,
        site,
        vertex,
        other,
    }
}

// The numbers of a verdict, EMPTY where it names none.
fn tell(verdict: Result<(), CertifyFault>) -> CertifyNumbers
    ensures { VerdictTold verdict result.number result.kind result.site result.vertex result.other }
{
    match verdict {
        Ok(()) => told(0, EMPTY, EMPTY, EMPTY),
        Err(CertifyFault::Outside(site, vertex)) => told(1, site, vertex, EMPTY),
        Err(CertifyFault::Surplus(site, vertex)) => told(2, site, vertex, EMPTY),
        Err(CertifyFault::Border) => told(3, EMPTY, EMPTY, EMPTY),
        Err(CertifyFault::Nearer(site, vertex, other)) => told(4, site, vertex, other),
        Err(CertifyFault::Twin(site, other)) => told(5, site, EMPTY, other),
    }
}

// The verdict, unless it is refused; then the work is as it was.
fn judge(
    work: &mut [u32],
    given: Given,
    bits: u32,
    sites: &[f64],
    vertices: &[f64],
    offsets: &[u32],
    indexes: &[u32],
) -> Result<Result<(), CertifyFault>, Refusal>
    requires { Fits given }
    ensures { CertifyJudged given sites.now vertices.now offsets.now indexes.now bits work.old work.new result }
{
    crate::rules::ask(
        given.sound,
        sites,
        vertices,
        offsets,
        indexes,
        bits,
        work.len(),
    )?;
    Ok(verdict(work, given.bounds, bits, sites, vertices, offsets, indexes))
}

// Beside a refusal: the work as it was up to 6, cleared from 16 on.
fn refuse(refusal: Refusal, work: &mut [u32]) -> CertifyNumbers
    ensures { RefusedAnswer (number_of refusal) work.old work.new result.number result.kind result.site result.vertex result.other }
{
    let number = u32::from(refusal);
    if REFUSED_TRIANGLE <= number {
        mesh::clear(work);
    }
    CertifyNumbers {
        number,
        kind: EMPTY,
        site: EMPTY,
        vertex: EMPTY,
        other: EMPTY,
    }
}

// In the given box, in numbers.
pub fn certify(
    given: Given,
    sites: &[f64],
    vertices: &[f64],
    offsets: &[u32],
    indexes: &[u32],
    bits: u32,
    work: &mut [u32],
) -> CertifyNumbers
    requires { Fits given }
    ensures { CertifyAnswer given sites.now vertices.now offsets.now indexes.now bits work.old work.new
        result.number result.kind result.site result.vertex result.other }
{
    match judge(work, given, bits, sites, vertices, offsets, indexes) {
        Ok(verdict) => {
            mesh::clear(work);
            tell(verdict)
        }
        Err(refusal) => refuse(refusal, work),
    }
}
