// The audit: the first fault of the pieces as they lie, by the rules in their order, and the share of the box that is missing.

#![tactic(auto)]

pub mod corners;
pub mod limit;
pub mod nearer;
pub mod places;
pub mod rings;
pub mod rules;
pub mod total;

ghost use Rattle.std.specs.Prelude.{◌≡◌, true, ℕ, ◌/◌, ◌^◌, ◌≤◌, ◌<◌, length, Err};
ghost use Rattle.plane.specs.boxes.Finite.{BoundedBox};
ghost use Rattle.plane.specs.given.Finite.{Fits};
ghost use Rattle.ring_area.specs.long.Amount.{amount};
ghost use Rattle.ring_area.specs.limits.Long.{LongOf};
ghost use Rattle.auditing.specs.rules.Kept.{AuditKept};
ghost use Rattle.auditing.specs.Verdict.{audit_kind, audit_site, audit_vertex, audit_other, twin_verdict, places_stage, total_stage, nearer_verdict, nearer_stage, outside_verdict, outside_stage};
ghost use Rattle.auditing.specs.Verdict.{rings_stage, verdict_on};
ghost use Rattle.auditing.specs.total.Total.{missing_of};
ghost use Rattle.auditing.specs.nearer.Steps.{HeldKept, PiecesKept};
ghost use Rattle.auditing.specs.Promise.{AuditAnswer};
ghost use Rattle.auditing.specs.Steps.{NearerNamed, OutsideNamed, ToldOf, AuditJudged};

use crate::corners::{entry_outside, first_site_outside};
use crate::nearer::{first_beyond, first_nearer, first_site_nearer, held, no_lists, other_at};
use crate::places::{first_site_twin, twin_of};
use base::numbers::{EMPTY, wide};
use base::refusal::Refusal;
use plane::boxes::BoundingBox;
use plane::given::Given;

// Why pieces are not what they should be: the ring of a site folds; a corner of a site's piece is outside; it is nearer to another site; the total is not the box's;
// a site stands where one before it does.
#[derive(Clone, Copy, Debug, PartialEq, Eq)]
pub enum AuditFault {
    Ring(u32),
    Outside(u32, u32),
    Nearer(u32, u32, u32),
    Uncovered,
    Twin(u32, u32),
}

// The first fault, and the share of the box that is missing.
#[derive(Clone, Copy)]
pub struct AuditJudgement {
    pub verdict: Result<(), AuditFault>,
    pub missing: f64,
}

// The numbers that a C caller is told.
#[derive(Clone, Copy)]
pub struct AuditNumbers {
    pub number: u32,
    pub kind: u32,
    pub site: u32,
    pub vertex: u32,
    pub other: u32,
    pub missing: f64,
}

// The kind of a verdict, the site, the vertex and the other site that it names.
fn numbers_of(v: Result<(), AuditFault>) -> (u32, u32, u32, u32)
    ensures { result ≡ (audit_kind v, audit_site v, audit_vertex v, audit_other v) }
{
    match v {
        Ok(()) => (0, EMPTY, EMPTY, EMPTY),
        Err(AuditFault::Ring(s)) => (1, s, EMPTY, EMPTY),
        Err(AuditFault::Outside(s, e)) => (2, s, e, EMPTY),
        Err(AuditFault::Nearer(s, e, o)) => (3, s, e, o),
        Err(AuditFault::Uncovered) => (4, EMPTY, EMPTY, EMPTY),
        Err(AuditFault::Twin(s, o)) => (5, s, EMPTY, o),
    }
}

// A site's number.
fn narrow(x: usize) -> u32
    requires { x < 65536 }
    ensures { result ≡ x }
{
    x as u32
}

fn name_twin(sites: &[f64], s: usize) -> AuditFault
    requires { (s < length sites.now / 2) × (length sites.now / 2 ≤ 65536) }
    ensures { Err result ≡ twin_verdict sites.now s }
{
    AuditFault::Twin(narrow(s), twin_of(sites, s))
}

// The fifth fault, or none.
fn judge_places(sites: &[f64]) -> Result<(), AuditFault>
    requires { length sites.now / 2 ≤ 65536 }
    ensures { result ≡ places_stage sites.now }
{
    let s = first_site_twin(sites);
    if s < sites.len() / 2 {
        return Err(name_twin(sites, s));
    }
    Ok(())
}

// The fourth, then the fifth.
fn judge_total(whole: bool, sites: &[f64]) -> Result<(), AuditFault>
    requires { length sites.now / 2 ≤ 65536 }
    ensures { result ≡ total_stage whole sites.now }
{
    if !whole {
        return Err(AuditFault::Uncovered);
    }
    judge_places(sites)
}

fn name_nearer(
    far: f64,
    sites: &[f64],
    starts: &[u32],
    others: &[u32],
    vertices: &[f64],
    offsets: &[u32],
    indexes: &[u32],
    s: usize,
) -> AuditFault
    requires { NearerNamed far sites.now starts.now others.now vertices.now offsets.now indexes.now s }
    ensures { Err result ≡ nearer_verdict far sites.now starts.now others.now vertices.now offsets.now indexes.now s }
{
    let all = no_lists(starts, others);
    let part = held(starts, others, s);
    let entries = walks::shared::cell(offsets, indexes, s);
    let k = first_nearer(far, sites, s, part, all, vertices, entries);
    let e = entries[k];
    let j = first_beyond(
        far,
        plane::points::point_at(vertices, wide(e)),
        sites,
        s,
        part,
        all,
    );
    let o = other_at(all, part, j);
    AuditFault::Nearer(narrow(s), e, narrow(o))
}

// The third fault, then the fourth.
fn judge_nearer(
    whole: bool,
    far: f64,
    sites: &[f64],
    starts: &[u32],
    others: &[u32],
    vertices: &[f64],
    offsets: &[u32],
    indexes: &[u32],
) -> Result<(), AuditFault>
    requires { HeldKept sites.now starts.now others.now × PiecesKept sites.now vertices.now offsets.now indexes.now × (length sites.now / 2 ≤ 65536) }
    ensures { result ≡ nearer_stage whole far sites.now starts.now others.now vertices.now offsets.now indexes.now }
{
    let s = first_site_nearer(far, sites, starts, others, vertices, offsets, indexes);
    if s < sites.len() / 2 {
        return Err(name_nearer(far, sites, starts, others, vertices, offsets, indexes, s));
    }
    judge_total(whole, sites)
}

fn name_outside(
    bounds: BoundingBox,
    vertices: &[f64],
    offsets: &[u32],
    indexes: &[u32],
    s: usize,
) -> AuditFault
    requires { OutsideNamed bounds vertices.now offsets.now indexes.now s }
    ensures { Err result ≡ outside_verdict bounds vertices.now offsets.now indexes.now s }
{
    AuditFault::Outside(
        narrow(s),
        entry_outside(bounds, vertices, offsets, indexes, s),
    )
}

// The second, then the third.
fn judge_outside(
    whole: bool,
    bounds: BoundingBox,
    bits: u32,
    sites: &[f64],
    starts: &[u32],
    others: &[u32],
    vertices: &[f64],
    offsets: &[u32],
    indexes: &[u32],
) -> Result<(), AuditFault>
    requires { AuditKept true sites.now vertices.now offsets.now indexes.now starts.now others.now bits }
    ensures { result ≡ outside_stage whole bounds bits sites.now starts.now others.now vertices.now offsets.now indexes.now }
{
    let s = first_site_outside(bounds, vertices, offsets, indexes);
    if s < sites.len() / 2 {
        return Err(name_outside(bounds, vertices, offsets, indexes, s));
    }
    let far = crate::nearer::far(bounds, broad(bits));
    judge_nearer(
        whole, far, sites, starts, others, vertices, offsets, indexes,
    )
}

fn broad(x: u32) -> u64
    ensures { result ≡ x }
{
    x as u64
}

// The first, then the second.
fn judge_rings(
    whole: bool,
    limit: &[u64],
    bounds: BoundingBox,
    bits: u32,
    sites: &[f64],
    starts: &[u32],
    others: &[u32],
    vertices: &[f64],
    offsets: &[u32],
    indexes: &[u32],
) -> Result<(), AuditFault>
    requires { LongOf limit.now (amount limit.now) × AuditKept true sites.now vertices.now offsets.now indexes.now starts.now others.now bits }
    ensures { (box : ℕ) → amount limit.now ≡ box / 2 ^ bits
        → result ≡ rings_stage box whole bounds bits sites.now starts.now others.now vertices.now offsets.now indexes.now }
{
    let s = crate::rings::first_folded(limit, vertices, offsets, indexes);
    if s < sites.len() / 2 {
        return Err(AuditFault::Ring(narrow(s)));
    }
    judge_outside(
        whole, bounds, bits, sites, starts, others, vertices, offsets, indexes,
    )
}

// The verdict on arguments that are not refused, and the missing share.
pub fn verdict(
    bounds: BoundingBox,
    sites: &[f64],
    vertices: &[f64],
    offsets: &[u32],
    indexes: &[u32],
    starts: &[u32],
    others: &[u32],
    bits: u32,
) -> AuditJudgement
    requires { BoundedBox 101 bounds × AuditKept true sites.now vertices.now offsets.now indexes.now starts.now others.now bits }
    ensures { (result.verdict ≡ verdict_on bounds bits sites.now starts.now others.now vertices.now offsets.now indexes.now)
        × (result.missing ≡ missing_of bounds vertices.now offsets.now indexes.now) }
{
    let limit = crate::limit::limit(bounds, wide(bits));
    let share = crate::total::total(bounds, &limit, vertices, offsets, indexes);
    let v = judge_rings(
        share.is_ok(),
        &limit,
        bounds,
        bits,
        sites,
        starts,
        others,
        vertices,
        offsets,
        indexes,
    );
    let missing = match share {
        Ok(m) => m,
        Err(m) => m,
    };
    AuditJudgement {
        verdict: v,
        missing,
    }
}

// In the given box, unless it is refused.
fn judge(
    given: Given,
    sites: &[f64],
    vertices: &[f64],
    offsets: &[u32],
    indexes: &[u32],
    starts: &[u32],
    others: &[u32],
    bits: u32,
) -> Result<AuditJudgement, Refusal>
    requires { Fits given }
    ensures { AuditJudged given sites.now vertices.now offsets.now indexes.now starts.now others.now bits result }
{
    crate::rules::ask(
        given.sound,
        sites,
        vertices,
        offsets,
        indexes,
        starts,
        others,
        bits,
    )?;
    Ok(verdict(
        given.bounds,
        sites,
        vertices,
        offsets,
        indexes,
        starts,
        others,
        bits,
    ))
}

// The numbers of an answer.
fn tell(answer: Result<AuditJudgement, Refusal>) -> AuditNumbers
    ensures { ToldOf answer result.number result.kind result.site result.vertex result.other result.missing }
{
    match answer {
        Ok(j) => {
            let (kind, site, vertex, other) = numbers_of(j.verdict);
            AuditNumbers {
                number: 0,
                kind,
                site,
                vertex,
                other,
                missing: j.missing,
            }
        }
        Err(r) => AuditNumbers {
            number: r.into(),
            kind: EMPTY,
            site: EMPTY,
            vertex: EMPTY,
            other: EMPTY,
            missing: 0.0,
        },
    }
}

// The audit in the given box, in numbers.
pub fn audit(
    given: Given,
    sites: &[f64],
    vertices: &[f64],
    offsets: &[u32],
    indexes: &[u32],
    starts: &[u32],
    others: &[u32],
    bits: u32,
) -> AuditNumbers
    requires { Fits given }
    ensures { AuditAnswer given sites.now vertices.now offsets.now indexes.now starts.now others.now bits
        result.number result.kind result.site result.vertex result.other result.missing }
{
    tell(judge(
        given, sites, vertices, offsets, indexes, starts, others, bits,
    ))
}
