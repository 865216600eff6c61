// The form's reader for forms that arrive in parts: begin, feed, end, with a state that the caller keeps; and the whole form at once, by the same steps.

#![tactic(auto)]

pub mod answers;
pub mod standing;
pub mod state;

ghost use Rattle.std.specs.Prelude.{false, ◌≡◌, ◌≤◌, length};
ghost use Rattle.form.specs.step.Reader.{start, takes};
ghost use Rattle.form.specs.step.Holds.{ListRoom};
ghost use Rattle.reader.specs.state.Entered.{entered};
ghost use Rattle.reader.specs.Calls.{form_lists, reading_of, roomy, fed, fed_by, feed_call, ended, ended_by, end_call, read_form, read_by, read_call};
ghost use Rattle.reader.specs.Promise.{answer, report, ReaderBegins, ReaderFeeds, ReaderEnds, ReadsForm};

use crate::answers::{Answer, Report, answered, no_report, no_room, reported};
use crate::state::{load, store};
use base::numbers::REFUSED_ROOM;
use form::step::{finished, start};

// The words of a state.
const STATE_WORDS: usize = 16;

// What the calls with lent numbers give is in specs/Promise.antt.

fn roomy(bounds: &[f64], sites: &[f64], triangles: &[u32], halfedges: &[u32], hull: &[u32]) -> bool
    ensures { result ≡ roomy (form_lists bounds.now sites.now triangles.now halfedges.now hull.now) }
{
    if bounds.len() < 4 {
        return false;
    }
    if sites.len() < form::COORDINATES {
        return false;
    }
    if triangles.len() < form::LINKS {
        return false;
    }
    if halfedges.len() < form::LINKS {
        return false;
    }
    form::HULL <= hull.len()
}

// ---- begin

pub fn begin(state: &mut [u64]) -> u32
    ensures { ReaderBegins state.old state.new result }
{
    if state.len() < STATE_WORDS {
        return REFUSED_ROOM;
    }
    state.fill(0);
    store(state, start(false));
    0
}

// ---- feed

fn feed_all(
    state: &mut [u64],
    block: &[u8],
    bounds: &mut [f64],
    sites: &mut [f64],
    triangles: &mut [u32],
    halfedges: &mut [u32],
    hull: &mut [u32],
) -> Answer
    requires { (16 ≤ length state.old) × (ListRoom bounds.old sites.old triangles.old halfedges.old hull.old) }
    ensures { fed result state.new (form_lists bounds.new sites.new triangles.new halfedges.new hull.new)
        ≡ fed_by state.old (takes (reading_of (entered state.old)
        (form_lists bounds.old sites.old triangles.old halfedges.old hull.old)) block.now) }
{
    let n = form::feed(
        load(state),
        block,
        bounds,
        sites,
        triangles,
        halfedges,
        hull,
    );
    store(state, n);
    answered(n)
}

fn try_feed(
    state: &mut [u64],
    block: &[u8],
    bounds: &mut [f64],
    sites: &mut [f64],
    triangles: &mut [u32],
    halfedges: &mut [u32],
    hull: &mut [u32],
) -> Answer
    ensures { fed result state.new (form_lists bounds.new sites.new triangles.new halfedges.new hull.new)
        ≡ feed_call state.old (form_lists bounds.old sites.old triangles.old halfedges.old hull.old) block.now }
{
    if state.len() < STATE_WORDS {
        return no_room();
    }
    if roomy(bounds, sites, triangles, halfedges, hull) {
        return feed_all(state, block, bounds, sites, triangles, halfedges, hull);
    }
    no_room()
}

pub fn feed(
    state: &mut [u64],
    block: &[u8],
    bounds: &mut [f64],
    sites: &mut [f64],
    triangles: &mut [u32],
    halfedges: &mut [u32],
    hull: &mut [u32],
    at: &mut u64,
) -> u32
    ensures { ReaderFeeds state.old (form_lists bounds.old sites.old triangles.old halfedges.old hull.old)
        block.now state.new (form_lists bounds.new sites.new triangles.new halfedges.new hull.new) (answer result at.new) }
{
    let a = try_feed(state, block, bounds, sites, triangles, halfedges, hull);
    *at = a.at;
    a.number
}

// ---- end

fn end_all(state: &mut [u64]) -> Report
    requires { 16 ≤ length state.old }
    ensures { ended result state.new ≡ ended_by state.old }
{
    let r = finished(load(state));
    store(state, r);
    reported(r)
}

fn try_end(state: &mut [u64]) -> Report
    ensures { ended result state.new ≡ end_call state.old }
{
    if state.len() < STATE_WORDS {
        return no_report();
    }
    end_all(state)
}

pub fn end(
    state: &mut [u64],
    clip: &mut u32,
    site_count: &mut u32,
    triangle_count: &mut u32,
    hull_count: &mut u32,
    at: &mut u64,
) -> u32
    ensures { ReaderEnds state.old state.new
        (report result clip.new site_count.new triangle_count.new hull_count.new at.new) }
{
    let report = try_end(state);
    *clip = report.clip;
    *site_count = report.sites;
    *triangle_count = report.triangles;
    *hull_count = report.hull;
    *at = report.at;
    report.number
}

// ---- the whole form

fn read_all(
    form: &[u8],
    bounds: &mut [f64],
    sites: &mut [f64],
    triangles: &mut [u32],
    halfedges: &mut [u32],
    hull: &mut [u32],
) -> Report
    requires { ListRoom bounds.old sites.old triangles.old halfedges.old hull.old }
    ensures { read_form result (form_lists bounds.new sites.new triangles.new halfedges.new hull.new)
        ≡ read_by (takes (reading_of (start false) (form_lists bounds.old sites.old triangles.old halfedges.old hull.old)) form.now) }
{
    let n = form::feed(
        start(false),
        form,
        bounds,
        sites,
        triangles,
        halfedges,
        hull,
    );
    reported(finished(n))
}

fn try_read(
    form: &[u8],
    bounds: &mut [f64],
    sites: &mut [f64],
    triangles: &mut [u32],
    halfedges: &mut [u32],
    hull: &mut [u32],
) -> Report
    ensures { read_form result (form_lists bounds.new sites.new triangles.new halfedges.new hull.new)
        ≡ read_call (form_lists bounds.old sites.old triangles.old halfedges.old hull.old) form.now }
{
    if roomy(bounds, sites, triangles, halfedges, hull) {
        return read_all(form, bounds, sites, triangles, halfedges, hull);
    }
    no_report()
}

pub fn read(
    form: &[u8],
    bounds: &mut [f64],
    sites: &mut [f64],
    triangles: &mut [u32],
    halfedges: &mut [u32],
    hull: &mut [u32],
    clip: &mut u32,
    site_count: &mut u32,
    triangle_count: &mut u32,
    hull_count: &mut u32,
    at: &mut u64,
) -> u32
    ensures { ReadsForm (form_lists bounds.old sites.old triangles.old halfedges.old hull.old) form.now
        (form_lists bounds.new sites.new triangles.new halfedges.new hull.new)
        (report result clip.new site_count.new triangle_count.new hull_count.new at.new) }
{
    let report = try_read(form, bounds, sites, triangles, halfedges, hull);
    *clip = report.clip;
    *site_count = report.sites;
    *triangle_count = report.triangles;
    *hull_count = report.hull;
    *at = report.at;
    report.number
}
