// The fifth fault's search in lent work: the sites are chained in buckets by their places, as many buckets as sites, and each is held against those in its own bucket before it is inserted there.
// Two words to a site (specs/twins/Buckets.antt).
ghost use Rattle.std.specs.Prelude.{◌≡◌, ◌*◌, ◌/◌, ◌≤◌, ◌<◌, length};
ghost use Rattle.ring_area.specs.lowest.Lowest.{lowest};
ghost use Rattle.auditing.specs.places.Places.{has_twin};
ghost use Rattle.certifying.specs.twins.Buckets.{site_bucket, SitesChained, SiteHeld};

use crate::chains;
use crate::chains::push_front;
use crate::sides::place_number;
use auditing::places::same_place;
use base::numbers::wide;
use plane::points::{Point, point_at};

// The bucket of a place, of so many.
fn bucket(p: Point, count: usize) -> usize
    requires { 0 < count }
    ensures { (result ≡ site_bucket count p) × (result < count) }
{
    chains::bucket(place_number(p), count)
}

// Whether one that is chained in the bucket m, that of s, stands at the place of s: from the last one back.
fn lookup(work: &[u32], sites: &[f64], s: usize, m: usize) -> bool
    requires { SiteHeld sites.now s m work.now }
    ensures { result ≡ has_twin sites.now s }
{
    let place = point_at(sites, s);
    let mut x = wide(work[2 * m]);
    while 0 < x {
        let k = x - 1;
        if same_place(place, point_at(sites, k)) {
            return true;
        }
        x = wide(work[2 * k + 1]);
    }
    false
}

// Empties the buckets.
fn empty(work: &mut [u32], sites: &[f64])
    requires { (2 * (length sites.now / 2) ≤ length work.old) × (length sites.now / 2 ≤ 65536) }
    ensures { SitesChained sites.now 0 work.new × (length work.new ≡ length work.old) }
{
    let count = sites.len() / 2;
    for m in 0..count {
        work[2 * m] = 0;
    }
}

// The lowest site that has one before it, or their number; nothing is said of what the work holds then.
pub fn first_site_twin(sites: &[f64], work: &mut [u32]) -> usize
    requires { (2 * (length sites.now / 2) ≤ length work.old) × (length sites.now / 2 ≤ 65536) }
    ensures { (result ≡ lowest (has_twin sites.now) (length sites.now / 2)) × (length work.new ≡ length work.old) }
{
    empty(work, sites);
    let count = sites.len() / 2;
    for s in 0..count {
        let m = bucket(point_at(sites, s), count);
        if lookup(work, sites, s, m) {
            return s;
        }
        push_front::<2>(work, s, m);
    }
    count
}
