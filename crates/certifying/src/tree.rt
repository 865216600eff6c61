// The fourth test of the certificate by a tree of the sites: a site, or a block of them, that is off the window of a ring is left out for the whole ring at once (crate::windows). The tree
// is an order of the sites with the sites of least and greatest coordinates of each block of 16, of 256 and of 4096 places. Any order is sound; a bad one costs time.
ghost use Rattle.std.specs.Prelude.{◌≡◌, true, false, [], ◌+◌, ◌*◌, ◌/◌, ◌≤◌, ◌<◌, length, set};
ghost use Rattle.ring_area.specs.lowest.Lowest.{lowest, any_below};
ghost use Rattle.plane.specs.points.Flat.{point_at};
ghost use Rattle.arguments.specs.entries.Named.{EntriesNamed};
ghost use Rattle.auditing.specs.nearer.Nearer.{cell_nearer, site_nearer};
ghost use Rattle.certifying.specs.windows.Windows.{EdgesHeld};
ghost use Rattle.certifying.specs.tree.Tree.{corner_past};
ghost use Rattle.certifying.specs.tree.Steps.{SitesHeld, TwoSites, Lower, Higher, FourNamed, Widens, BoxesFrom, Order, Reordered, swapped, NodeNamed, FillSafe, Sifted, PlacesNamed, ListedAsked};
ghost use Rattle.certifying.specs.tree.Steps.{NodeFilled, LevelFilled, base256, base4096, TreeOf, node_off, OffFrom, LevelSafe, RingSafe, PassedFrom, PieceSafe, PiecesHeld, TreeSafe};

use crate::nearer::no_others;
use crate::windows::{Window, greater, is_off, is_window, lesser, window_of};
use auditing::nearer::{first_nearer, is_beyond};
use base::numbers::wide;
use plane::points::{Point, point_at};

// The sites of least and of greatest coordinates.
#[derive(Clone, Copy)]
struct Extremes {
    left: u32,
    top: u32,
    right: u32,
    bottom: u32,
}

// ---- the nodes
// Of two sites the one that is lower along the axis: 0 is x, 1 is y.
fn lower(sites: &[f64], a: u32, b: u32, axis: usize) -> u32
    requires { TwoSites sites.now a b axis }
    ensures { Lower sites.now a b axis result }
{
    if sites[2 * wide(b) + axis] < sites[2 * wide(a) + axis] {
        return b;
    }
    a
}

fn higher(sites: &[f64], a: u32, b: u32, axis: usize) -> u32
    requires { TwoSites sites.now a b axis }
    ensures { Higher sites.now a b axis result }
{
    if sites[2 * wide(a) + axis] < sites[2 * wide(b) + axis] {
        return b;
    }
    a
}

// With one site more.
fn widened(sites: &[f64], e: Extremes, o: u32) -> Extremes
    requires { SitesHeld sites.now × FourNamed sites.now e.left e.top e.right e.bottom × (o < length sites.now / 2) }
    ensures { Widens sites.now e.left e.top e.right e.bottom o result.left result.top result.right result.bottom }
{
    let left = lower(sites, e.left, o, 0);
    let top = lower(sites, e.top, o, 1);
    let right = higher(sites, e.right, o, 0);
    let bottom = higher(sites, e.bottom, o, 1);
    Extremes {
        left,
        top,
        right,
        bottom,
    }
}

// Of the sites at the places of the order from one to another.
fn extremes_from(sites: &[f64], room: &[u32], from: usize, to: usize) -> Extremes
    requires { SitesHeld sites.now × Order (length sites.now / 2) room.now × (from < to) × (to ≤ length sites.now / 2) }
    ensures { BoxesFrom sites.now room.now from to result.left result.top result.right result.bottom }
{
    let o = room[from];
    let mut e = Extremes {
        left: o,
        top: o,
        right: o,
        bottom: o,
    };
    for o in &room[from + 1..to] {
        e = widened(sites, e, *o);
    }
    e
}

fn write_node(room: &mut [u32], at: usize, e: Extremes)
    requires { at + 3 < length room.old }
    ensures { room.new ≡ set (set (set (set room.old at e.left) (at + 1) e.top) (at + 2) e.right) (at + 3) e.bottom }
{
    room[at] = e.left;
    room[at + 1] = e.top;
    room[at + 2] = e.right;
    room[at + 3] = e.bottom;
}

// The node of block b of w places.
fn fill_node(sites: &[f64], room: &mut [u32], w: usize, base: usize, b: usize)
    requires { FillSafe sites.now room.old w base × (b * w < length sites.now / 2) }
    ensures { NodeFilled sites.now w base b room.old room.new }
{
    let from = b * w;
    let e = extremes_from(sites, room, from, (from + w).min(sites.len() / 2));
    write_node(room, base + 4 * b, e);
}

// The nodes of all blocks of w places.
fn fill(sites: &[f64], room: &mut [u32], w: usize, base: usize)
    requires { FillSafe sites.now room.old w base }
    ensures { LevelFilled sites.now w base room.old room.new }
{
    let n = sites.len() / 2;
    for b in 0..n.div_ceil(w) {
        fill_node(sites, room, w, base, b);
    }
}

// Where the nodes of 256 places start, and those of 4096.
fn base_256(n: usize) -> usize
    requires { n ≤ 65536 }
    ensures { result ≡ base256 n }
{
    n + 4 * (n / 16 + 1)
}

fn base_4096(n: usize) -> usize
    requires { n ≤ 65536 }
    ensures { result ≡ base4096 n }
{
    n + 4 * (n / 16 + n / 256 + 2)
}

// ---- the order
fn swap(room: &mut [u32], i: usize, j: usize)
    requires { (i < length room.old) × (j < length room.old) }
    ensures { room.new ≡ swapped room.old i j }
{
    let t = room[i];
    room[i] = room[j];
    room[j] = t;
}

// A site's number.
pub fn narrow(i: usize) -> u32
    requires { i < 65536 }
    ensures { result ≡ i }
{
    i as u32
}

// The sites by their numbers.
fn start(room: &mut [u32], n: usize)
    requires { (n ≤ 65536) × (n ≤ length room.old) }
    ensures { Order n room.new × (length room.new ≡ length room.old) }
{
    for i in 0..n {
        room[i] = narrow(i);
    }
}

// A coordinate of the site at place j of the order.
fn key(sites: &[f64], room: &[u32], j: usize, axis: usize) -> f64
    requires { Order (length sites.now / 2) room.now × (j < length sites.now / 2) × (axis < 2) }
{
    sites[2 * wide(room[j]) + axis]
}

// The middle one of three.
fn middle(a: f64, b: f64, c: f64) -> f64 {
    greater(lesser(a, b), lesser(greater(a, b), c))
}

// One place on, up to j.
fn onward(i: usize, j: usize) -> usize
    requires { i ≤ j }
    ensures { (i ≤ result) × (result ≤ j) }
{
    if i < j {
        return i + 1;
    }
    i
}

// Puts what is below the pivot first, and says where the others start.
fn split(sites: &[f64], room: &mut [u32], from: usize, to: usize, axis: usize, pivot: f64) -> usize
    requires { Order (length sites.now / 2) room.old × (from ≤ to) × (to ≤ length sites.now / 2) × (axis < 2) }
    ensures { Reordered (length sites.now / 2) room.old room.new × (from ≤ result) × (result ≤ to) }
{
    let mut i = from;
    let mut j = to;
    while i < j {
        if key(sites, room, i, axis) < pivot {
            i += 1;
            continue;
        }
        j -= 1;
        if pivot < key(sites, room, j, axis) {
            continue;
        }
        swap(room, i, j);
        i = onward(i, j);
    }
    i
}

// Splits the places until those before the middle have no greater coordinate than those after it, or 64 times.
fn halve(sites: &[f64], room: &mut [u32], from: usize, to: usize, half: usize, axis: usize)
    requires { Order (length sites.now / 2) room.old × (from ≤ to) × (to ≤ length sites.now / 2) × (axis < 2) }
    ensures { Reordered (length sites.now / 2) room.old room.new }
{
    let mut lo = from;
    let mut hi = to;
    for _ in 0..64 {
        if hi <= lo + 1 {
            return;
        }
        let pivot = middle(
            key(sites, room, lo, axis),
            key(sites, room, lo + (hi - lo) / 2, axis),
            key(sites, room, hi - 1, axis),
        );
        let m = split(sites, room, lo, hi, axis, pivot);
        if m == half {
            return;
        }
        if half < m {
            hi = m;
            continue;
        }
        lo = m;
    }
}

// The axis along which the sites at these places lie farther apart.
fn wider(sites: &[f64], room: &[u32], from: usize, to: usize) -> usize
    requires { SitesHeld sites.now × Order (length sites.now / 2) room.now × (from < to) × (to ≤ length sites.now / 2) }
    ensures { result < 2 }
{
    let e = extremes_from(sites, room, from, to);
    let left = point_at(sites, wide(e.left));
    let top = point_at(sites, wide(e.top));
    let right = point_at(sites, wide(e.right));
    let bottom = point_at(sites, wide(e.bottom));
    if right.x - left.x < bottom.y - top.y {
        return 1;
    }
    0
}

// Halves each block of twice so many places.
fn halve_all(sites: &[f64], room: &mut [u32], half: usize)
    requires { SitesHeld sites.now × Order (length sites.now / 2) room.old × (0 < half) × (half ≤ 32768) × (length sites.now / 2 ≤ 65536) }
    ensures { Reordered (length sites.now / 2) room.old room.new }
{
    let n = sites.len() / 2;
    for a in (0..n.saturating_sub(half)).step_by(2 * half) {
        let to = (a + 2 * half).min(n);
        let axis = wider(sites, room, a, to);
        halve(sites, room, a, to, a + half, axis);
    }
}

// ---- whether an order is needed
// With one place more.
fn stretched(w: Window, p: Point) -> Window {
    let left = lesser(w.left, p.x);
    let top = lesser(w.top, p.y);
    let right = greater(w.right, p.x);
    let bottom = greater(w.bottom, p.y);
    Window {
        left,
        top,
        right,
        bottom,
    }
}

// What the sites from one number to another span.
fn spanned(sites: &[f64], from: usize, to: usize) -> Window
    requires { (from < to) × (to ≤ length sites.now / 2) }
{
    let p = point_at(sites, from);
    let mut w = Window {
        left: p.x,
        top: p.y,
        right: p.x,
        bottom: p.y,
    };
    for j in from + 1..to {
        w = stretched(w, point_at(sites, j));
    }
    w
}

// Width and height together.
fn side_of(w: Window) -> f64 {
    (w.right - w.left) + (w.bottom - w.top)
}

// Whether blocks of so many stand near each other, of the sites from one number to another: the squares of their sides, width and height together, are at most twice that of all.
// Along Hilbert's curve sixteen blocks have 0.1 to 1.7 times, in no order 3 to 16. Nothing is promised of it: a bad order costs time.
fn is_close(sites: &[f64], w: usize, first: usize, end: usize) -> bool
    requires { (0 < w) × (w ≤ 65536) × (first < end) × (end ≤ length sites.now / 2) × (length sites.now / 2 ≤ 65536) }
{
    let all = side_of(spanned(sites, first, end));
    let mut sum = 0.0;
    for from in (first..end).step_by(w) {
        let side = side_of(spanned(sites, from, (from + w).min(end)));
        sum += side * side;
    }
    sum <= 2.0 * (all * all)
}

// Whether each sixteen blocks do, along a curve that fills the plane: by themselves, so that a site far off speaks for its own sixteen alone.
fn all_close(sites: &[f64], w: usize) -> bool
    requires { (0 < w) × (w ≤ 4096) × (length sites.now / 2 ≤ 65536) }
{
    let n = sites.len() / 2;
    for from in (0..n).step_by(16 * w) {
        if !is_close(sites, w, from, (from + 16 * w).min(n)) {
            return false;
        }
    }
    true
}

// Of blocks of 16 and of 256.
fn is_arranged(sites: &[f64]) -> bool
    requires { length sites.now / 2 ≤ 65536 }
{
    if all_close(sites, 16) {
        return all_close(sites, 256);
    }
    false
}

// Sites that stand near each other come near each other.
fn arrange(sites: &[f64], room: &mut [u32])
    requires { SitesHeld sites.now × (length sites.now / 2 ≤ 65536) × (length sites.now / 2 ≤ length room.old) }
    ensures { Order (length sites.now / 2) room.new × (length room.new ≡ length room.old) }
{
    start(room, sites.len() / 2);
    if is_arranged(sites) {
        return;
    }
    let mut half = 32768;
    while 16 <= half {
        halve_all(sites, room, half);
        half = half / 2;
    }
}

// The tree.
fn plant(sites: &[f64], room: &mut [u32])
    requires { SitesHeld sites.now × (length sites.now / 2 ≤ 65536) × (2 * (length sites.now / 2) + 64 ≤ length room.old) }
    ensures { TreeOf sites.now room.new × (length room.new ≡ length room.old) }
{
    let n = sites.len() / 2;
    arrange(sites, room);
    fill(sites, room, 16, n);
    fill(sites, room, 256, base_256(n));
    fill(sites, room, 4096, base_4096(n));
}

// ---- the search
// Whether the block of the node is off the window.
fn node_out(sites: &[f64], room: &[u32], w: Window, at: usize) -> bool
    requires { (at + 3 < length room.now) × NodeNamed sites.now room.now at }
    ensures { result ≡ node_off sites.now room.now w at }
{
    let left = point_at(sites, wide(room[at]));
    let top = point_at(sites, wide(room[at + 1]));
    let right = point_at(sites, wide(room[at + 2]));
    let bottom = point_at(sites, wide(room[at + 3]));
    is_off(w, left.x, top.y, right.x, bottom.y)
}

// Whether a block of so many places starts at j and is off the window.
fn level_out(sites: &[f64], room: &[u32], c: Window, j: usize, w: usize, base: usize) -> bool
    requires { LevelSafe sites.now room.now w base c × (j < length sites.now / 2) }
    ensures { result ≡ true → OffFrom sites.now room.now c j (j + w) }
{
    if j % w != 0 {
        return false;
    }
    node_out(sites, room, c, base + 4 * (j / w))
}

// How many places from j on are off the window at once, in blocks.
fn places_out(sites: &[f64], room: &[u32], c: Window, j: usize) -> usize
    requires { TreeOf sites.now room.now × SitesHeld sites.now × EdgesHeld c × (j < length sites.now / 2) }
    ensures { OffFrom sites.now room.now c j (j + result) × (result ≤ 4096) }
{
    let n = sites.len() / 2;
    if level_out(sites, room, c, j, 4096, base_4096(n)) {
        return 4096;
    }
    if level_out(sites, room, c, j, 256, base_256(n)) {
        return 256;
    }
    if level_out(sites, room, c, j, 16, n) {
        return 16;
    }
    0
}

// Whether some corner of the ring is beyond the bisector of s and o.
fn some_past(far: f64, s: Point, o: Point, vertices: &[f64], entries: &[u32]) -> bool
    requires { EntriesNamed entries.now (length vertices.now / 2) }
    ensures { result ≡ any_below (corner_past far s o vertices.now entries.now) (length entries.now) }
{
    for e in entries {
        if is_beyond(far, point_at(vertices, wide(*e)), s, o) {
            return true;
        }
    }
    false
}

// Lists the places from one to another, at most 16, whose sites are not off the window, and says how many they are. Without a branch on what is off: nobody can foresee it.
fn sift(sites: &[f64], room: &[u32], w: Window, from: usize, to: usize, list: &mut [u32]) -> usize
    requires { TreeOf sites.now room.now × SitesHeld sites.now × EdgesHeld w × (to ≤ length sites.now / 2) × (to ≤ from + 16) × (16 ≤ length list.old) × (from ≤ to) }
    ensures { Sifted sites.now room.now w from to result list.new × (length list.new ≡ length list.old) }
{
    let mut count = 0;
    for j in from..to {
        list[count] = narrow(j);
        let o = point_at(sites, wide(room[j]));
        count += usize::from(!is_off(w, o.x, o.y, o.x, o.y));
    }
    count
}

// Whether a corner of the ring is nearer to the site of one of so many places.
fn some_listed(
    far: f64,
    sites: &[f64],
    room: &[u32],
    site: Point,
    vertices: &[f64],
    entries: &[u32],
    list: &[u32],
    count: usize,
) -> bool
    requires { Order (length sites.now / 2) room.now × EntriesNamed entries.now (length vertices.now / 2) × PlacesNamed (length sites.now / 2) count list.now }
    ensures { ListedAsked far sites.now room.now site vertices.now entries.now list.now count result }
{
    for place in &list[..count] {
        let o = point_at(sites, wide(room[wide(*place)]));
        if some_past(far, site, o, vertices, entries) {
            return true;
        }
    }
    false
}

// How many places from j on have no site that a corner is nearer to; 0: there is such a site.
fn passed(
    far: f64,
    sites: &[f64],
    room: &[u32],
    w: Window,
    site: Point,
    vertices: &[f64],
    entries: &[u32],
    j: usize,
) -> usize
    requires { RingSafe far sites.now room.now w site vertices.now entries.now × (j < length sites.now / 2) }
    ensures { PassedFrom far sites.now room.now site vertices.now entries.now j result }
{
    let r = places_out(sites, room, w, j);
    if 0 < r {
        return r;
    }
    let to = (j + 16).min(sites.len() / 2);
    let mut list = [0u32; 16];
    let count = sift(sites, room, w, j, to, &mut list);
    if some_listed(far, sites, room, site, vertices, entries, &list, count) {
        return 0;
    }
    to - j
}

// Whether some corner of the ring is nearer to another site.
fn ring_nearer(
    far: f64,
    sites: &[f64],
    room: &[u32],
    w: Window,
    site: Point,
    vertices: &[f64],
    entries: &[u32],
    s: usize,
) -> bool
    requires { RingSafe far sites.now room.now w site vertices.now entries.now × (site ≡ point_at sites.now s) }
    ensures { result ≡ cell_nearer far sites.now s [] true vertices.now entries.now }
{
    let n = sites.len() / 2;
    let mut j = 0;
    while j < n {
        let k = passed(far, sites, room, w, site, vertices, entries, j);
        if k == 0 {
            return true;
        }
        j += k;
    }
    false
}

// The same by all sites, where no window was found.
fn all_nearer(far: f64, sites: &[f64], vertices: &[f64], entries: &[u32], s: usize) -> bool
    requires { (s < length sites.now / 2) × EntriesNamed entries.now (length vertices.now / 2) }
    ensures { result ≡ cell_nearer far sites.now s [] true vertices.now entries.now }
{
    let none = no_others(entries);
    first_nearer(far, sites, s, none, true, vertices, entries) < entries.len()
}

// The same of the piece of s.
fn piece_nearer(
    far: f64,
    sites: &[f64],
    room: &[u32],
    vertices: &[f64],
    entries: &[u32],
    s: usize,
) -> bool
    requires { PieceSafe far sites.now room.now vertices.now entries.now × (s < length sites.now / 2) }
    ensures { result ≡ cell_nearer far sites.now s [] true vertices.now entries.now }
{
    if entries.len() == 0 {
        return false;
    }
    let site = point_at(sites, s);
    let w = window_of(site, vertices, entries);
    if is_window(w, site, vertices, entries) {
        return ring_nearer(far, sites, room, w, site, vertices, entries, s);
    }
    all_nearer(far, sites, vertices, entries, s)
}

// Of the lists.
fn site_nearer(
    far: f64,
    sites: &[f64],
    room: &[u32],
    vertices: &[f64],
    offsets: &[u32],
    indexes: &[u32],
    s: usize,
) -> bool
    requires { TreeSafe far sites.now vertices.now offsets.now indexes.now × TreeOf sites.now room.now × SitesHeld sites.now
        × PiecesHeld sites.now vertices.now offsets.now indexes.now × (s < length sites.now / 2) }
    ensures { result ≡ site_nearer far sites.now [] [] vertices.now offsets.now indexes.now s }
{
    let entries = walks::shared::cell(offsets, indexes, s);
    piece_nearer(far, sites, room, vertices, entries, s)
}

// Whether no piece has such a corner: in the tree's order, so that what one piece asks of memory is at hand for the next.
fn none_nearer(
    far: f64,
    sites: &[f64],
    room: &[u32],
    vertices: &[f64],
    offsets: &[u32],
    indexes: &[u32],
) -> bool
    requires { TreeSafe far sites.now vertices.now offsets.now indexes.now × TreeOf sites.now room.now × SitesHeld sites.now
        × PiecesHeld sites.now vertices.now offsets.now indexes.now }
    ensures { result ≡ true
        → length sites.now / 2
        ≡ lowest (site_nearer far sites.now [] [] vertices.now offsets.now indexes.now) (length sites.now / 2) }
{
    let count = sites.len() / 2;
    for s in &room[..count] {
        if site_nearer(far, sites, room, vertices, offsets, indexes, wide(*s)) {
            return false;
        }
    }
    true
}

// The lowest site whose piece has such a corner, or their number: one by one.
fn first_in_order(
    far: f64,
    sites: &[f64],
    room: &[u32],
    vertices: &[f64],
    offsets: &[u32],
    indexes: &[u32],
) -> usize
    requires { TreeSafe far sites.now vertices.now offsets.now indexes.now × TreeOf sites.now room.now × SitesHeld sites.now
        × PiecesHeld sites.now vertices.now offsets.now indexes.now }
    ensures { result ≡ lowest (site_nearer far sites.now [] [] vertices.now offsets.now indexes.now) (length sites.now / 2) }
{
    let count = sites.len() / 2;
    (0..count)
        .find(|&s| site_nearer(far, sites, room, vertices, offsets, indexes, s))
        .unwrap_or(count)
}

// The same, one by one only where there is one. The room is the tree's.
pub fn first_site_nearer_by_tree(
    far: f64,
    sites: &[f64],
    vertices: &[f64],
    offsets: &[u32],
    indexes: &[u32],
    room: &mut [u32],
) -> usize
    requires { TreeSafe far sites.now vertices.now offsets.now indexes.now × (2 * (length sites.now / 2) + 64 ≤ length room.old) }
    ensures { (result ≡ lowest (site_nearer far sites.now [] [] vertices.now offsets.now indexes.now) (length sites.now / 2))
        × (length room.new ≡ length room.old) }
{
    plant(sites, room);
    if none_nearer(far, sites, room, vertices, offsets, indexes) {
        return sites.len() / 2;
    }
    first_in_order(far, sites, room, vertices, offsets, indexes)
}
