// The fourth fault's search: the lowest site whose piece has a corner that is nearer to another site, by the tree of `crate::tree`.
ghost use Rattle.std.specs.Prelude.{◌≡◌, [], ◌/◌, length};
ghost use Rattle.ring_area.specs.lowest.Lowest.{lowest};
ghost use Rattle.auditing.specs.nearer.Nearer.{site_nearer};
ghost use Rattle.certifying.specs.nearer.Safe.{NearSafe};
ghost use Rattle.certifying.specs.windows.Windows.{NotMinus};

// The list of no others.
pub fn no_others<'a>(indexes: &'a [u32]) -> &'a [u32]
    ensures { result.now ≡ [] }
{
    &indexes[..0]
}

// The lowest such site, or their number; the room is lent for the search, and nothing is said of what it holds then.
pub fn first_site_nearer(
    far: f64,
    sites: &[f64],
    vertices: &[f64],
    offsets: &[u32],
    indexes: &[u32],
    room: &mut [u32],
) -> usize
    requires { NotMinus far × NearSafe sites.now vertices.now offsets.now indexes.now room.old }
    ensures { (result ≡ lowest (site_nearer far sites.now [] [] vertices.now offsets.now indexes.now) (length sites.now / 2))
        × (length room.new ≡ length room.old) }
{
    crate::tree::first_site_nearer_by_tree(far, sites, vertices, offsets, indexes, room)
}
