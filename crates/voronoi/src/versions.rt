// The version of the library, so that a caller can tell an archive that its header does not describe.
ghost use Rattle.std.specs.Prelude.{◌≡◌};
ghost use Rattle.library_version.specs.Version.{version};

pub fn voronoi_version() -> u32
    ensures { result ≡ version }
{
    library_version::number()
}
