// The exports of module versions of crate voronoi, which says what each does.
ghost use Rattle.std.specs.Prelude.{◌≡◌};
ghost use Rattle.library_version.specs.Version.{version};

#[unsafe(no_mangle)]
pub extern "C" fn voronoi_version() -> u32
    ensures { result ≡ version }
{
    voronoi::versions::voronoi_version()
}
