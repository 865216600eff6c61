// The version of the library: the number of the header that it is made for. A crate of its own, so that its edits cost no check of the public surface.

#![tactic(auto)]

ghost use Rattle.std.specs.Prelude.{◌≡◌};
ghost use Rattle.library_version.specs.Version.{version};

pub fn number() -> u32
    ensures { result ≡ version }
{
    2400
}
