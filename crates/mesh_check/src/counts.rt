// Rule 1, on the counts of a lent mesh, and the number that is told of what a check answers.
ghost use Rattle.std.specs.Prelude.{◌≡◌};
ghost use Rattle.base.specs.common.Decide.{Says};
ghost use Rattle.mesh.specs.Faults.{number_of};
ghost use Rattle.mesh.specs.Accepted.{Counted};

use base::refusal::Refusal;
use mesh::MeshFault;

// The number of an answer of the check (docs/use/RULES.md).
pub fn number(answer: Result<(), MeshFault>) -> u32
    ensures { result ≡ number_of answer }
{
    base::refusal::number(answer.map_err(Refusal::from))
}

// Rule 1, on the lengths of the lists of coordinates, triangle entries, half-edges and hull sites.
pub fn counts_ok(coordinates: usize, entries: usize, halfedges: usize, hull: usize) -> bool
    ensures { Says result (Counted coordinates entries halfedges hull) }
{
    if coordinates % 2 != 0 {
        return false;
    }
    if coordinates / 2 < 3 {
        return false;
    }
    if 65536 < coordinates / 2 {
        return false;
    }
    if entries % 3 != 0 {
        return false;
    }
    if entries / 3 < 1 {
        return false;
    }
    if 131072 < entries / 3 {
        return false;
    }
    if halfedges != entries {
        return false;
    }
    if hull < 3 {
        return false;
    }
    if coordinates / 2 < hull {
        return false;
    }
    true
}
