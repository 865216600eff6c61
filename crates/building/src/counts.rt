// The end of a build: its counts, or, where it is refused, the counts and the work slice cleared; and its answer.
ghost use Rattle.std.specs.Prelude.{◌≡◌, ◌≤◌, ◌<◌, length};
ghost use Rattle.base.specs.numbers.Numbers.{EMPTY};
ghost use Rattle.base.specs.refusal.Number.{answer_number};
ghost use Rattle.cell_memory.specs.layout.Cleared.{padded};
ghost use Rattle.building.specs.counts.Counts.{counts_of, ReusedFit, EndedBuild, FaultNumber};

use base::numbers::EMPTY;
use base::refusal::Refusal;
use cell_builder::finish::CellsAnswer;
use cell_memory::layout::fill_from;
use definition::{Fault, Reused};

// The number of vertices, the corners' owners, the lost corners and the points taken again, then `EMPTY`.
fn put_counts(vertices: u32, owners: [u32; 4], lost: u32, reused: Reused, counts: &mut [u32])
    requires { ReusedFit reused × (9 ≤ length counts.old) }
    ensures { counts.new ≡ padded (length counts.old) EMPTY (counts_of vertices owners lost reused) }
{
    counts[0] = vertices;
    counts[1] = owners[0];
    counts[2] = owners[1];
    counts[3] = owners[2];
    counts[4] = owners[3];
    counts[5] = lost;
    counts[6] = reused.extensions as u32;
    counts[7] = reused.firsts as u32;
    counts[8] = reused.seconds as u32;
    fill_from(counts, 9, EMPTY);
}

// The counts of a build with this number; refused, they and the work slice are cleared.
fn finish(
    number: u32,
    vertices: u32,
    owners: [u32; 4],
    lost: u32,
    reused: Reused,
    work: &mut [u32],
    counts: &mut [u32],
)
    requires { ReusedFit reused × (9 ≤ length counts.old) }
    ensures { EndedBuild number (counts_of vertices owners lost reused) work.old counts.old work.new counts.new }
{
    if number != 0 {
        mesh::clear(work);
        mesh::clear(counts);
        return;
    }
    put_counts(vertices, owners, lost, reused, counts);
}

// The same of a build with this answer.
pub fn finish_build(a: CellsAnswer, work: &mut [u32], counts: &mut [u32])
    requires { (a.count < 4294967296) × ReusedFit a.reused × (9 ≤ length counts.old) }
    ensures { EndedBuild a.fault.number (counts_of a.count a.owners a.lost a.reused) work.old counts.old work.new counts.new }
{
    let fault = a.fault;
    let owners = a.owners;
    let reused = a.reused;
    finish(
        fault.number,
        a.count as u32,
        owners,
        a.lost,
        reused,
        work,
        counts,
    );
}

// What the builder met, as the answer of the build.
pub fn refusal(fault: Fault) -> Result<(), Refusal>
    requires { FaultNumber fault.number }
    ensures { answer_number result ≡ fault.number }
{
    match fault.number {
        0 => Ok(()),
        base::numbers::REFUSED_CIRCUMCENTER => Err(Refusal::Circumcenter),
        base::numbers::REFUSED_EXTENSION => Err(Refusal::Extension),
        base::numbers::REFUSED_NO_CROSSING => Err(Refusal::NoCrossing),
        _ => Err(Refusal::OneCrossing),
    }
}
