// What a certificate asks of its arguments: 1 as the audit, 2 on the work, 3, 6, 16, 18, 24.
ghost use Rattle.base.specs.refusal.Number.{answer_number};
ghost use Rattle.certifying.specs.rules.Rules.{certify_room, CertifyNumber};
ghost use Rattle.std.specs.Prelude.{◌≤◌, ◌^◌, ◌*◌, ◌/◌, ◌≡◌};

use crate::nearer::no_others;
use base::refusal::Refusal;

// The words of work for so many numbers of sites and so many entries.
fn room_for(sites: usize, indexes: usize) -> usize
    requires { (sites / 2 ≤ 65536) × (indexes ≤ 2 ^ 24) }
    ensures { result ≡ certify_room sites indexes }
{
    3 * indexes + 2 * (sites / 2) + 64
}

pub fn ask(
    sound: bool,
    sites: &[f64],
    vertices: &[f64],
    offsets: &[u32],
    indexes: &[u32],
    bits: u32,
    work: usize,
) -> Result<(), Refusal>
    ensures { CertifyNumber sound sites.now vertices.now offsets.now indexes.now bits work (answer_number result) }
{
    if !auditing::rules::counts_ok(sites.len(), vertices.len(), indexes.len(), bits) {
        return Err(Refusal::Count);
    }
    if work < room_for(sites.len(), indexes.len()) {
        return Err(Refusal::Room);
    }
    let none = no_others(indexes);
    auditing::rules::ask(sound, sites, vertices, offsets, indexes, none, none, bits)
}
