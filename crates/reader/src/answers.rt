// What a state of the form's reader answers: while the form arrives, a number and a byte; at its end the counts too. And the answers where a slice is too short.
ghost use Rattle.std.specs.Prelude.{◌≡◌};
ghost use Rattle.form.specs.step.Standing.{Ok};
ghost use Rattle.reader.specs.answers.Answers.{answer_of, report_of, no_room, no_report};

use base::numbers::REFUSED_ROOM;
use form::step::Reader;

// The byte of no refusal.
const NOWHERE: u64 = 0xffff_ffff_ffff_ffff;

// A number and the byte that it is given at.
#[derive(Clone, Copy)]
pub struct Answer {
    pub number: u32,
    pub at: u64,
}

// The same with the kind that opened the form, and how many sites, triangles and hull sites it has.
#[derive(Clone, Copy)]
pub struct Report {
    pub number: u32,
    pub at: u64,
    pub clip: u32,
    pub sites: u32,
    pub triangles: u32,
    pub hull: u32,
}

pub fn answered(r: Reader) -> Answer
    requires { Ok r }
    ensures { result ≡ answer_of r }
{
    if r.refusal != 0 {
        return Answer {
            number: r.refusal as u32,
            at: r.at,
        };
    }
    Answer {
        number: 0,
        at: NOWHERE,
    }
}

pub fn reported(r: Reader) -> Report
    requires { Ok r }
    ensures { result ≡ report_of r }
{
    if r.refusal == 0 {
        return Report {
            number: 0,
            at: NOWHERE,
            clip: r.clip as u32,
            sites: r.sites as u32,
            triangles: r.triangles as u32,
            hull: r.hull as u32,
        };
    }
    Report {
        number: r.refusal as u32,
        at: r.at,
        clip: 0,
        sites: 0,
        triangles: 0,
        hull: 0,
    }
}

pub fn no_room() -> Answer
    ensures { result ≡ no_room }
{
    Answer {
        number: REFUSED_ROOM,
        at: NOWHERE,
    }
}

pub fn no_report() -> Report
    ensures { result ≡ no_report }
{
    Report {
        number: REFUSED_ROOM,
        at: NOWHERE,
        clip: 0,
        sites: 0,
        triangles: 0,
        hull: 0,
    }
}
