// A reader's state between two calls: sixteen words that the caller keeps. Any words may come back; what no reading leaves is told apart.
ghost use Rattle.std.specs.Prelude.{◌≡◌, ◌≤◌, length};
ghost use Rattle.form.specs.step.Standing.{Ok};
ghost use Rattle.reader.specs.state.Words.{reader_of, stored};
ghost use Rattle.reader.specs.state.Entered.{blank, entered};

use crate::standing::{both, is_valid};
use base::numbers::REFUSED_FORM;
use form::step::{Reader, refused, start};

fn blank(words: &[u64]) -> bool
    ensures { result ≡ blank words.now }
{
    for word in words {
        if *word != 0 {
            return false;
        }
    }
    true
}

fn held(state: &[u64]) -> Reader
    requires { 16 ≤ length state.now }
    ensures { result ≡ reader_of state.now }
{
    Reader {
        old: false,
        stage: state[0],
        left: state[1],
        word: state[2],
        at: state[3],
        refusal: state[4],
        clip: state[5],
        sites: state[6],
        triangles: state[7],
        hull: state[8],
    }
}

// What the words say; none of them is the flag for forms of old. A state that no reading leaves is one refused at byte 0.
pub fn load(state: &[u64]) -> Reader
    requires { 16 ≤ length state.now }
    ensures is { result ≡ entered state.now }
    ensures ok { Ok result }
{
    let r = held(state);
    if both(blank(&state[9..16]), is_valid(r)) {
        return r;
    }
    refused(start(false), REFUSED_FORM as u64)
}

// The state in the first sixteen words; the others stay.
pub fn store(state: &mut [u64], r: Reader)
    requires { 16 ≤ length state.old }
    ensures { state.new ≡ stored state.old r }
{
    state[0] = r.stage;
    state[1] = r.left;
    state[2] = r.word;
    state[3] = r.at;
    state[4] = r.refusal;
    state[5] = r.clip;
    state[6] = r.sites;
    state[7] = r.triangles;
    state[8] = r.hull;
    state[9] = 0;
    state[10] = 0;
    state[11] = 0;
    state[12] = 0;
    state[13] = 0;
    state[14] = 0;
    state[15] = 0;
}
