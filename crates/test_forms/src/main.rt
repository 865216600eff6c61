// Prints what the form's reader says of each case on standard input, which is two bytes of length and as many bytes;
// then what it says where forms of old are read too.
#![tactic(auto)]

ghost use Rattle.std.specs.Prelude.{◌<◌};

use form::step::{Broken, Sound};

fn number(rt: &impl Print, n: usize) {
    let _ = rt.write_all(b" ");
    let _ = rt.print(n);
}

fn refused(rt: &impl Print, number: u8, at: usize) {
    let _ = rt.write_all(b"refused ");
    let _ = rt.print(number);
    let _ = rt.write_all(b" at ");
    let _ = rt.print(at);
}

fn sound(rt: &impl Print, sites: usize, triangles: usize, hull: usize) {
    let _ = rt.write_all(b"sound");
    number(rt, sites);
    number(rt, triangles);
    number(rt, hull);
}

// The kind that opened the form, where it is not a box by center and size.
fn opened(rt: &impl Print, clip: u8) {
    if clip == 6 {
        let _ = rt.write_all(b" unclipped");
    }
    if clip == 7 {
        let _ = rt.write_all(b" edges");
    }
}

fn say(rt: &impl Print, form: Result<Sound, Broken>) {
    match form {
        Err(broken) => refused(rt, broken.number, broken.at),
        Ok(form) => {
            sound(rt, form.sites, form.triangles, form.hull);
            opened(rt, form.clip);
        }
    }
}

fn verdict(rt: &impl Print, old: bool, bytes: &[u8]) {
    let mut bounds = [0.0f64; 4];
    let mut sites = [0.0f64; form::COORDINATES];
    let mut triangles = [0u32; form::LINKS];
    let mut halfedges = [0u32; form::LINKS];
    let mut hull = [0u32; form::HULL];
    let form = form::read(
        old,
        bytes,
        &mut bounds,
        &mut sites,
        &mut triangles,
        &mut halfedges,
        &mut hull,
    );
    say(rt, form);
}

// As all programs read, and as the mending tool can.
fn both(rt: &impl Print, bytes: &[u8]) {
    verdict(rt, false, bytes);
    let _ = rt.write_all(b"; of old ");
    verdict(rt, true, bytes);
    let _ = rt.write_all(b"\n");
}

fn wide(x: u8) -> usize
    ensures { result < 256 }
{
    x as usize
}

// Reads a case's bytes, as many as the slice has, and answers how many came.
fn body(rt: &HostRuntime, bytes: &mut [u8]) -> usize {
    let got = host::read_full(&mut rt.stdin(), bytes);
    both(rt, &bytes[..got]);
    got
}

// One case, and whether it was there whole.
fn case(rt: &HostRuntime) -> bool {
    let mut head = [0u8; 2];
    if host::read_full(&mut rt.stdin(), &mut head) < 2 {
        return false;
    }
    let n = wide(head[0]) + 256 * wide(head[1]);
    let mut bytes = [0u8; 65536];
    body(rt, &mut bytes[..n]) == n
}

fn main(rt: HostRuntime) {
    for _ in 0..100000 {
        if !case(&rt) {
            return;
        }
    }
}
