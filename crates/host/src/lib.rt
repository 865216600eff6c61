// What the programs take from outside: the bytes on standard input, and the words that they were called with.
#![tactic(auto)]

ghost use Rattle.std.specs.Prelude.{◌≤◌, length, take};
ghost use Rattle.std.specs.Io.KnownBytes.{Consumes};

use std::env::{Env, FillError};
use std::io::Read;

// Reads until `bytes` is full, the input ends or a read fails, and answers how many bytes came: the first of `bytes`. No byte after them is read.
pub fn read_full<R: Read>(input: &mut R, bytes: &mut [u8]) -> usize
    ensures within { result ≤ length bytes.new }
    ensures read { Consumes (R.remaining input.old) (R.remaining input.new) (take result bytes.new) }
{
    let mut done = 0;
    while done < bytes.len() {
        let n = read_once(input, &mut bytes[done..]);
        if n == 0 {
            break;
        }
        done += n;
    }
    done
}

// One read; 0 where it fails too.
fn read_once<R: Read>(input: &mut R, bytes: &mut [u8]) -> usize
    ensures within { result ≤ length bytes.new }
    ensures read { Consumes (R.remaining input.old) (R.remaining input.new) (take result bytes.new) }
{
    match input.read(bytes) {
        Ok(n) => n,
        Err(_) => 0,
    }
}

// How many words there are, the program's own name among them.
pub fn arg_count<E: Env>(env: &E) -> usize {
    for i in 0..usize::MAX {
        let mut none = [0u8; 0];
        if let Err(FillError::NotPresent) = env.arg(i, &mut none) {
            return i;
        }
    }
    usize::MAX
}

// Puts word `i` at the beginning of `word` and answers its length, or 0 where there is none or it is longer than `word`.
pub fn arg<E: Env>(env: &E, i: usize, word: &mut [u8]) -> usize
    ensures { result ≤ length word.new }
{
    match env.arg(i, word) {
        Ok(n) => n,
        Err(_) => 0,
    }
}
