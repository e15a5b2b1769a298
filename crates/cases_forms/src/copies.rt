//! So many copies of one account: more than a file may have are 61, fewer 62.
ghost use Rattle.std.specs.Prelude.{◌≤◌, length};

use crate::given::number_in;
use vectors::SAMPLES;
use vectors::program::Answer;

/// One more than a file may have.
const COPIES: usize = 8193;

fn write_copies(f: &[u8], samples: &[u8; SAMPLES], accounts: &mut [u8]) -> Answer
    requires { 819300 ≤ length accounts.old }
{
    let mut given = [0u8; 69];
    vectors::lay(&mut given, 1, 69, samples, b"G");
    let n = (number_in(f) as usize).min(COPIES);
    let letters = [b'a'; COPIES];
    vectors::lay(accounts, 1, 100, samples, &letters[..n]);
    let mut out = [0u8; 1];
    Answer::of_call(&crate::given::write(
        &given,
        b"97990012      0816900123",
        &accounts[..n * 100],
        &mut out,
    ))
}

// Its own function, so that no proof is about so long an array and a slice of it at once.
fn with_room(f: &[u8], samples: &[u8; SAMPLES], accounts: &mut [u8; 819300]) -> Answer {
    write_copies(f, samples, accounts)
}

pub fn of_copies(f: &[u8], samples: &[u8; SAMPLES]) -> Answer {
    let mut accounts = [0u8; 819300];
    with_room(f, samples, &mut accounts)
}
