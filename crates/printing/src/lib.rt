//! Bytes and numbers to the standard output, and bytes from the standard input.
#![tactic(auto)]

ghost use Rattle.std.specs.Prelude.{◌≤◌, length};

use std::io::{Read, Write};
use std::{fmt, io};

/// Writes all of `text`. False where a write failed, when some of it may have been written.
pub fn write_all(rt: &HostRuntime, text: &[u8]) -> bool {
    io::writer(rt).write_all(text).is_ok()
}

/// Writes a value as it shows itself. False where a write failed.
pub fn print<T: fmt::Display>(rt: &HostRuntime, value: &T) -> bool {
    print!(rt; "{value}").is_ok()
}

/// Writes a number in decimal digits. False where a write failed.
pub fn print_decimal(rt: &HostRuntime, n: u64) -> bool {
    print!(rt; "{n}").is_ok()
}

/// Reads until `to` is full, the input ends or a read fails; how many bytes it put at the start of `to`.
pub fn read_full(rt: &HostRuntime, to: &mut [u8]) -> usize
    ensures { result ≤ length to.new }
{
    let mut done: usize = 0;
    for _ in 0..to.len() {
        match rt.reader().read(&mut to[done..]) {
            Ok(0) => {
                return done;
            }
            Ok(n) => {
                done += n;
            }
            Err(_) => {
                return done;
            }
        }
    }
    done
}
