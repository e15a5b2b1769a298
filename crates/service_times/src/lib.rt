//! What Rust calls for a time: it hands on to the crate that does the work, and writes the number that it is lent, zero at a
//! refusal.
#![tactic(auto)]

ghost use Rattle.service_times.specs.Promises.{GraftspindleSeconds};

/// The seconds of a real time since 00010101000000, and 0; or 22.
#[unsafe(no_mangle)]
pub extern "C" fn graftspindle_seconds(time: &[u8], seconds: &mut u64) -> u64
    ensures { GraftspindleSeconds time.now result seconds.new }
{
    match times::time_of(time) {
        Some(n) => {
            *seconds = n;
            0
        }
        None => {
            *seconds = 0;
            22
        }
    }
}
