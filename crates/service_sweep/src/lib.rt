//! What Rust calls for the sweep, on numbers and byte slices: it hands on to the crate that does the work, and writes the number
//! that it is lent, zero at a refusal.
#![tactic(auto)]

ghost use Rattle.service_sweep.specs.Promises.{GraftspindleSweep};

/// The sweep of a register or a copy at a time: 0 or its number; how many records went.
#[unsafe(no_mangle)]
pub extern "C" fn graftspindle_sweep(register: &mut [u8], time: &[u8], removed: &mut u64) -> u64
    ensures { GraftspindleSweep time.now register.old result removed.new register.new }
{
    let (number, went) = match sweeping::sweep(register, time) {
        Ok(went) => (0, went),
        Err(refusal) => (refusal.number(), 0),
    };
    *removed = went;
    number
}
