//! A sweep, from one line: a register by its letters, a place of it changed to an end, and the time, of any length. Answered are
//! both numbers and, where the first is 0, the register after it. The first number is handed back; `gone` hands back how many
//! went, and tells no more.
ghost use Rattle.std.specs.Prelude.{◌*◌, ◌≤◌, length};
ghost use Rattle.sizes.specs.Sizes.{slot_length};

use crate::blocks::{REGISTER, lay_slots};
use rules::Refusal;
use vectors::SAMPLES;
use vectors::program::Answer;

/// The register that is swept; how many bytes it has.
fn lay_ended(to: &mut [u8], samples: &[u8; SAMPLES], f: &[u8]) -> usize
    requires { 5 * slot_length ≤ length to.old }
    ensures { result ≤ 5 * slot_length }
{
    let end = lay_slots(to, samples, texts::field(f, 1, 4));
    vectors::change(to, texts::field(f, 6, 23));
    end
}

/// Is the register as the line says.
fn is_kept(register: &[u8], samples: &[u8; SAMPLES], f: &[u8]) -> bool {
    let mut laid = [0u8; REGISTER];
    let end = lay_ended(&mut laid, samples, f);
    register == &laid[..end]
}

/// Both numbers, and the register after it; at a refusal, whether it is as it was.
fn tell_swept(
    rt: &HostRuntime,
    swept: Result<u64, Refusal>,
    f: &[u8],
    samples: &[u8; SAMPLES],
    register: &[u8],
) {
    crate::tell::first(rt, Answer::of_call(&swept));
    crate::tell::number(rt, swept.unwrap_or(0));
    if swept.is_ok() {
        printing::write_all(rt, b"\n");
        crate::tell::slots(rt, register);
        return;
    }
    printing::write_all(rt, b" ");
    crate::tell::kept(rt, is_kept(register, samples, f));
}

pub fn of_sweep(out: Option<&HostRuntime>, f: &[u8], samples: &[u8; SAMPLES]) -> Answer {
    let mut register = [0u8; REGISTER];
    let end = lay_ended(&mut register, samples, f);
    let swept = sweeping::sweep(&mut register[..end], texts::field(f, 25, 65536));
    if let Some(rt) = out {
        tell_swept(rt, swept, f, samples, &register[..end]);
    }
    Answer::of_call(&swept)
}

pub fn of_gone(out: Option<&HostRuntime>, f: &[u8], samples: &[u8; SAMPLES]) -> Answer {
    let mut register = [0u8; REGISTER];
    let end = lay_ended(&mut register, samples, f);
    let swept = sweeping::sweep(&mut register[..end], texts::field(f, 25, 65536));
    let gone = Answer::from(swept.unwrap_or(0));
    if let Some(rt) = out {
        crate::tell::first(rt, gone);
    }
    gone
}
