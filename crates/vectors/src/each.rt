//! A vector with a run of wild characters: it is answered for each value of the run, and neighbours with one answer are told
//! together.
ghost use Rattle.std.specs.Prelude.{◌+◌, ◌≤◌, length};

use crate::SAMPLES;
use crate::program::{Answer, Program};

/// The run: where it stands in the line, how many places it has, and its wild character.
#[derive(Clone, Copy)]
struct Run {
    at: usize,
    width: usize,
    kind: u8,
    ghost few: { width ≤ 4 },
}

fn tell_text(rt: &HostRuntime, text: &mut [u8], kind: u8, v: usize) {
    ranges::put_value(text, kind, v);
    printing::write_all(rt, text);
}

/// A byte as its number, digits and capitals as their text.
fn tell_value(rt: &HostRuntime, run: Run, v: usize) {
    if run.kind == b'?' {
        printing::print_decimal(rt, v as u64);
        return;
    }
    let mut text = [0u8; 4];
    tell_text(rt, &mut text[..run.width], run.kind, v);
}

/// The values from `first` to `last`, and their answer.
fn tell_values(rt: &HostRuntime, run: Run, first: usize, last: usize, answer: Answer) {
    if 0 < first {
        printing::write_all(rt, b", ");
    }
    tell_value(rt, run, first);
    if first < last {
        printing::write_all(rt, b"-");
        tell_value(rt, run, last);
    }
    printing::write_all(rt, b": ");
    printing::print(rt, &answer);
}

/// The answer to the vector behind `each`, with a value over its run.
fn of_value<P: Program>(
    program: &P,
    line: &mut [u8],
    run: Run,
    v: usize,
    samples: &[u8; SAMPLES],
) -> Answer
    requires { run.at + run.width ≤ length line.old }
{
    let end = run.at + run.width;
    ranges::put_value(&mut line[run.at..end], run.kind, v);
    program.answer(
        None,
        texts::field(line, 10, 17),
        texts::field(line, 19, 65536),
        samples,
    )
}

fn each_value<P: Program>(
    program: &P,
    rt: &HostRuntime,
    line: &mut [u8],
    run: Run,
    samples: &[u8; SAMPLES],
)
    requires { run.at + run.width ≤ length line.old }
{
    let n = ranges::values(run.kind, run.width);
    let mut first: usize = 0;
    let mut answer = of_value(program, line, run, 0, samples);
    for v in 1..n {
        let next = of_value(program, line, run, v, samples);
        if next != answer {
            tell_values(rt, run, first, v - 1, answer);
            first = v;
            answer = next;
        }
    }
    tell_values(rt, run, first, n.saturating_sub(1), answer);
}

/// Nothing is told of a line without wild characters.
pub(crate) fn of_run<P: Program>(
    program: &P,
    rt: &HostRuntime,
    line: &mut [u8],
    samples: &[u8; SAMPLES],
) {
    let at = ranges::plain(line);
    let width = ranges::width(&line[at..]);
    if width == 0 {
        return;
    }
    let kind = line[at];
    each_value(program, rt, line, Run { at, width, kind }, samples);
}
