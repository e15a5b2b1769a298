//! A program that runs vectors. Its input has one a line: what is asked in eight characters, a blank, and what it is asked of; its
//! output has the same lines, each with its answer. A line that begins with # is a note, and `text` gives the text that a letter
//! names. ~ stands for LF and ^ for CR. `each` answers the vector behind it for each value of a run of wild characters in it:
//! # a digit, @ a capital, ? any byte.

use crate::SAMPLES;
pub use crate::answer::Answer;

/// What a program asks of its vectors.
pub trait Program {
    /// The first answer to what is `asked` of `f`. Where there is an `out`, all of it is told there, with ` -> ` in front.
    fn answer(
        &self,
        out: Option<&HostRuntime>,
        asked: &[u8],
        f: &[u8],
        samples: &[u8; SAMPLES],
    ) -> Answer;
}

fn answer_line<P: Program>(
    program: &P,
    rt: &HostRuntime,
    line: &mut [u8],
    samples: &mut [u8; SAMPLES],
) {
    if texts::has_text(line, 1, 1, b"#") {
        return;
    }
    if texts::has_text(line, 1, 8, b"text    ") {
        crate::keep(samples, texts::field(line, 10, 65536));
        return;
    }
    if texts::has_text(line, 1, 8, b"each    ") {
        printing::write_all(rt, b" -> ");
        crate::each::of_run(program, rt, line, samples);
        return;
    }
    program.answer(
        Some(rt),
        texts::field(line, 1, 8),
        texts::field(line, 10, 65536),
        samples,
    );
}

/// A line is told as it was read, and its marks are turned before it is answered.
fn case<P: Program>(program: &P, rt: &HostRuntime, line: &mut [u8], samples: &mut [u8; SAMPLES]) {
    printing::write_all(rt, line);
    crate::mark(line);
    answer_line(program, rt, line, samples);
    printing::write_all(rt, b"\n");
}

/// Runs each vector of `text`, which it changes.
pub fn run<P: Program>(program: &P, rt: &HostRuntime, text: &mut [u8]) {
    let mut samples = [0u8; SAMPLES];
    for line in text.split_inclusive_mut(|&b| b == b'\n') {
        let end = crate::before(line, b'\n');
        case(program, rt, &mut line[..end], &mut samples);
    }
}
