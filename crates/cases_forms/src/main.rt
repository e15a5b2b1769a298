//! Runs the vectors on the forms of fields, issuer rows, lines and HGVs and on the writer, from the document and docs/DECISIONS.md.
//! `vectors::program` says how a line of `stdin` is read, and its answer told.
#![tactic(auto)]

use vectors::SAMPLES;
use vectors::program::{Answer, Program};

mod copies;
mod field;
mod file;
mod given;
mod line;
mod seconds;

/// The most bytes of `stdin` that are read.
const INPUT: usize = 65536;

struct Forms;

impl Program for Forms {
    fn answer(
        &self,
        out: Option<&HostRuntime>,
        asked: &[u8],
        f: &[u8],
        samples: &[u8; SAMPLES],
    ) -> Answer {
        let answer = field::answer(asked, f, samples);
        if let Some(rt) = out {
            printing::write_all(rt, b" -> ");
            printing::print(rt, &answer);
            if asked == b"seconds ".as_slice() {
                seconds::tell_behind(rt, f);
            }
        }
        answer
    }
}

fn main(rt: HostRuntime) {
    let mut text = [0u8; INPUT];
    let n = printing::read_full(&rt, &mut text);
    vectors::program::run(&Forms, &rt, &mut text[..n]);
}
