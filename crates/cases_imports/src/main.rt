//! Runs the vectors on registers, lookups, sweeps, imports and the provider's side, from the document and docs/DECISIONS.md.
//! `vectors::program` says how a line of `stdin` is read, and its answer told.
#![tactic(auto)]

use vectors::SAMPLES;
use vectors::program::{Answer, Program};

mod blocks;
mod found;
mod importing;
mod many;
mod numbered;
mod pairs;
mod sweeps;
mod tell;

/// The most bytes of `stdin` that are read.
const INPUT: usize = 196608;

struct Imports;

impl Program for Imports {
    fn answer(
        &self,
        out: Option<&HostRuntime>,
        asked: &[u8],
        f: &[u8],
        samples: &[u8; SAMPLES],
    ) -> Answer {
        match asked {
            b"import  " => importing::of_import(out, f, samples),
            b"local   " => importing::of_local(out, f, samples),
            b"indexed " => importing::of_indexed(out, f, samples),
            b"many    " => many::of_lines(out, f, samples),
            b"slots   " => many::of_slots(out, f),
            b"numbered" => numbered::of_series(out, f, samples),
            b"readback" => pairs::of_read(out, f, samples),
            b"update  " => pairs::of_update(out, f, samples),
            b"utc     " => pairs::of_utc(out, f, samples),
            b"sweep   " => sweeps::of_sweep(out, f, samples),
            b"gone    " => sweeps::of_gone(out, f, samples),
            _ => found::of_register(out, asked, f, samples),
        }
    }
}

fn main(rt: HostRuntime) {
    let mut text = [0u8; INPUT];
    let n = printing::read_full(&rt, &mut text);
    vectors::program::run(&Imports, &rt, &mut text[..n]);
}
