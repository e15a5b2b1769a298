//! An HGV of one line with one place changed.
use vectors::SAMPLES;
use vectors::program::Answer;

/// The answer to what no program asks.
const UNKNOWN: Answer = Answer::Number(255);

/// Has a block of so many bytes the length of a file.
fn has_length(n: usize) -> bool {
    let block = [0u8; 1024];
    n <= block.len() && hgv::has_length(&block[..n])
}

fn length_in(f: &[u8]) -> usize {
    numbers::number(texts::field(f, 1, 3)) as usize
}

pub fn of_file(asked: &[u8], f: &[u8], samples: &[u8; SAMPLES]) -> Answer {
    let mut file = [0u8; 320];
    vectors::lay(&mut file, 1, 128, samples, b"1X");
    vectors::lay(&mut file, 257, 64, samples, b"T");
    vectors::change(&mut file, f);
    match asked {
        b"header  " => Answer::from(header::has_header(&file)),
        b"version " => Answer::from(claims::has_version(&file)),
        b"receiver" => Answer::from(claims::has_receiver(&file)),
        b"count   " => Answer::from(claims::has_count(&file)),
        b"footer  " => Answer::from(frames::has_footer(&file)),
        b"frames  " => Answer::from(frames::has_frames(&file)),
        b"length  " => Answer::from(has_length(length_in(f))),
        _ => UNKNOWN,
    }
}
