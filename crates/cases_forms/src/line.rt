//! The right line, or that line with one place changed.
use rules::Reason;
use vectors::SAMPLES;
use vectors::program::Answer;

/// 0, or the reason's number.
fn number(verdict: Result<(), Reason>) -> Answer {
    match verdict {
        Ok(()) => Answer::Number(0),
        Err(reason) => Answer::Number(u64::from(reason.number())),
    }
}

pub fn of_line(asked: &[u8], f: &[u8], samples: &[u8; SAMPLES]) -> Answer {
    let mut line = [0u8; 128];
    vectors::lay(&mut line, 1, 128, samples, b"X");
    if asked == b"under   ".as_slice() {
        return number(lines::line_fault(&line, b"900123", f));
    }
    vectors::change(&mut line, f);
    match asked {
        b"line    " => number(lines::line_fault(&line, b"900123", b"97990012      0816900123")),
        b"record  " => Answer::from(lines::is_record(&line)),
        _ => crate::file::of_file(asked, f, samples),
    }
}
