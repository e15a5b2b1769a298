//! What is asked, by its eight characters.
use vectors::SAMPLES;
use vectors::program::Answer;

fn is_separator(f: &[u8]) -> bool {
    let k = plates::plate_characters(texts::field(f, 1, 10));
    plates::is_separator(texts::field(f, 11, 65536), k)
}

pub fn answer(asked: &[u8], f: &[u8], samples: &[u8; SAMPLES]) -> Answer {
    match asked {
        b"luhn    " => Answer::from(pans::is_luhn(f)),
        b"pan     " => Answer::from(pans::is_pan(f)),
        b"rows    " => Answer::from(issuers::are_rows(f)),
        b"plate   " => Answer::from(plates::is_plate(f)),
        b"nation  " => Answer::from(plates::is_nationality(f)),
        b"separate" => Answer::from(is_separator(f)),
        b"time    " => Answer::from(times::is_real_time(f)),
        b"date    " => Answer::from(times::is_real_date(f)),
        b"seconds " => crate::seconds::number(f),
        b"write   " | b"account " | b"written " | b"kept    " | b"answered" => {
            crate::given::of_writer(asked, f, samples)
        }
        b"copies  " => crate::copies::of_copies(f, samples),
        _ => crate::line::of_line(asked, f, samples),
    }
}
