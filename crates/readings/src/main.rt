// Reads the texts of data/cases, each behind its length and the answer it must get, and counts right and wrong answers.
// A case: length (two bytes, low first), number (one byte), place (two bytes, low first), then the text.
#![tactic(auto)]

use std::io::Read;
use std::{fs, io};

// More than there are cases.
const MOST_CASES: u32 = 10000;

// What is lent for a text: a length of two bytes is below it.
const BUFFER: usize = 65536;

// A text, with the number of the answer that it must get, and the place beside it.
#[derive(Clone, Copy)]
struct Case<'a> {
    number: u8,
    place: u16,
    text: &'a [u8],
}

impl<'a> Case<'a> {
    // The next case of a file, as far as it goes, its text in the lent buffer, or none at the file's end.
    fn read<R: Read>(file: &mut R, buffer: &'a mut [u8; BUFFER]) -> io::Result<Option<Case<'a>>> {
        let mut head = [0u8; 5];
        if input::fill(file, &mut head)? < head.len() {
            return Ok(None);
        }
        let length = u16::from_le_bytes([head[0], head[1]]);
        let there = input::fill(file, &mut buffer[..usize::from(length)])?;
        Ok(Some(Case {
            number: head[2],
            place: u16::from_le_bytes([head[3], head[4]]),
            text: &buffer[..there],
        }))
    }

    fn is_right(&self) -> bool {
        let answer = reader::read(self.text).answer;
        book::number_of(answer) == usize::from(self.number)
            && book::place_of(answer) == usize::from(self.place)
    }
}

#[derive(Clone, Copy)]
struct Score {
    right: u32,
    wrong: u32,
}

impl Score {
    fn count(&mut self, rt: &impl Print, case: &Case<'_>) -> io::Result<()> {
        if case.is_right() {
            self.right = self.right.saturating_add(1);
            return Ok(());
        }
        let before = self.right.saturating_add(self.wrong);
        self.wrong = self.wrong.saturating_add(1);
        println!(rt; "wrong: {before}")
    }
}

fn main(rt: HostRuntime) -> io::Result<()> {
    let mut file = fs::open(&rt, "cases")?;
    let mut buffer = [0u8; BUFFER];
    let mut score = Score { right: 0, wrong: 0 };
    for _ in 0..MOST_CASES {
        let Some(case) = Case::read(&mut file, &mut buffer)? else {
            break;
        };
        score.count(&rt, &case)?;
    }
    let Score { right, wrong } = score;
    println!(rt; "{right} right, {wrong} wrong")
}
