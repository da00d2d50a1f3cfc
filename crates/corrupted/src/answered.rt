// How many calls got each answer, for the reports of `damage` and `lent_damage`.
use std::io;

// The answers of an event call, by document 01's numbers.
const NUMBERS: [usize; 6] = [0, 9, 10, 11, 12, 13];

// A count for each number up to the last.
#[derive(Clone, Copy, Default)]
pub struct Answered {
    counts: [u32; 14],
}

impl Answered {
    pub fn count(&mut self, answer: usize) {
        if let Some(n) = self.counts.get_mut(answer) {
            *n = n.saturating_add(1);
        }
    }

    pub fn report(&self, rt: &impl Print) -> io::Result<()> {
        for number in NUMBERS {
            if let Some(n) = self.counts.get(number) {
                println!(rt; "{n} answered {number}")?;
            }
        }
        Ok(())
    }
}
