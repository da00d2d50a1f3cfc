// Results counted, for the parts alone and for the full pool.
use std::io;

// How many results were right, and how many wrong.
#[derive(Clone, Copy, Default)]
pub struct Score {
    right: u64,
    wrong: u64,
}

impl Score {
    pub fn count(&mut self, yes: bool) {
        let counter = if yes {
            &mut self.right
        } else {
            &mut self.wrong
        };
        *counter = counter.saturating_add(1);
    }

    // Numbers, each a result.
    pub fn count_each<T: PartialEq>(&mut self, got: &[T], want: &[T]) {
        for (x, y) in got.iter().zip(want) {
            self.count(x == y);
        }
    }

    pub fn report(self, rt: &impl Print) -> io::Result<()> {
        println!(rt; "{} right, {} wrong", self.right, self.wrong)
    }
}
