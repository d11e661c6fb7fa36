use std::io;

/// How many lines were right and how many wrong.
#[derive(Clone, Copy)]
pub struct Verdicts {
    right: u64,
    wrong: u64,
}

impl Verdicts {
    /// No line yet.
    pub fn none() -> Verdicts {
        Verdicts { right: 0, wrong: 0 }
    }

    /// Counts a line.
    pub fn count(&mut self, is_right: bool) {
        if is_right {
            self.right = self.right.wrapping_add(1);
        } else {
            self.wrong = self.wrong.wrapping_add(1);
        }
    }

    /// Prints them behind the name of what the lines have.
    pub fn print(&self, rt: &impl Print, name: &str) -> io::Result<()> {
        let Verdicts { right, wrong } = *self;
        println!(rt; "{name}: {right} right, {wrong} wrong")
    }
}
