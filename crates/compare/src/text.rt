//! Best loads and list as text.
use crate::choosing::Choice;
use std::fmt;

// Numbers, each after a space.
fn write_numbers<W: fmt::Write>(numbers: &[u16], f: &mut fmt::Formatter<W>) -> fmt::Result {
    for number in numbers {
        write!(f, " {number}")?;
    }
    Ok(())
}

// Four lines: the loads, their total, the words of the list and the number of its paths.
impl fmt::Display for Choice {
    fn fmt<W: fmt::Write>(&self, f: &mut fmt::Formatter<W>) -> fmt::Result {
        write!(f, "loads")?;
        write_numbers(self.loads.as_slice(), f)?;
        write!(f, "\ntotal {}\nwords", self.total)?;
        write_numbers(self.words.as_slice(), f)?;
        writeln!(f, "\ncovers {}", self.paths)
    }
}
