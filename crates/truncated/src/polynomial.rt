use std::fmt;

// A polynomial cut at x^8 or before. In the layout of C, so that a C caller can lend memory of them.
#[derive(Clone, Copy, Debug, PartialEq, Eq, Hash)]
#[repr(C)]
pub struct Polynomial {
    // The constant first.
    pub coefficients: [u8; 8],
}

// The coefficients, parted by blanks.
impl fmt::Display for Polynomial {
    fn fmt<W: fmt::Write>(&self, f: &mut fmt::Formatter<W>) -> fmt::Result {
        let mut between = "";
        for c in &self.coefficients {
            write!(f, "{between}{c}")?;
            between = " ";
        }
        Ok(())
    }
}
