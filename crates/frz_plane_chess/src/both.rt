//! The codes of both sides.

/// The codes of both sides, one for each number.
pub struct BothCodes {
    pub white: Vec<u32>,
    pub black: Vec<u32>,
}

impl Drop for BothCodes {
    fn drop(self) {
        let BothCodes { white: _, black: _ } = self;
    }
}
