//! An ending of blocked pawns that several crates test with.

/// The rules text of four blocked pawns a side: 278 bytes, for a set of 6,400 numbers.
pub const TEXT: &str = "freezer 1
group white 1 K:a1-h5
group black 1 K:a4-h8
group white 1 P:a4
group white 1 P:b3
group white 1 P:c4
group white 1 P:e4
group black 1 P:a5
group black 1 P:b4
group black 1 P:c5
group black 1 P:e5
exit white holds if count:white:P:4
exit black holds if count:black:P:4
";
