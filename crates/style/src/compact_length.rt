// style/compact_length.rs: a length, by its tag, its value and its second value, which sums alone read.
// The tag stays a number, the Rust's bit pattern: document 01's record has any word there, and its field refuses one that is no tag.

#[derive(Clone, Copy, PartialEq)]
pub struct CompactLength {
    pub tag: u32,
    pub value: f32,
    pub second: f32,
}
