// Up to sixteen numbers, kept in place: for where there is no heap.

// The first `count` of the numbers, or all sixteen where `count` is larger. An array with a count beside it needs no
// heap, and unlike a growing list it is a plain value, so that a line's form that holds one is named by its fields.
#[derive(Clone, Copy)]
pub struct FewNumbers {
    pub numbers: [u32; 16],
    pub count: usize,
}
