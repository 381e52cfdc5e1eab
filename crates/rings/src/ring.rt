// A queue of items in a lent slice.
pub mod calls;

// The items lie from `first` on, and go on at the front of the slice. The memory is lent, so no deque of
// the library's serves; it is seen by its fields, since its clauses name the cells.
#[derive(Drop)]
pub struct Ring<'a, T> {
    cells: &'a mut [T],
    first: usize,
    len: usize,
}
