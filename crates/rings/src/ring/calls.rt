// The calls on a ring, each by the list of items that it holds.
ghost use Rattle.std.specs.Prelude.{◌≡◌, ◌<◌, ◌≤◌, [], ◌++◌, length, drop, slice_set};
ghost use Rattle.std.specs.Option.{option_map};
ghost use Rattle.std.specs.List.{slice_get};
ghost use Rattle.rings.specs.Held.{placed, between, held, size, pushed, push_answer};

use super::Ring;

// Where the item at place `i` lies, if the first lies at `first` of `size` cells.
fn place(first: usize, size: usize, i: usize) -> usize
    ensures { result ≡ placed first size i }
{
    let tail = size.saturating_sub(first);
    if i < tail { first + i } else { i - tail }
}

// The items of a slice at the places from `from` up to `to`, fewer where it is shorter.
fn within<T>(items: &[T], from: usize, to: usize) -> &[T]
    ensures { result.now ≡ between from to items.now }
{
    let end = to.min(items.len());
    &items[from.min(end)..end]
}

impl<'a, T: Copy> Ring<'a, T> {
    // A ring with no items over the cells.
    pub fn new(cells: &'a mut [T]) -> Ring<'a, T>
        ensures holds { held result ≡ [] }
        ensures room { size result ≡ length cells.old }
    {
        Ring {
            cells,
            first: 0,
            len: 0,
        }
    }

    // The cells again.
    pub fn into_cells(self) -> &'a mut [T]
        ensures { result.now ≡ self.entry.cells.now }
    {
        let Ring { cells, .. } = self;
        cells
    }

    // How many items there are.
    pub fn len(&self) -> usize
        ensures { result ≡ length (held self.now) }
    {
        self.len.min(self.cells.len())
    }

    // How many items there is room for in all.
    pub fn capacity(&self) -> usize
        ensures { result ≡ size self.now }
    {
        self.cells.len()
    }

    // The item at a place, 0 for the oldest.
    pub fn get(&self, i: usize) -> Option<&T>
        ensures { option_map (λ x. x.now) result ≡ slice_get (held self.now) i }
    {
        if i >= self.len() {
            return None;
        }
        let at = place(self.first, self.cells.len(), i);
        self.cells.get(at)
    }

    // The items at the places from `from` up to `to`, fewer where the ring has fewer: the older part, then the newer.
    pub fn range(&self, from: usize, to: usize) -> (&[T], &[T])
        ensures { result.0.now ++ result.1.now ≡ between from to (held self.now) }
    {
        let to = to.min(self.len);
        let (newer, older) = self.cells.split_at(self.first.min(self.cells.len()));
        let rest = older.len();
        (
            within(older, from, to),
            within(newer, from.saturating_sub(rest), to.saturating_sub(rest)),
        )
    }

    // One more item, after the newest; where there is no room it comes back, and the ring stays.
    pub fn push(&mut self, item: T) -> Result<(), T>
        ensures answer { result ≡ push_answer self.old item }
        ensures holds { held self.new ≡ pushed self.old item }
        ensures room { size self.new ≡ size self.old }
    {
        let len = self.len();
        if len >= self.cells.len() {
            return Err(item);
        }
        let at = place(self.first, self.cells.len(), len);
        self.cells[at] = item;
        self.len = len + 1;
        Ok(())
    }

    // Lets the `n` oldest items go, all of them where there are fewer.
    pub fn drop_first(&mut self, n: usize)
        ensures holds { held self.new ≡ drop n (held self.old) }
        ensures room { size self.new ≡ size self.old }
    {
        let len = self.len();
        self.first = place(self.first, self.cells.len(), n.min(len));
        self.len = len.saturating_sub(n);
    }

    // Lets every item go.
    pub fn clear(&mut self)
        ensures holds { held self.new ≡ [] }
        ensures room { size self.new ≡ size self.old }
    {
        self.first = 0;
        self.len = 0;
    }
}
