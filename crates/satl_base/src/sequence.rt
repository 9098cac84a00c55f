// A list in order whose first item mostly leaves first.
ghost use Rattle.std.specs.Prelude.{◌≡◌, ◌<◌, ◌-◌, ◌++◌, ◌∷◌, ◌==◌, [], length, remove, slice_index_or, take};

use std::marker::Model;

/// At most ROOM items in order (profile). Clauses see the list of them. As the first leaves, and as one comes, no other is
/// moved, but for once in a while, where the room behind the last is used up; as another leaves, those behind it move up.
// Where the room is several times what is held, that is seldom.
#[derive(Drop)]
pub struct Sequence<T, const ROOM: usize> {
    places: [T; ROOM],
    // The items are those from this place on.
    start: usize,
    // The place behind the last item.
    end: usize,
}

impl<T, const ROOM: usize> Model for Sequence<T, ROOM> {
    ghost use Rattle.std.specs.Prelude.{List, ◌≡◌, ◌≤◌, length, slice_range};

    ghost Value = { List T };

    ghost view = { λ s. slice_range s.places s.start s.end };

    ghost invariant = { λ s. (s.start ≤ s.end) × (s.end ≤ ROOM) × (length s.places ≡ ROOM) };
}

impl<T: Copy + Default, const ROOM: usize> Sequence<T, ROOM> {
    /// No item. It takes no memory (profile).
    pub fn new() -> Self
        ensures { result ≡ [] }
    {
        Sequence {
            places: [T::default(); ROOM],
            start: 0,
            end: 0,
        }
    }

    /// How many items there are.
    pub fn len(&self) -> usize
        ensures { result ≡ length self.now }
    {
        self.end - self.start
    }

    /// Whether there is no item.
    pub fn is_empty(&self) -> bool
        ensures { result ≡ (length self.now == 0) }
    {
        self.start == self.end
    }

    /// The items in order.
    pub fn as_slice(&self) -> &[T]
        ensures { result.now ≡ self.now }
    {
        let places = &self.places[..];
        &places[self.start..self.end]
    }

    /// The item at a place, counted from 0.
    pub fn at(&self, place: usize) -> T
        requires { place < length self.now }
        ensures { result ≡ slice_index_or self.now place result }
    {
        self.places[self.start + place]
    }

    /// Adds an item at the end.
    pub fn push(&mut self, item: T)
        requires { length self.old < ROOM }
        ensures { self.new ≡ self.old ++ item ∷ [] }
    {
        if self.end == ROOM {
            self.places.copy_within(self.start..self.end, 0);
            self.end -= self.start;
            self.start = 0;
        }
        self.places[self.end] = item;
        self.end += 1;
    }

    /// Takes the item at a place out.
    pub fn remove(&mut self, place: usize) -> T
        requires { place < length self.old }
        ensures value { result ≡ slice_index_or self.old place result }
        ensures others { self.new ≡ remove self.old place }
    {
        let item = self.at(place);
        if place == 0 {
            self.start += 1;
        } else {
            let places = &mut self.places[..];
            close_gap(&mut places[self.start..self.end], place);
            self.end -= 1;
        }
        item
    }

    /// Takes all items out.
    pub fn clear(&mut self)
        ensures { self.new ≡ [] }
    {
        self.start = 0;
        self.end = 0;
    }
}

/// The items behind a place move up by one.
#[inline(never)]
fn close_gap<T>(items: &mut [T], place: usize)
    requires { place < length items.old }
    ensures kept { take (length items.old - 1) items.new ≡ remove items.old place }
    ensures size { length items.new ≡ length items.old }
{
    items[place..].rotate_left(1);
}
