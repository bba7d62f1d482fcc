// Lists with an entry for each of up to eight dimensions: how they are made, compared, joined, cut, exchanged, shortened and extended.
ghost use Rattle.std.specs.Prelude.{◌≡◌, ◌+◌, ◌-◌, ◌<◌, ◌≤◌, ◌&&◌, [], ◌++◌, length, take, drop, reverse, if◌then◌else◌, Some, None, nat_le};
ghost use Rattle.std.specs.Option.{option_map};
ghost use Rattle.indices.specs.Dimensions.{same, two_of, exchanged, remove_at, removed, insert_at, inserted};
ghost use Rattle.indices.specs.Places.{at1};
ghost use Rattle.indices.specs.Coordinates.{coordinates, Holds};
ghost use Rattle.indices.specs.Equality.{same_equivalence, same_partial};

use super::index::Index;

// What is said of more entries than an index has.
#[derive(Clone, Copy, PartialEq, Eq, Debug)]
pub struct TooLong;

// These entries, if there are at most eight.
impl TryFrom<&[u16]> for Index {
    type Error = TooLong;

    ghost try_from_gives = { λ entries r. Holds entries.now r };

    fn try_from(entries: &[u16]) -> Result<Index, TooLong> {
        let len = entries.len();
        if len > 8 {
            return Err(TooLong);
        }
        let mut coords = [0; 8];
        coords[..len].copy_from_slice(entries);
        Ok(Index { len, coords })
    }
}

// Whether the entries are the same; what stands behind them doesn't count.
impl PartialEq for Index {
    ghost eq = { λ x y. same (coordinates x) (coordinates y) };

    ghost laws = { same_partial };

    fn eq(&self, other: &Index) -> bool {
        self.as_slice() == other.as_slice()
    }
}

impl Eq for Index {
    ghost laws = { same_equivalence };
}

impl Index {
    // No entry: the index of a scalar.
    pub fn empty() -> Index
        ensures { coordinates result ≡ [] }
    {
        Index {
            len: 0,
            coords: [0; 8],
        }
    }

    // The entries, one for each dimension.
    pub fn as_slice(&self) -> &[u16]
        ensures { result.now ≡ coordinates self.now }
    {
        &self.coords[..self.len]
    }

    // The entry of a dimension, from 1; 0, which is no coordinate and no extent, where there is none: callers need no Option.
    pub fn entry(&self, d: usize) -> u16
        ensures { result ≡ at1 (coordinates self.now) d }
    {
        if d < 1 || d > self.len {
            return 0;
        }
        self.coords[d - 1]
    }

    // These entries and then the others, if there are at most eight.
    pub fn joined(self, other: Index) -> Option<Index>
        ensures { option_map coordinates result ≡ (if nat_le (length (coordinates self) + length (coordinates other)) 8 then Some (coordinates self ++ coordinates other) else None) }
    {
        let len = self.len + other.len;
        if len > 8 {
            return None;
        }
        let mut coords = self.coords;
        coords[self.len..len].copy_from_slice(other.as_slice());
        Some(Index { len, coords })
    }

    // The first n entries; all where there are fewer.
    pub fn first(self, n: usize) -> Index
        ensures { coordinates result ≡ take n (coordinates self) }
    {
        let coords = self.coords;
        let len = n.min(self.len);
        Index { len, coords }
    }

    // What is left after the first n entries.
    pub fn rest(self, n: usize) -> Index
        ensures { coordinates result ≡ drop n (coordinates self) }
    {
        if n >= self.len {
            return Index::empty();
        }
        let mut coords = self.coords;
        coords.copy_within(n..self.len, 0);
        let len = self.len - n;
        Index { len, coords }
    }

    // The entries from last to first.
    pub fn reversed(self) -> Index
        ensures { coordinates result ≡ reverse (coordinates self) }
    {
        let mut coords = self.coords;
        coords[..self.len].reverse();
        let len = self.len;
        Index { len, coords }
    }

    // Dimensions m and n exchanged, if they are two, m below n.
    pub fn exchanged(self, m: usize, n: usize) -> Option<Index>
        ensures { option_map coordinates result ≡ (if two_of m n (length (coordinates self)) then Some (exchanged m n (coordinates self)) else None) }
    {
        if m < 1 || m >= n || n > self.len {
            return None;
        }
        let mut coords = self.coords;
        coords.swap(m - 1, n - 1);
        let len = self.len;
        Some(Index { len, coords })
    }

    // Dimensions m and n left out, if they are two, m below n.
    pub fn without(self, m: usize, n: usize) -> Option<Index>
        ensures { option_map coordinates result ≡ (if two_of m n (length (coordinates self)) then Some (removed m n (coordinates self)) else None) }
    {
        if m < 1 || n <= m || n > self.len {
            return None;
        }
        Some(self.remove(n - 1).remove(m - 1))
    }

    // The entry at p left out.
    fn remove(self, p: usize) -> Index
        requires { p < length (coordinates self) }
        ensures value { coordinates result ≡ remove_at p (coordinates self) }
        ensures len { result.len + 1 ≡ self.len }
    {
        let mut coords = self.coords;
        coords.copy_within(p + 1..self.len, p);
        let len = self.len - 1;
        Index { len, coords }
    }

    // l put in so that it stands at dimensions m and n, m below n, if there are at most eight then.
    pub fn extended(self, m: usize, n: usize, l: u16) -> Option<Index>
        ensures { option_map coordinates result ≡ (if two_of m n (length (coordinates self) + 2) && nat_le (length (coordinates self) + 2) 8 then Some (inserted m n l (coordinates self)) else None) }
    {
        let len = self.len + 2;
        if m < 1 || m >= n || n > len || len > 8 {
            return None;
        }
        Some(self.insert(m - 1, l).insert(n - 1, l))
    }

    // x put in before the entry at p, or last.
    fn insert(self, p: usize, x: u16) -> Index
        requires { (p ≤ self.len) × (self.len < 8) }
        ensures value { coordinates result ≡ insert_at p x (coordinates self) }
        ensures len { result.len ≡ self.len + 1 }
    {
        let mut coords = self.coords;
        coords.copy_within(p..self.len, p + 1);
        coords[p] = x;
        let len = self.len + 1;
        Index { len, coords }
    }
}
