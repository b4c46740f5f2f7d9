// Byte strings in fixed memory: in a room of their own, or in a lent buffer of any length.
ghost use Rattle.std.specs.Prelude.{◌≡◌, ◌<◌, ◌≤◌, min, length, slice_index};

use crate::dice::Dice;

// The byte at a place; 0 past the end.
pub fn get(bytes: &[u8], at: usize) -> u8
    ensures past { length bytes.now ≤ at → result ≡ 0 }
    ensures within { at < length bytes.now → result ≡ slice_index bytes.now at }
{
    bytes.get(at).copied().unwrap_or(0)
}

// A byte string: the first so many bytes of a room. A byte that is not there reads as 0, and a write to it is none; bytes for which there is
// no room are left out.
pub trait ByteString {
    // The string.
    fn bytes(&self) -> &[u8];

    // All that there is room for, from the string's first byte on.
    fn room(&mut self) -> &mut [u8];

    // The first so many bytes of the room, or all of it.
    fn resize(&mut self, len: usize);

    // The string, to be written to.
    fn bytes_mut(&mut self) -> &mut [u8] {
        let len = self.bytes().len();
        let room = self.room();
        let end = len.min(room.len());
        &mut room[..end]
    }

    fn get(&self, at: usize) -> u8 {
        get(self.bytes(), at)
    }

    fn set(&mut self, at: usize, b: u8) {
        if let Some(place) = self.bytes_mut().get_mut(at) {
            *place = b;
        }
    }

    fn swap(&mut self, at: usize, other: usize) {
        let bytes = self.bytes_mut();
        if at < bytes.len() && other < bytes.len() {
            bytes.swap(at, other);
        }
    }

    // So many bytes exchanged from two places on, one after the other.
    fn exchange(&mut self, at: usize, other: usize, count: usize) {
        for i in 0..count.min(self.bytes().len()) {
            let (x, y) = (at.saturating_add(i), other.saturating_add(i));
            let (b, c) = (self.get(x), self.get(y));
            self.set(x, c);
            self.set(y, b);
        }
    }

    // These bytes put in at a place, the rest moved up.
    fn insert(&mut self, at: usize, more: &[u8]) {
        let bytes = self.bytes().len();
        let room = self.room();
        let len = bytes.min(room.len());
        if at > len || more.len() > room.len() - len {
            return;
        }
        let end = at + more.len();
        room.copy_within(at..len, end);
        room[at..end].copy_from_slice(more);
        self.resize(len + more.len());
    }

    fn extend(&mut self, more: &[u8]) {
        let len = self.bytes().len();
        self.insert(len, more);
    }

    fn push(&mut self, b: u8) {
        self.extend(&[b]);
    }

    // Half the time up to seven bytes more, any.
    fn extend_any(&mut self, dice: &mut Dice) {
        let most = if dice.once_in(2) { 8 } else { 0 };
        for _ in 0..dice.below(most) {
            self.push(dice.byte());
        }
    }

    // So many bytes taken out at a place, the rest moved down.
    fn remove(&mut self, at: usize, count: usize) {
        let bytes = self.bytes_mut();
        let len = bytes.len();
        if at < len {
            let end = at + count.min(len - at);
            bytes.copy_within(end..len, at);
            self.resize(len - (end - at));
        }
    }

    fn truncate(&mut self, len: usize) {
        let shorter = self.bytes().len().min(len);
        self.resize(shorter);
    }

    // One thing wrong in the bytes themselves: one changed, some cut off, one put in or one taken out.
    fn damage(&mut self, dice: &mut Dice) {
        let len = self.bytes().len();
        match dice.below(4) {
            0 => {
                let at = dice.below(len);
                self.set(at, dice.byte());
            }
            1 => self.truncate(dice.below(len.saturating_add(1))),
            2 => {
                let at = dice.below(len.saturating_add(1));
                self.insert(at, &[dice.below(5) as u8]);
            }
            _ => self.remove(dice.below(len), 1),
        }
    }
}

// A byte string of at most ROOM bytes.
#[derive(Clone, Copy)]
pub struct Bytes<const ROOM: usize> {
    room: [u8; ROOM],
    len: usize,
    ghost within: { len ≤ ROOM },
}

impl<const ROOM: usize> Bytes<ROOM> {
    pub fn new() -> Self {
        Bytes {
            room: [0; ROOM],
            len: 0,
        }
    }

    pub fn len(&self) -> usize
        ensures { result ≤ ROOM }
    {
        self.len
    }

    pub fn is_empty(&self) -> bool {
        self.len == 0
    }

    pub fn as_slice(&self) -> &[u8]
        ensures { length result.now ≤ ROOM }
    {
        &self.room[..self.len]
    }
}

impl<const ROOM: usize> ByteString for Bytes<ROOM> {
    fn bytes(&self) -> &[u8] {
        self.as_slice()
    }

    fn room(&mut self) -> &mut [u8] {
        let room = &mut self.room;
        &mut room[..]
    }

    fn resize(&mut self, len: usize) {
        self.len = len.min(ROOM);
    }
}

// The first so many bytes of a lent buffer, or all of it.
#[derive(Drop)]
pub struct Lent<'a> {
    room: &'a mut [u8],
    len: usize,
}

impl<'a> Lent<'a> {
    pub fn new(room: &'a mut [u8], len: usize) -> Lent<'a>
        ensures { result.len ≡ min len (length room.old) }
    {
        let len = len.min(room.len());
        Lent { room, len }
    }

    pub fn len(&self) -> usize
        ensures { result ≡ self.now.len }
    {
        self.len
    }
}

impl ByteString for Lent<'_> {
    fn bytes(&self) -> &[u8] {
        let end = self.len.min(self.room.len());
        &self.room[..end]
    }

    fn room(&mut self) -> &mut [u8] {
        &mut *self.room
    }

    fn resize(&mut self, len: usize) {
        self.len = len.min(self.room.len());
    }
}
