//! What a case describes is laid down in memory where it fits, and each of these says whether it does.
use crate::row::Row;

/// A list of a case: how many it has, where they stand, and the description of what they are.
#[derive(Clone, Copy)]
pub struct List<'a> {
    pub place: usize,
    pub count: usize,
    pub description: &'a [u8],
}

pub fn lay_bytes(bytes: &mut [u8], list: List<'_>) -> bool {
    let Some(laid) = bytes.get_mut(..list.count) else {
        return false;
    };
    let mut row = Row::new(list.description);
    for chunk in laid.chunks_mut(4) {
        let number = row.number().to_le_bytes();
        for (byte, part) in chunk.iter_mut().zip(number) {
            *byte = part;
        }
    }
    true
}

pub fn lay_ends(ends: &mut [u32], list: List<'_>) -> bool {
    let Some(laid) = ends.get_mut(..list.count) else {
        return false;
    };
    let mut row = Row::new(list.description);
    for end in laid {
        *end = row.number();
    }
    true
}

pub fn lay_words(words: &mut [u64], list: List<'_>) -> bool {
    let Some(laid) = pool_mut(words, list) else {
        return false;
    };
    let mut row = Row::new(list.description);
    for word in laid {
        *word = row.word();
    }
    true
}

/// A pool at its place among all words, if it is there.
pub fn pool<'a>(words: &'a [u64], list: List<'_>) -> Option<&'a [u64]> {
    words.get(list.place..)?.get(..list.count)
}

fn pool_mut<'a>(words: &'a mut [u64], list: List<'_>) -> Option<&'a mut [u64]> {
    words.get_mut(list.place..)?.get_mut(..list.count)
}

/// Whether bytes are as they are described.
pub fn same_bytes(bytes: &[u8], description: &[u8]) -> bool {
    let mut row = Row::new(description);
    bytes.chunks(4).all(|chunk| {
        let number = row.number().to_le_bytes();
        number.starts_with(chunk)
    })
}
