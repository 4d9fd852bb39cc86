// A text that is written piece by piece.
use chill_base::Memory;
use modes::Bounds;
use std::alloc::Global;

/// A text that grows at its end.
#[derive(Drop)]
pub struct Page {
    bytes: Vec<u8>,
}

impl Page {
    /// The empty text.
    pub fn new(alloc: Global) -> Page {
        Page {
            bytes: Vec::new(alloc),
        }
    }

    /// The text so far, which is empty where its bytes are none of a text.
    pub fn as_text(&self) -> &str {
        match std::str::from_utf8(&self.bytes) {
            Ok(text) => text,
            Err(_) => "",
        }
    }

    /// Puts a text at the end.
    pub fn put(&mut self, text: &str) -> Result<(), Memory> {
        self.bytes.extend_from_slice(text.as_bytes())?;
        Ok(())
    }

    /// Puts a name at the end.
    pub fn put_name(&mut self, name: &[u8]) -> Result<(), Memory> {
        self.bytes.extend_from_slice(name)?;
        Ok(())
    }

    /// Puts a number at the end.
    pub fn put_number(&mut self, number: i64) -> Result<(), Memory> {
        let digits = format!(in *self.bytes.allocator(); "{number}")?;
        self.put(&digits)
    }

    /// Puts a word and a number behind it at the end.
    pub fn put_with(&mut self, word: &str, number: u32) -> Result<(), Memory> {
        self.put(word)?;
        self.put_number(i64::from(number))
    }

    /// Puts numbers at the end, with commas between them.
    pub fn put_numbers(&mut self, numbers: &[u32]) -> Result<(), Memory> {
        for (place, number) in numbers.iter().enumerate() {
            if place > 0 {
                self.put(", ")?;
            }
            self.put_number(i64::from(*number))?;
        }
        Ok(())
    }

    /// Puts a word and a number behind it at the end, where there is a number.
    pub fn put_some(&mut self, word: &str, number: Option<u32>) -> Result<(), Memory> {
        match number {
            None => Ok(()),
            Some(number) => self.put_with(word, number),
        }
    }

    /// Puts a word at the end where something holds.
    pub fn put_if(&mut self, word: &str, holds: bool) -> Result<(), Memory> {
        if holds { self.put(word) } else { Ok(()) }
    }

    /// Puts a number of scalars behind a word where it isn't one.
    pub fn put_count(&mut self, word: &str, count: u32) -> Result<(), Memory> {
        if count == 1 {
            Ok(())
        } else {
            self.put_with(word, count)
        }
    }

    /// Puts bounds at the end: INT for its own, else the lower and the upper one.
    pub fn put_bounds(&mut self, bounds: Bounds) -> Result<(), Memory> {
        if bounds.low == -2147483648 && bounds.high == 2147483647 {
            return self.put("INT");
        }
        self.put_number(bounds.low)?;
        self.put("..")?;
        self.put_number(bounds.high)
    }

    /// Puts bounds behind a word where there are some.
    pub fn put_some_bounds(&mut self, word: &str, bounds: Option<Bounds>) -> Result<(), Memory> {
        match bounds {
            None => Ok(()),
            Some(bounds) => {
                self.put(word)?;
                self.put_bounds(bounds)
            }
        }
    }
}
