// The scalars of a location in 32-bit words (Z.200, chapter on locations).
ghost use Rattle.std.specs.Prelude.{◌≡◌, ◌<◌, length, slice_get, slice_set, IfOk, Some};
ghost use Rattle.layout_map.specs.Spots.{words_of};
ghost use Rattle.packed_words.specs.Packed.{AreLaid, FitsBits, HasOwnBits, IsPacked, scalars_in};

use chill_base::{Bits, Layout, Memory};
use layout_map::{get_bits, put_bits, words};
use std::alloc::Global;
use std::marker::Model;

/// The words of a location, and where its scalars lie in them.
#[derive(Drop)]
pub struct Packed {
    layout: Layout,
    words: Vec<u32>,
}

impl Model for Packed {
    ghost use Rattle.packed_words.specs.Packed.{IsPacked, SeenPacked, scalars_in};

    ghost Value = { SeenPacked };

    ghost view = { λ p. record { layout = p.layout; scalars = scalars_in p.words.items p.layout } };

    ghost invariant = { λ p. IsPacked p.layout p.words.items };
}

impl Packed {
    /// These scalars, by this layout.
    pub fn new(alloc: Global, layout: Layout, scalars: &[i64]) -> Result<Packed, Memory>
        requires own { HasOwnBits layout }
        requires laid { AreLaid layout scalars.now }
        ensures layout { IfOk result (λ p. p.layout ≡ layout) }
        ensures scalars { IfOk result (λ p. p.scalars ≡ scalars.now) }
    {
        let words = zeros(alloc, words(&layout) as usize)?;
        let mut packed = Packed { layout, words };
        for k in 0..scalars.len() {
            packed.put(k, scalars[k]);
        }
        Ok(packed)
    }

    /// As many words as the layout needs, in which each scalar stands in its bits. It takes no memory.
    pub fn words(&self) -> &[u32]
        ensures count { length result.now ≡ words_of self.now.layout }
        ensures scalars { scalars_in result.now self.now.layout ≡ self.now.scalars }
    {
        self.words.as_slice()
    }

    /// A scalar.
    pub fn get(&self, k: usize) -> i64
        requires { k < length self.now.scalars }
        ensures { slice_get self.now.scalars k ≡ Some result }
    {
        get_bits(&self.words, &self.layout.as_slice()[k])
    }

    /// Puts a number that fits them into the bits of a scalar, and leaves all others. It takes no memory.
    pub fn put(&mut self, k: usize, number: i64)
        requires there { k < length self.old.scalars }
        requires fits { FitsBits self.old.layout k number }
        ensures layout { self.new.layout ≡ self.old.layout }
        ensures scalars { self.new.scalars ≡ slice_set self.old.scalars k number }
    {
        put_number(&mut self.words, self.layout.as_slice(), k, number);
    }
}

fn put_number(words: &mut Vec<u32>, layout: &[Bits], k: usize, number: i64)
    requires packed { IsPacked layout.now words.old.items }
    requires there { k < length layout.now }
    requires fits { FitsBits layout.now k number }
    ensures scalars { scalars_in words.new.items layout.now ≡ slice_set (scalars_in words.old.items layout.now) k number }
    ensures count { length words.new.items ≡ length words.old.items }
{
    put_bits(words, &layout[k], number);
}

fn zeros(alloc: Global, count: usize) -> Result<Vec<u32>, Memory>
    ensures { IfOk result (λ all. length all.items ≡ count) }
{
    let mut all = Vec::new(alloc);
    for _ in 0..count {
        all.push(0)?;
    }
    Ok(all)
}
