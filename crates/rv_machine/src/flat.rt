// A memory whose data is one stretch of bytes.

ghost use Rattle.std.specs.Prelude.{◌≡◌, true, false, None, ℕ, ◌+◌, ◌-◌, ◌*◌, ◌/◌, ◌%◌, ◌^◌, ◌≤◌, ◌<◌, Some, is_some};
ghost use Rattle.std.specs.Prelude.{length, IfOk, IfSome, vec_len};
ghost use Rattle.rv_machine.specs.Bytes.{bytes_from, with_byte};
ghost use Rattle.rv_machine.specs.Sizes.{byte_count};

use crate::memory::{Memory, Size};
use std::alloc::{AllocError, Global};

/// A memory whose data is one stretch of addresses.
#[derive(Drop)]
pub struct FlatMemory {
    base: u32,
    bytes: Vec<u8>,
    ghost ends: { base + vec_len bytes ≤ 2 ^ 32 },
}

impl FlatMemory {
    ghost use Rattle.rv_machine.specs.Flat.{flat_bytes, loaded_bytes};
    ghost use Rattle.rv_machine.specs.Bytes.{number_at, with_number, zeros};

    /// So many zero bytes from the base on.
    pub fn new(alloc: Global, base: u32, bytes: u32) -> Result<FlatMemory, AllocError>
        requires { base + bytes ≤ 2 ^ 32 }
        ensures { IfOk result (λ memory. flat_bytes memory ≡ zeros base bytes) }
    {
        let bytes = vec![in alloc; 0u8; bytes as usize]?;
        Ok(FlatMemory { base, bytes })
    }

    /// So many bytes from the base on: these, and zeros behind them.
    pub fn with_bytes(
        alloc: Global,
        base: u32,
        size: u32,
        bytes: &[u8],
    ) -> Result<FlatMemory, AllocError>
        requires within { base + size ≤ 2 ^ 32 }
        requires fits { length bytes.now ≤ size }
        ensures { IfOk result (λ memory. flat_bytes memory ≡ loaded_bytes base size bytes.now) }
    {
        let mut memory = FlatMemory::new(alloc, base, size)?;
        for k in 0..bytes.len() {
            memory.store(base + k as u32, Size::Byte, u32::from(bytes[k]));
        }
        Ok(memory)
    }

    // Whether there is no byte.
    pub(crate) fn is_empty(&self) -> bool
        ensures { result ≡ true → (a : ℕ) → flat_bytes self.now a ≡ None }
    {
        self.bytes.is_empty()
    }

    // Whether one of these bytes is data.
    pub(crate) fn touches(&self, a: u32, n: Size) -> bool
        ensures apart { result ≡ false → (x : ℕ) → a ≤ x → x < a + byte_count n → flat_bytes self.now x ≡ None }
        ensures byte { result ≡ true → n ≡ Size.Byte → is_some (flat_bytes self.now a) ≡ true }
    {
        let a = u64::from(a);
        let base = u64::from(self.base);
        a < base + self.bytes.len() as u64 && base < a + u64::from(n.bytes())
    }

    // Where these bytes stand, if each of them is data. An address below the base is so far from it,
    // modulo 2^32, that it lies past the last byte.
    #[inline(always)]
    fn place(&self, a: u32, n: Size) -> Option<usize>
        ensures found { is_some result ≡ is_some (number_at (flat_bytes self.now) (byte_count n) a) }
        ensures within { IfSome result (λ at. (self.now.base + at ≡ a) × (at + byte_count n ≤ vec_len self.now.bytes)) }
    {
        let start = a.wrapping_sub(self.base) as usize;
        if start + n.bytes() as usize <= self.bytes.len() {
            Some(start)
        } else {
            None
        }
    }

    // The byte at this place.
    fn byte(&self, at: usize) -> u32
        requires { at < vec_len self.now.bytes }
        ensures small { result < 256 }
        ensures byte { flat_bytes self.now (self.now.base + at) ≡ Some result }
    {
        u32::from(self.bytes[at])
    }

    // The number of the bytes from this place on.
    #[inline]
    #[tactic(auto, unfolding(crate::specs::Bytes::number_at))]
    fn number(&self, start: usize, n: Size) -> u32
        requires { start + byte_count n ≤ vec_len self.now.bytes }
        ensures number { number_at (flat_bytes self.now) (byte_count n) (self.now.base + start) ≡ Some result }
        ensures fits { result < 256 ^ byte_count n }
    {
        match n {
            Size::Byte => self.byte(start),
            Size::Half => self.byte(start) + 256 * self.byte(start + 1),
            Size::Word => {
                let high = self.byte(start + 2) + 256 * self.byte(start + 3);
                self.byte(start) + 256 * (self.byte(start + 1) + 256 * high)
            }
        }
    }

    // Makes the bytes from this place on the low ones of `v`.
    #[inline]
    fn put(&mut self, start: usize, n: Size, v: u32)
        requires { start + byte_count n ≤ vec_len self.old.bytes }
        ensures { flat_bytes self.new ≡ with_number (flat_bytes self.old) (byte_count n) (self.old.base + start) v }
    {
        let bytes = self.bytes.as_mut_slice();
        match n {
            Size::Byte => put_byte(bytes, start, v),
            Size::Half => {
                put_byte(bytes, start + 1, v / 256);
                put_byte(bytes, start, v);
            }
            Size::Word => {
                put_byte(bytes, start + 3, v / 256 / 256 / 256);
                put_byte(bytes, start + 2, v / 256 / 256);
                put_byte(bytes, start + 1, v / 256);
                put_byte(bytes, start, v);
            }
        }
    }
}

// Sets the byte at this place to the low one of `v`.
fn put_byte(bytes: &mut [u8], at: usize, v: u32)
    requires { at < length bytes.old }
    ensures len { length bytes.new ≡ length bytes.old }
    ensures bytes { (base : ℕ)
        → bytes_from base bytes.new ≡ with_byte (bytes_from base bytes.old) (base + at) (v % 256) }
{
    bytes[at] = (v % 256) as u8;
}

impl Memory for FlatMemory {
    ghost use Rattle.rv_machine.specs.Flat.{flat_bytes};

    ghost bytes = { flat_bytes };

    #[inline(always)]
    fn load(&self, a: u32, n: Size) -> Option<u32> {
        let start = self.place(a, n)?;
        Some(self.number(start, n))
    }

    #[inline(always)]
    fn store(&mut self, a: u32, n: Size, v: u32) -> bool {
        let Some(start) = self.place(a, n) else {
            return false;
        };
        self.put(start, n, v);
        true
    }
}
