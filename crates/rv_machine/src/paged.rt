// A memory whose data are ranges of addresses, in pages.

ghost use Rattle.std.specs.Prelude.{◌≡◌, ℕ, ◌+◌, ◌^◌, ◌≤◌, ◌<◌, true, false, vec_len, [], ◌∷◌, Some, None, is_some};
ghost use Rattle.std.specs.Prelude.{length, slice_get, take, IfOk, OnErr, OnOk, IfSome, IsSome, IsTrue};
ghost use Rattle.std.specs.List.{All};
ghost use Rattle.rv_machine.specs.declared.flat.FlatMemory.{FlatMemory};
ghost use Rattle.rv_machine.specs.Bytes.{number_at, with_number};
ghost use Rattle.rv_machine.specs.Flat.{flat_bytes, loaded_bytes};
ghost use Rattle.rv_machine.specs.Sizes.{byte_count};

use crate::flat::FlatMemory;
use crate::memory::{Memory, Size};
use std::alloc::{AllocError, Global};

/// The bytes of a page; the last one of a range ends with the range.
const PAGE_BYTES: u64 = 4096;

/// Addresses from the beginning on, up to the end, which is the first one after them.
#[derive(Clone, Copy)]
pub struct AddressRange {
    pub begin: u64,
    pub end: u64,
}

/// A memory whose data are ranges of addresses. Its pages are made with it, so that loads and
/// stores take no memory. There is a first page always, where each load and store looks first.
#[derive(Drop)]
pub struct PagedMemory {
    pages: Vec<FlatMemory>,
    ghost first: { 1 ≤ vec_len pages },
}

impl PagedMemory {
    ghost use Rattle.rv_machine.specs.Paged.{zeros_in, first_of, bytes_in, paged_bytes};

    // Puts the pages of a range behind the others.
    fn add_pages(
        alloc: Global,
        pages: &mut Vec<FlatMemory>,
        range: AddressRange,
    ) -> Result<(), AllocError>
        requires { range.end ≤ 2 ^ 32 }
        ensures { OnOk result ((a : ℕ)
            → bytes_in pages.new.items a ≡ first_of (bytes_in pages.old.items a) (zeros_in (range ∷ []) a)) }
    {
        let mut begin = range.begin;
        'pages: while begin < range.end {
            let bytes = PAGE_BYTES.min(range.end - begin);
            pages.push(FlatMemory::new(alloc, begin as u32, bytes as u32)?)?;
            begin += bytes;
        }
        Ok(())
    }

    // Puts a page without a byte first, where there is no page.
    fn add_first(alloc: Global, pages: &mut Vec<FlatMemory>) -> Result<(), AllocError>
        ensures first { OnOk result (1 ≤ vec_len pages.new) }
        ensures bytes { OnOk result ((a : ℕ) → bytes_in pages.new.items a ≡ bytes_in pages.old.items a) }
    {
        if pages.is_empty() {
            pages.push(FlatMemory::new(alloc, 0, 0)?)?;
        }
        Ok(())
    }

    /// Zero bytes at the addresses of these ranges.
    pub fn new(alloc: Global, ranges: &[AddressRange]) -> Result<PagedMemory, AllocError>
        requires { All (λ range. range.end ≤ 2 ^ 32) ranges.now }
        ensures { IfOk result (λ memory. paged_bytes memory ≡ zeros_in ranges.now) }
    {
        let mut pages = Vec::new(alloc);
        for &range in ranges {
            PagedMemory::add_pages(alloc, &mut pages, range)?;
        }
        PagedMemory::add_first(alloc, &mut pages)?;
        Ok(PagedMemory { pages })
    }

    /// Makes so many bytes from the address on data, in one page: these, and zeros behind them. Addresses that are
    /// data already stay as they are. Where memory is wanting nothing changes.
    pub fn add(
        &mut self,
        alloc: Global,
        address: u32,
        size: u32,
        bytes: &[u8],
    ) -> Result<(), AllocError>
        requires within { address + size ≤ 2 ^ 32 }
        requires fits { length bytes.now ≤ size }
        ensures added { OnOk result ((a : ℕ)
            → paged_bytes self.new a ≡ first_of (paged_bytes self.old a) (loaded_bytes address size bytes.now a)) }
        ensures unchanged { OnErr result (paged_bytes self.new ≡ paged_bytes self.old) }
    {
        let page = FlatMemory::with_bytes(alloc, address, size, bytes)?;
        self.pages.push(page)?;
        if self.pages[0].is_empty() {
            self.pages.remove(0);
        }
        Ok(())
    }

    // The page that has all these bytes, where no page before it has one of them.
    fn holder(&self, a: u32, n: Size) -> Option<usize>
        ensures page { IfSome result (λ index. (page : FlatMemory) × (slice_get self.now.pages.items index ≡ Some page)
            × (is_some (number_at (flat_bytes page) (byte_count n) a) ≡ true)) }
        ensures first { IfSome result (λ index. (x : ℕ) → a ≤ x → x < a + byte_count n
            → bytes_in (take index self.now.pages.items) x ≡ None) }
        ensures none { result ≡ None → n ≡ Size.Byte → paged_bytes self.now a ≡ None }
    {
        for index in 0..self.pages.len() {
            let page = &self.pages[index];
            if page.load(a, n).is_some() {
                return Some(index);
            }
            if page.touches(a, n) {
                return None;
            }
        }
        None
    }
}

impl PagedMemory {
    ghost use Rattle.rv_machine.specs.Paged.{paged_bytes};

    // The byte at this address, if it is data.
    fn byte(&self, a: u32) -> Option<u32>
        ensures number { result ≡ number_at (paged_bytes self.now) 1 a }
        ensures fits { IfSome result (λ byte. byte < 256) }
    {
        match self.holder(a, Size::Byte) {
            Some(index) => {
                let page = &self.pages[index];
                page.load(a, Size::Byte)
            }
            None => None,
        }
    }

    // The number of so many bytes from this address on, if they are data. Each is looked up by itself.
    fn byte_by_byte(&self, a: u32, count: u32) -> Option<u32>
        requires some { 1 ≤ count }
        requires few { count ≤ 4 }
        ensures number { result ≡ number_at (paged_bytes self.now) count a }
        ensures fits { IfSome result (λ v. v < 256 ^ count) }
        ensures within { IsSome result → a + count ≤ 2 ^ 32 }
    {
        let low = self.byte(a)?;
        if count == 1 {
            return Some(low);
        }
        let high = self.byte_by_byte(a.checked_add(1)?, count - 1)?;
        Some(low + 256 * high)
    }

    // Puts these bytes, where one page has them all.
    fn put(&mut self, a: u32, n: Size, v: u32) -> bool
        ensures stored { result ≡ true → paged_bytes self.new ≡ with_number (paged_bytes self.old) (byte_count n) a v }
        ensures data { result ≡ true → is_some (number_at (paged_bytes self.old) (byte_count n) a) ≡ true }
        ensures unchanged { result ≡ false → paged_bytes self.new ≡ paged_bytes self.old }
        ensures byte { n ≡ Size.Byte → result ≡ is_some (paged_bytes self.old a) }
    {
        let Some(index) = self.holder(a, n) else {
            return false;
        };
        let page = &mut self.pages[index];
        page.store(a, n, v);
        true
    }

    // The number of these bytes, if they are data, in whichever pages.
    #[cold]
    fn load_anywhere(&self, a: u32, n: Size) -> Option<u32>
        ensures number { result ≡ number_at (paged_bytes self.now) (byte_count n) a }
        ensures fits { IfSome result (λ v. v < 256 ^ byte_count n) }
        ensures within { IsSome result → a + byte_count n ≤ 2 ^ 32 }
    {
        if let Some(index) = self.holder(a, n) {
            let page = &self.pages[index];
            return page.load(a, n);
        }
        self.byte_by_byte(a, n.bytes())
    }

    // Puts so many bytes, all of which are data, each by itself.
    fn put_byte_by_byte(&mut self, a: u32, count: u32, v: u32)
        requires some { 1 ≤ count }
        requires within { a + count ≤ 2 ^ 32 }
        requires data { is_some (number_at (paged_bytes self.old) count a) ≡ true }
        ensures { paged_bytes self.new ≡ with_number (paged_bytes self.old) count a v }
    {
        if count == 1 {
            self.put(a, Size::Byte, v);
            return;
        }
        self.put_byte_by_byte(a + 1, count - 1, v / 256);
        self.put(a, Size::Byte, v);
    }

    // Puts these bytes, if they are data, into whichever pages.
    #[cold]
    fn store_anywhere(&mut self, a: u32, n: Size, v: u32) -> bool
        ensures answer { result ≡ is_some (number_at (paged_bytes self.old) (byte_count n) a) }
        ensures stored { IsTrue result → paged_bytes self.new ≡ with_number (paged_bytes self.old) (byte_count n) a v }
        ensures unchanged { result ≡ false → paged_bytes self.new ≡ paged_bytes self.old }
    {
        if self.put(a, n, v) {
            return true;
        }
        if self.load(a, n).is_none() {
            return false;
        }
        self.put_byte_by_byte(a, n.bytes(), v);
        true
    }
}

impl Memory for PagedMemory {
    ghost use Rattle.rv_machine.specs.Paged.{paged_bytes};

    ghost bytes = { paged_bytes };

    #[inline(always)]
    fn load(&self, a: u32, n: Size) -> Option<u32> {
        let page = &self.pages[0];
        let number = page.load(a, n);
        if number.is_some() {
            return number;
        }
        self.load_anywhere(a, n)
    }

    #[inline(always)]
    fn store(&mut self, a: u32, n: Size, v: u32) -> bool {
        let page = &mut self.pages[0];
        if page.store(a, n, v) {
            return true;
        }
        self.store_anywhere(a, n, v)
    }
}
