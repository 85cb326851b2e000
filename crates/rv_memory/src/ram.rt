//! The memory of the machine.

ghost use Rattle.std.specs.Prelude.{◌≡◌, ℕ, ◌+◌, ◌-◌, ◌%◌, ◌^◌, ◌<◌, ◌*◌, ◌≤◌, List, [], ◌∷◌, length, map, replicate, take, drop, IfOk};
ghost use Rattle.std.specs.Prelude.{OnOk, OnErr, MatchResult, Some, None, Ok, Err, true, false, if◌then◌else◌};
ghost use Rattle.rv_word.specs.Widths.{bytes_in};
ghost use Rattle.rv_memory.specs.Memory.{is_ram_size, ram_base, is_inside, read, write, write_bytes, byte_at, number_of_bytes, number_at, bytes_of};
ghost use Rattle.rv_memory.specs.Complement.{complement_of, complemented};
ghost use Rattle.rv_memory.specs.Accesses.{loaded, stored, fetched, verdict_on};
ghost use Rattle.rv_memory.specs.Changes.{ChangesOnly};

use crate::access_fault::AccessFault;
use crate::ram_fault::RamFault;
use crate::refused_ram::zeros;
use rv_pmp::{Access, Mode, Pmp};
use rv_word::{Width, le_bytes, le_word};
use std::alloc::Global;
use std::marker::Model;

/// The address of the first byte.
pub const RAM_BASE: u32 = 0x8000_0000;

/// The memory of the machine: its bytes from address 80000000 on. Their number is a multiple of 65536 from 65536 to 16777216.
#[derive(Drop, Debug)]
pub struct Ram {
    bytes: Vec<u8>,
}

impl Model for Ram {
    ghost use Rattle.std.specs.Prelude.{List, ℕ, vec_len, IsTrue};
    ghost use Rattle.rv_memory.specs.Memory.{is_ram_size};

    ghost Value = { List ℕ };

    ghost view = { λ ram. ram.bytes.items };

    ghost invariant = { λ ram. IsTrue (is_ram_size (vec_len ram.bytes)) };
}

impl Ram {
    ghost use Rattle.std.specs.Prelude.{◌≡◌, ℕ, ◌+◌, ◌-◌, ◌%◌, ◌^◌, ◌<◌, ◌*◌, ◌≤◌, List, [], ◌∷◌, length, map, replicate, take, drop, IfOk};
    ghost use Rattle.std.specs.Prelude.{OnOk, OnErr, MatchResult, Some, None, Ok, Err, true, false, if◌then◌else◌};
    ghost use Rattle.std.specs.Borrow.{sem};
    ghost use Rattle.rv_word.specs.Widths.{bytes_in};
    ghost use Rattle.rv_memory.specs.Memory.{is_ram_size, ram_base, is_inside, read, write, write_bytes, byte_at, number_of_bytes, number_at, bytes_of};
    ghost use Rattle.rv_memory.specs.Complement.{complement_of, complemented};
    ghost use Rattle.rv_memory.specs.Accesses.{loaded, stored, fetched, verdict_on};
    ghost use Rattle.rv_memory.specs.Changes.{ChangesOnly};
    ghost use Rattle.rv_memory.specs.Lending.{RamLendsBytes};

    /// Returns a memory of `bytes` bytes, all 0.
    ///
    /// # Errors
    ///
    /// - `BadSize`, if the number is not a multiple of 65536 from 65536 to 16777216.
    /// - `NoMemory` with this number otherwise, if memory is exhausted.
    pub fn new(alloc: Global, bytes: u32) -> Result<Self, RamFault>
        ensures made { IfOk result (λ ram. ram ≡ replicate bytes 0) }
        ensures ok_size { OnOk result (is_ram_size bytes ≡ true) }
        ensures bad_size { result ≡ Err RamFault.BadSize → is_ram_size bytes ≡ false }
        ensures no_memory { (refused : _) → result ≡ Err (RamFault.NoMemory refused) → (is_ram_size bytes ≡ true) × (refused.bytes ≡ bytes) }
    {
        if bytes % 65536 != 0 || bytes < 65536 || bytes > 16_777_216 {
            return Err(RamFault::BadSize);
        }
        match zeros(alloc, bytes) {
            Ok(bytes) => Ok(Ram { bytes }),
            Err(refused) => Err(RamFault::NoMemory(refused)),
        }
    }

    /// Returns the number of bytes.
    pub fn size(&self) -> u32
        ensures size { result ≡ length self.now }
        ensures allowed { is_ram_size result ≡ true }
    {
        self.bytes.len() as u32
    }

    /// Returns whether `size` bytes from an address on are all in the memory.
    #[inline(always)]
    #[tactic(auto, unfolding(crate::specs::Memory::read))]
    pub fn contains(&self, base: u32, size: u32) -> bool
        ensures value { result ≡ is_inside self.now base size }
        ensures outside { result ≡ false → read self.now base size ≡ None }
    {
        base >= RAM_BASE && base as usize + size as usize <= RAM_BASE as usize + self.bytes.len()
    }

    /// Returns `size` bytes from an address on. All of them must be in the memory.
    #[tactic(auto, unfolding(crate::specs::Memory::read))]
    pub fn part(&self, base: u32, size: u32) -> &[u8]
        requires { is_inside self.now base size ≡ true }
        ensures bytes { read self.now base size ≡ Some result.now }
        ensures len { length result.now ≡ size }
    {
        let start = (base - RAM_BASE) as usize;
        &self.bytes[start..start + size as usize]
    }

    /// Writes bytes at an address. All of them must be in the memory. Every other byte stays unchanged.
    #[tactic(auto, using(crate::proofs::MemoryLaws::changes_only), unfolding(crate::specs::Memory::write))]
    pub fn write_part(&mut self, base: u32, bytes: &[u8])
        requires { is_inside self.old base (length bytes.now) ≡ true }
        ensures written { write self.old base bytes.now ≡ Some self.new }
        ensures only { ChangesOnly self.old self.new base (length bytes.now) }
    {
        self.put_bytes((base - RAM_BASE) as usize, bytes);
    }

    /// Writes `size` zeros at an address. All of the bytes must be in the memory. Every other byte stays unchanged.
    #[tactic(auto, using(crate::proofs::MemoryLaws::changes_only), unfolding(crate::specs::Memory::write))]
    pub fn zero(&mut self, base: u32, size: u32)
        requires { is_inside self.old base size ≡ true }
        ensures written { write self.old base (replicate size 0) ≡ Some self.new }
        ensures only { ChangesOnly self.old self.new base size }
    {
        self.put_zeros((base - RAM_BASE) as usize, size as usize);
    }

    /// Complements `size` bytes from an address on: a byte b becomes 255 - b. All of them must be in the memory. Every other byte stays
    /// unchanged.
    #[tactic(auto, unfolding(crate::specs::Memory::read, crate::specs::Memory::write))]
    pub fn complement(&mut self, base: u32, size: u32)
        requires { is_inside self.old base size ≡ true }
        ensures done { complemented self.old base size ≡ Some self.new }
        ensures only { ChangesOnly self.old self.new base size }
    {
        self.put_complements((base - RAM_BASE) as usize, size as usize);
    }

    /// Returns the byte at an address, if it is in the memory.
    #[tactic(auto, unfolding(crate::specs::Memory::read))]
    pub fn peek(&self, addr: u32) -> Option<u8>
        ensures { result ≡ byte_at self.now addr }
    {
        if !self.contains(addr, 1) {
            return None;
        }
        Some(self.bytes[(addr - RAM_BASE) as usize])
    }

    /// Writes a byte at an address. If the address is not in the memory, it returns false and changes nothing.
    #[tactic(auto, using(crate::proofs::MemoryLaws::changes_nothing), unfolding(crate::specs::Memory::write))]
    pub fn poke(&mut self, addr: u32, byte: u8) -> bool
        ensures done { (if result then Some self.new else None) ≡ write self.old addr (byte ∷ []) }
        ensures only { ChangesOnly self.old self.new addr 1 }
        ensures same { result ≡ false → self.new ≡ self.old }
    {
        if !self.contains(addr, 1) {
            return false;
        }
        self.write_part(addr, &[byte]);
        true
    }

    /// Fetches the word of an instruction from the four bytes at an address, little-endian (Unprivileged ISA, section 1.5). The PMP entries do
    /// not change.
    ///
    /// # Errors
    ///
    /// - `Outside`, if one of the bytes is outside RAM.
    /// - `Refused` otherwise, if the PMP entries do not permit the fetch in this mode.
    #[inline(always)]
    #[tactic(auto, unfolding(crate::specs::Memory::read))]
    pub fn fetch(&self, pmp: &mut Pmp, mode: Mode, addr: u32) -> Result<u32, AccessFault>
        ensures value { result ≡ fetched self.now pmp.old mode addr }
        ensures same { pmp.new ≡ pmp.old }
    {
        if !self.contains(addr, 4) {
            return Err(AccessFault::Outside);
        }
        if !pmp.check(mode, Access::Fetch, addr, Width::Word) {
            return Err(refused(pmp, mode, Access::Fetch, addr, Width::Word));
        }
        Ok(self.number_at((addr - RAM_BASE) as usize, 4))
    }

    /// Loads the little-endian number at an address (Unprivileged ISA, section 2.6). The PMP entries do not change.
    ///
    /// # Errors
    ///
    /// - `Outside`, if one of the bytes is outside RAM.
    /// - `Refused` otherwise, if the PMP entries do not permit the load in this mode.
    #[inline(always)]
    #[tactic(auto, unfolding(crate::specs::Memory::read))]
    pub fn load(
        &self,
        pmp: &mut Pmp,
        mode: Mode,
        addr: u32,
        width: Width,
    ) -> Result<u32, AccessFault>
        ensures value { result ≡ loaded self.now pmp.old mode addr width }
        ensures same { pmp.new ≡ pmp.old }
    {
        if !self.contains(addr, u32::from(width.bytes())) {
            return Err(AccessFault::Outside);
        }
        if !pmp.check(mode, Access::Read, addr, width) {
            return Err(refused(pmp, mode, Access::Read, addr, width));
        }
        let start = (addr - RAM_BASE) as usize;
        Ok(match width {
            Width::Byte => u32::from(self.bytes[start]),
            Width::Half => self.number_at(start, 2),
            Width::Word => self.number_at(start, 4),
        })
    }

    /// Stores the lowest bytes of a word at an address, little-endian, and leaves every other byte unchanged (Unprivileged ISA, section 2.6).
    /// The PMP entries do not change.
    ///
    /// # Errors
    ///
    /// The memory is then unchanged:
    /// - `Outside`, if one of the bytes is outside RAM.
    /// - `Refused` otherwise, if the PMP entries do not permit the store in this mode.
    #[inline(always)]
    #[tactic(auto, using(crate::proofs::MemoryLaws::changes_nothing), unfolding(crate::specs::Memory::write))]
    pub fn store(
        &mut self,
        pmp: &mut Pmp,
        mode: Mode,
        addr: u32,
        width: Width,
        value: u32,
    ) -> Result<(), AccessFault>
        ensures done { let gives = stored self.old pmp.old mode addr width value in
            MatchResult result (λ _. gives ≡ Ok self.new) (λ fault. gives ≡ Err fault) }
        ensures only { ChangesOnly self.old self.new addr (bytes_in width) }
        ensures read_back { OnOk result (read self.new addr (bytes_in width) ≡ Some (bytes_of (bytes_in width) value)) }
        ensures refused { OnErr result (self.new ≡ self.old) }
        ensures same { pmp.new ≡ pmp.old }
    {
        if !self.contains(addr, u32::from(width.bytes())) {
            return Err(AccessFault::Outside);
        }
        if !pmp.check(mode, Access::Write, addr, width) {
            return Err(refused(pmp, mode, Access::Write, addr, width));
        }
        self.put_number((addr - RAM_BASE) as usize, width, value);
        Ok(())
    }

    /// Returns the bytes, for writing.
    #[inline(always)]
    pub fn bytes_mut(&mut self) -> &mut [u8]
        ensures* writes_back { sem 𝓛 (RamLendsBytes self.entry result) }
        ensures value { result.now ≡ self.old }
    {
        &mut self.bytes
    }

    /// Writes the lowest bytes of a word at an index, little-endian.
    #[inline(always)]
    fn put_number(&mut self, start: usize, width: Width, value: u32)
        requires { start + bytes_in width ≤ length self.old }
        ensures { self.new ≡ write_bytes self.old start (bytes_of (bytes_in width) value) }
    {
        match width {
            Width::Byte => self.put_at(start, 1, value),
            Width::Half => self.put_at(start, 2, value),
            Width::Word => self.put_at(start, 4, value),
        }
    }

    /// Returns the little-endian number in `count` bytes from an index on.
    #[inline(always)]
    fn number_at(&self, start: usize, count: usize) -> u32
        requires short { count ≤ 4 }
        requires inside { start + count ≤ length self.now }
        ensures { result ≡ number_of_bytes (take count (drop start self.now)) }
    {
        number_from(&self.bytes, start, count)
    }

    /// Writes bytes at an index.
    #[inline(always)]
    fn put_bytes(&mut self, start: usize, bytes: &[u8])
        requires { start + length bytes.now ≤ length self.old }
        ensures { self.new ≡ write_bytes self.old start bytes.now }
    {
        self.bytes[start..start + bytes.len()].copy_from_slice(bytes);
    }

    /// Writes `count` zeros at an index.
    fn put_zeros(&mut self, start: usize, count: usize)
        requires { start + count ≤ length self.old }
        ensures { self.new ≡ write_bytes self.old start (replicate count 0) }
    {
        self.bytes[start..start + count].fill(0);
    }

    /// Complements `count` bytes from an index on.
    fn put_complements(&mut self, start: usize, count: usize)
        requires { start + count ≤ length self.old }
        ensures { self.new ≡ write_bytes self.old start (map complement_of (take count (drop start self.old))) }
    {
        complement_all(&mut self.bytes[start..start + count]);
    }

    /// Writes the `count` lowest bytes of a word at an index, little-endian.
    #[inline(always)]
    fn put_at(&mut self, start: usize, count: usize, value: u32)
        requires short { count ≤ 4 }
        requires inside { start + count ≤ length self.old }
        ensures { self.new ≡ write_bytes self.old start (bytes_of count value) }
    {
        put_from(&mut self.bytes, start, count, value);
    }
}

/// Returns the little-endian number at an address in a memory with these bytes. All of its bytes must be in the memory. The PMP entries are not
/// checked.
#[inline(always)]
#[tactic(auto, unfolding(crate::specs::Memory::read))]
pub fn number_in(bytes: &[u8], addr: u32, width: Width) -> u32
    requires { is_inside bytes.now addr (bytes_in width) ≡ true }
    ensures { number_at bytes.now addr (bytes_in width) ≡ Some result }
{
    let start = addr as usize - RAM_BASE as usize;
    match width {
        Width::Byte => number_from(bytes, start, 1),
        Width::Half => number_from(bytes, start, 2),
        Width::Word => number_from(bytes, start, 4),
    }
}

/// Writes the lowest bytes of a word at an address in a memory with these bytes, little-endian. All of them must be in the memory. The PMP
/// entries are not checked.
#[inline(always)]
#[tactic(auto, unfolding(crate::specs::Memory::write))]
pub fn put_in(bytes: &mut [u8], addr: u32, width: Width, value: u32)
    requires { is_inside bytes.old addr (bytes_in width) ≡ true }
    ensures { write bytes.old addr (bytes_of (bytes_in width) value) ≡ Some bytes.new }
{
    let start = addr as usize - RAM_BASE as usize;
    match width {
        Width::Byte => put_from(bytes, start, 1, value),
        Width::Half => put_from(bytes, start, 2, value),
        Width::Word => put_from(bytes, start, 4, value),
    }
}

/// Returns the little-endian number in `count` bytes from an index on.
#[inline(always)]
fn number_from(bytes: &[u8], start: usize, count: usize) -> u32
    requires short { count ≤ 4 }
    requires inside { start + count ≤ length bytes.now }
    ensures { result ≡ number_of_bytes (take count (drop start bytes.now)) }
{
    let mut read = [0; 4];
    read[..count].copy_from_slice(&bytes[start..start + count]);
    le_word(&read)
}

/// Writes the `count` lowest bytes of a word at an index, little-endian.
#[inline(always)]
fn put_from(bytes: &mut [u8], start: usize, count: usize, value: u32)
    requires short { count ≤ 4 }
    requires inside { start + count ≤ length bytes.old }
    ensures { bytes.new ≡ write_bytes bytes.old start (bytes_of count value) }
{
    bytes[start..start + count].copy_from_slice(&le_bytes(value)[..count]);
}

/// Complements each byte.
fn complement_all(bytes: &mut [u8])
    ensures { bytes.new ≡ map complement_of bytes.old }
{
    for byte in bytes.iter_mut() {
        *byte = !*byte;
    }
}

/// Returns the access fault of an access that the PMP entries do not permit.
#[cold]
#[inline(never)]
fn refused(pmp: &Pmp, mode: Mode, access: Access, addr: u32, width: Width) -> AccessFault
    ensures { result ≡ AccessFault.Refused (verdict_on pmp.now mode access addr width) }
{
    AccessFault::Refused(pmp.judge(mode, access, addr, width))
}
