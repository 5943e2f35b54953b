// How many bytes a load and a store move: one, or four. Each is proved once, for every width.
ghost use Rattle.std.specs.Prelude.{◌≡◌, ℕ, ◌+◌, ◌≤◌, length};
ghost use Rattle.std.proofs.lemmas.List.Edits.{sets};
ghost use Rattle.machine.specs.Bytes.{little, digits};

use octets::low;

pub trait Width {
    ghost BYTES: { ℕ };

    const BYTES: u8;

    // The number that so many bytes from an offset on are, lowest first.
    fn read(segment: &[u8], at: u32) -> u32
        requires { at + BYTES ≤ length segment.now }
        ensures { result ≡ little BYTES segment.now at };

    // A number's lowest bytes, put there.
    fn write(segment: &mut [u8], at: u32, n: u32)
        requires { at + BYTES ≤ length segment.old }
        ensures { segment.new ≡ sets segment.old at (digits BYTES n) };
}

pub struct Byte;

impl Width for Byte {
    ghost BYTES = { 1 };

    const BYTES: u8 = 1;

    fn read(segment: &[u8], at: u32) -> u32 {
        u32::from(segment[at as usize])
    }

    fn write(segment: &mut [u8], at: u32, n: u32) {
        segment[at as usize] = low(n);
    }
}

pub struct Word;

impl Width for Word {
    ghost BYTES = { 4 };

    const BYTES: u8 = 4;

    fn read(segment: &[u8], at: u32) -> u32 {
        let i = at as usize;
        u32::from_le_bytes([segment[i], segment[i + 1], segment[i + 2], segment[i + 3]])
    }

    fn write(segment: &mut [u8], at: u32, n: u32) {
        let i = at as usize;
        [segment[i], segment[i + 1], segment[i + 2], segment[i + 3]] = n.to_le_bytes();
    }
}
