// The shift register: bytes go in, eight at a time where there are eight.
ghost use Rattle.std.specs.Prelude.{◌≡◌, ◌<◌, ◌*◌, ◌∷◌, [], length, replicate};
ghost use Rattle.crc32c_core.specs.Register.{register_after};

use crate::tables::TABLES;

// What the byte leaves in an empty register, once it and so many zero bytes have gone in.
#[inline(always)]
fn after_zeros(zeros: usize, byte: u8) -> u32
    requires { zeros < 8 }
    ensures { result ≡ register_after 0 (byte ∷ replicate zeros 0) }
{
    TABLES[zeros][byte as usize]
}

#[inline(always)]
fn after_byte(register: u32, byte: u8) -> u32
    ensures { result ≡ register_after register (byte ∷ []) }
{
    let [low, ..] = register.to_le_bytes();
    after_zeros(0, low ^ byte) ^ (register >> 8)
}

// Each of the eight bytes is looked up by itself, so that no look-up waits for another.
#[inline(always)]
fn after_eight(register: u32, bytes: &[u8]) -> u32
    requires { length bytes.now ≡ 8 }
    ensures { result ≡ register_after register bytes.now }
{
    let [r0, r1, r2, r3] = register.to_le_bytes();
    after_zeros(7, r0 ^ bytes[0])
        ^ after_zeros(6, r1 ^ bytes[1])
        ^ after_zeros(5, r2 ^ bytes[2])
        ^ after_zeros(4, r3 ^ bytes[3])
        ^ after_zeros(3, bytes[4])
        ^ after_zeros(2, bytes[5])
        ^ after_zeros(1, bytes[6])
        ^ after_zeros(0, bytes[7])
}

fn after_words(register: u32, words: &[u8], count: usize) -> u32
    requires { length words.now ≡ 8 * count }
    ensures { result ≡ register_after register words.now }
{
    let mut register = register;
    for i in 0..count {
        let word = &words[8 * i..8 * i + 8];
        register = after_eight(register, word);
    }
    register
}

fn after_bytes(register: u32, bytes: &[u8]) -> u32
    ensures { result ≡ register_after register bytes.now }
{
    let mut register = register;
    for byte in bytes {
        register = after_byte(register, *byte);
    }
    register
}

/// The register once the bytes have gone in, one after the other.
pub fn after(register: u32, bytes: &[u8]) -> u32
    ensures { result ≡ register_after register bytes.now }
{
    let count = bytes.len() / 8;
    let (words, rest) = bytes.split_at(8 * count);
    after_bytes(after_words(register, words, count), rest)
}
