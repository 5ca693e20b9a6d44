// Vectors from outside.
use crc32c_core::*;
use std::test::Fail;

#[test]
fn checksums_are_those_of_the_published_vectors(rt: HostRuntime) -> Result<(), Fail> {
    let mut rising = [0u8; 32];
    let mut falling = [0u8; 32];
    for (i, byte) in rising.iter_mut().enumerate() {
        *byte = i as u8;
    }
    for (i, byte) in falling.iter_mut().enumerate() {
        *byte = 31 - i as u8;
    }
    let cases: [(&[u8], u32); 6] = [
        (b"", 0),
        (b"123456789", 0xE306_9283),
        (&[0; 32], 0x8A91_36AA),
        (&[0xFF; 32], 0x62A8_AB43),
        (&rising, 0x46DD_794E),
        (&falling, 0x113F_DB5C),
    ];
    for (bytes, sum) in cases {
        assert_eq!(rt; crc32c(bytes), sum);
        assert_eq!(rt; unmask(mask(sum)), sum);
    }
    assert_eq!(rt; mask(0xE306_9283), 0xC78A_B0E5);
    assert_eq!(rt; extend(crc32c(b"1234"), b"56789"), 0xE306_9283);
    Ok(())
}
