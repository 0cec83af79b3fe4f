use image_maker::{MakeRefusal, make_image};
use sha2::{Digest, Sha256};
use std::process::Abort;
use std::test::Fail;

// Functions, bytes, and the SHA-256 of the bytes. They come from a generator in Python that was written
// from the documents alone, by its hashlib.
const MADE: [(u64, usize, &str); 5] = [
    (
        0,
        121,
        "774230b4fc3c531d2cefc0d2a31fcc16cecc3c3de7bc8000befa9e9a760a0759",
    ),
    (
        1,
        160,
        "78bc565cad3bb03a114d46b87332b5d48678181f3b7c5016d9323870dd716ac3",
    ),
    (
        3,
        224,
        "0ad931225776ea0bd10de4a0a456a1ff3adcad92d05e994d6c3743b9c5514d90",
    ),
    (
        1_000,
        32_128,
        "00f23783c45a79784b7abb0521e8ae3975735ba21b27d13b62a0d23c1476fccf",
    ),
    (
        20_000,
        640_128,
        "25c2dcd5655f57aac75059e403b6119776a02717763223f40135aa41e564fb88",
    ),
];

#[test]
fn images_have_the_bytes_of_another_generator(rt: HostRuntime) -> Result<(), Fail> {
    for (count, size, digest) in &MADE {
        let file = make_image(rt.alloc(), *count)?;
        assert_eq!(rt; file.len(), *size);
        let made = hex::encode(rt.alloc(), Sha256::digest(file.as_slice()).as_slice())?;
        assert_eq!(rt; made.as_str(), *digest, "{count} functions");
    }
    Ok(())
}

#[test]
fn more_than_twenty_thousand_functions_are_refused(rt: HostRuntime) {
    for count in [20_001, u64::MAX] {
        assert_eq!(rt;
            make_image(rt.alloc(), count).err(),
            Some(MakeRefusal::TooMany)
        );
    }
}
