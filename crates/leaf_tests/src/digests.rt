//! Vectors of FIPS 180-4 and RFC 4231, and others that Python's `hmac` computed.
use crate::rows::{field, same, same_bytes};
use record_hash::{Digests, ShaDigests, ToyDigests, hmac};
use std::alloc::{AllocError, Global};
use std::process::Abort;
use std::thread::{Threads, join};

// The bytes that a field means: behind `0x` those of its digits, and behind these a `*` with how many times they
// stand there; else those of its characters.
pub(crate) fn bytes_of(rt: &impl Abort, alloc: Global, text: &str) -> Vec<u8> {
    let Some(spelled) = text.strip_prefix("0x") else {
        return Vec::from_slice(alloc, text.as_bytes()).expect(rt, "memory");
    };
    let (digits, times) = match spelled.split_once('*') {
        Some((digits, times)) => (digits, times.parse::<u8>().expect(rt, "a number")),
        None => (spelled, 1),
    };
    let once = hex::decode(alloc, digits).expect(rt, "memory");
    let mut bytes = Vec::new(alloc);
    for _ in 0..times {
        bytes.extend_from_slice(&once).expect(rt, "memory");
    }
    bytes
}

// Lanes as text.
fn hex_of_lanes(alloc: Global, lanes: [u32; 8]) -> Result<String, AllocError> {
    let mut text = String::new(alloc);
    for lane in lanes {
        write!(text, "{lane:08x}")?;
    }
    Ok(text)
}

// The bytes 3, 10, 17 and so on, each the one before it and 7, modulo 256.
fn message() -> [u8; 119] {
    let mut bytes = [0; 119];
    let mut next = 3u8;
    for byte in bytes.iter_mut() {
        *byte = next;
        next = next.wrapping_add(7);
    }
    bytes
}

// The lanes of a text, taken in another thread and in this one.
fn lanes_in_two_threads<D: Digests + Sync>(rt: &impl Threads, digests: &D) -> ([u32; 8], [u32; 8]) {
    join(
        rt,
        || digests.element_lanes(b"abc"),
        || digests.element_lanes(b"abc"),
    )
}

// A text, and its digest.
const TEXT_DIGESTS: &str = "
abc | ba7816bf8f01cfea414140de5dae2223b00361a396177a9cb410ff61f20015ad
 | e3b0c44298fc1c149afbf4c8996fb92427ae41e4649b934ca495991b7852b855
";

#[test]
fn text_digests(rt: HostRuntime) {
    let digests = ShaDigests::new(b"Jefe");
    for row in TEXT_DIGESTS.trim().lines() {
        let text = field(&rt, row, 0);
        let expected = field(&rt, row, 1);
        let found = hex::encode(rt.alloc(), digests.text_digest(text.as_bytes())).expect(
            &rt, "memory",
        );
        same_bytes(&rt, row, found.as_bytes(), expected.as_bytes());
    }
}

// A key, a text, and their HMAC.
pub(crate) const HMACS: &str = "
0x0b*20 | Hi There | b0344c61d8db38535ca8afceaf0bf12b881dc200c9833da726e9376c2e32cff7
Jefe | what do ya want for nothing? | 5bdcc146bf60754e6a042426089575c75a003f089d2739839dec58b964ec3843
0xaa*20 | 0xdd*50 | 773ea91e36800e46854db8ebd09181a72959098b3ef8c122d9635514ced565fe
0x0102030405060708090a0b0c0d0e0f10111213141516171819 | 0xcd*50 | 82558a389a443c0ea4cc819899f2083a85f0faa3e578f8077a2e3ff46729665b
0xaa*131 | Test Using Larger Than Block-Size Key - Hash Key First | 60e431591ee0b67f0d8a26aacbf5b77f8e0bc6213728c5140546040f0ee37f54
0xaa*131 | This is a test using a larger than block-size key and a larger than block-size data. The key needs to be hashed before being used by the HMAC algorithm. | 9b09ffa71b942fcb27635fbcd5b0e944bfdc63644f0713938a7f51535c3a35e2
";

#[test]
fn hmacs_of_rfc_4231(rt: HostRuntime) {
    for row in HMACS.trim().lines() {
        let key = field(&rt, row, 0);
        let text = field(&rt, row, 1);
        let expected = field(&rt, row, 2);
        let (key, text) = (
            bytes_of(&rt, rt.alloc(), key),
            bytes_of(&rt, rt.alloc(), text),
        );
        let found = hex::encode(rt.alloc(), hmac(&key, &text)).expect(&rt, "memory");
        same_bytes(&rt, row, found.as_bytes(), expected.as_bytes());
    }
}

// So many bytes of the message, their lanes, and their tag, under the key `Jefe`.
const LANES_AND_TAGS: &str = "
0 | 14bb1f33c7785963bdedd1590090429b931e2a765971dd1cf87bc96d2c22ff3d | 2c7ffe80dbbc59712360e814217d43c6aaaf70d6a03b7e9b8542e5fc1db88771
54 | c050b94d1c2bfd603c1f5fab558257820045c7b1c1f7104437868293fec7c2a7 | 364ee3a08974c9167c4f4b36c73f8c89ab2bbf736ccd011e33e36aa9d3ee1d2b
55 | cf5053ed86738b941505d6c705f20bf995e5d24083529ce68b675aec420c90f6 | 30701c33df008aa93b80f55479384ba0a0e0959fd94153cdac2bd43826b83b32
64 | 043d22fe412a97cbb64df139b16328527d93e97bf365b51a16088fadff9d3e79 | fce401856a91fd58439d71a51ded1bad8d0a74b7d38dfc633d74acfdb2f707b9
119 | cac1963095de83d6a984d0fe9cb6b2057be0e3130468aeab45f545ebc4723d6d | b17c5aadcad482f62116ccf7bc400af7a3a8dd4ceab5fbcc65d56662164d4ac8
";

#[test]
fn lanes_and_tags(rt: HostRuntime) {
    let digests = ShaDigests::new(b"Jefe");
    let message = message();
    for row in LANES_AND_TAGS.trim().lines() {
        let length = field(&rt, row, 0);
        let lanes = field(&rt, row, 1);
        let tag = field(&rt, row, 2);
        let text = message
            .get(..length.parse().expect(&rt, "a number"))
            .expect(&rt, "past 119 bytes");
        let found = hex_of_lanes(rt.alloc(), digests.element_lanes(text)).expect(&rt, "memory");
        same_bytes(&rt, length, found.as_bytes(), lanes.as_bytes());
        let found = hex::encode(rt.alloc(), digests.tag(text)).expect(&rt, "memory");
        same_bytes(&rt, length, found.as_bytes(), tag.as_bytes());
    }
}

// A key, and the lanes of the message under it.
const LONG_KEYS: &str = "
0xaa*64 | 243cc64c8775ca2c3e55cd7d405a975e5f51a19661118e0883638d214c5ce635
0xaa*65 | eef750b7a099ddf4348f6f0dbc71459e9d0dcd150648fc1ac263e5ac419dce78
";

#[test]
fn keys_of_a_block_and_longer(rt: HostRuntime) {
    for row in LONG_KEYS.trim().lines() {
        let key = field(&rt, row, 0);
        let expected = field(&rt, row, 1);
        let key = bytes_of(&rt, rt.alloc(), key);
        let lanes = ShaDigests::new(&key).element_lanes(&message());
        let found = hex_of_lanes(rt.alloc(), lanes).expect(&rt, "memory");
        same_bytes(&rt, row, found.as_bytes(), expected.as_bytes());
    }
}

#[test]
fn toy_sums(rt: HostRuntime) {
    let mut sum = [0; 32];
    sum[30] = 1;
    sum[31] = 38;
    same(
        &rt,
        "ToyDigests.text_digest(b\"abc\")",
        &ToyDigests.text_digest(b"abc"),
        &sum,
    );
    same(
        &rt,
        "ToyDigests.text_digest(b\"cba\")",
        &ToyDigests.text_digest(b"cba"),
        &sum,
    );
    same(
        &rt,
        "ToyDigests.tag(b\"abc\")",
        &ToyDigests.tag(b"abc"),
        &sum,
    );
    same(&rt, "ToyDigests.tag(b\"\")", &ToyDigests.tag(b""), &[0; 32]);
    same(
        &rt,
        "ToyDigests.element_lanes(b\"abc\")",
        &ToyDigests.element_lanes(b"abc"),
        &[294, 0, 0, 0, 0, 0, 0, 0],
    );
}

#[test]
fn shared_between_threads(rt: HostRuntime) {
    let (there, here) = lanes_in_two_threads(&rt, &ShaDigests::new(b"Jefe"));
    same(&rt, "there", &there, &here);
    let (there, here) = lanes_in_two_threads(&rt, &ToyDigests);
    same(&rt, "there", &there, &here);
}

#[test]
fn debug_hides_the_key(rt: HostRuntime) {
    let text = format!(in rt.alloc(); "{:?}", ShaDigests::new(b"Jefe")).expect(&rt, "memory");
    same_bytes(
        &rt,
        "text.as_str()",
        text.as_bytes(),
        "ShaDigests { ... }".as_bytes(),
    );
}
