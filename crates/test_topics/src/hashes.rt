//! Published vectors: HMAC-SHA-512 of RFC 4231, PBKDF2 with it.

use hex::encode;
use mqtt_access::{hmac_sha512, pbkdf2_hmac_sha512, same_bytes};

#[test]
fn hashes_under_keys(rt: HostRuntime) {
    let alloc = rt.alloc();
    let vectors: [(&[u8], &str, &str); 3] = [
        (
            &[0x0b; 20],
            "Hi There",
            "87aa7cdea5ef619d4ff0b4241a1d6cb02379f4e2ce4ec2787ad0b30545e17cdedaa833b7d6b8a702038b274eaea3f4e4be9d914eeb61f1702e696c203a126854",
        ),
        (
            b"Jefe",
            "what do ya want for nothing?",
            "164b7a7bfcf819e2e395fbe73b56e0a387bd64222e831fd610270cd7ea2505549758bf75c05a994a6d034f65f8f0e6fdcaeab1a34d4a6b4b636e070a38bce737",
        ),
        (
            &[0xaa; 131],
            "Test Using Larger Than Block-Size Key - Hash Key First",
            "80b24263c7c1a3ebb71493c1dd7be8b49b46d1f41b4aeec1121b013783f8f3526b56d037e05f2598bd0fd2215d6a1e5295e64f73f63f0aec8b915a985d786598",
        ),
    ];
    for (key, text, hash) in &vectors {
        let found = hmac_sha512(key, text.as_bytes());
        let found = encode(alloc, &found).expect(&rt, "memory");
        assert_eq!(&rt; found.as_str(), *hash);
    }
}

#[test]
fn derives_keys(rt: HostRuntime) {
    let alloc = rt.alloc();
    let vectors = [
        (
            1,
            "867f70cf1ade02cff3752599a3a53dc4af34c7a669815ae5d513554e1c8cf252c02d470a285a0501bad999bfe943c08f050235d7d68b1da55e63f73b60a57fce",
        ),
        (
            2,
            "e1d9c16aa681708a45f5c7c4e215ceb66e011a2e9f0040713f18aefdb866d53cf76cab2868a39b9f7840edce4fef5a82be67335c77a6068e04112754f27ccf4e",
        ),
        (
            4096,
            "d197b1b33db0143e018b12f3d1d1479e6cdebdcc97c5c0f87f6902e072f457b5143f30602641b3d55cd335988cb36b84376060ecd532e039b742a239434af2d5",
        ),
    ];
    for (iterations, key) in vectors {
        let found = pbkdf2_hmac_sha512(b"password", b"salt", iterations);
        let found = encode(alloc, &found).expect(&rt, "memory");
        assert_eq!(&rt; found.as_str(), key);
    }
}

#[test]
fn compares_all_bytes(rt: HostRuntime) {
    assert!(&rt; same_bytes(b"abc", b"abc"));
    assert!(&rt; !same_bytes(b"abc", b"abd"));
    assert!(&rt; !same_bytes(b"abc", b"xbc"));
    assert!(&rt; !same_bytes(b"abc", b"ab"));
    assert!(&rt; same_bytes(b"", b""));
}
