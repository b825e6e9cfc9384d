// Rehearsals whose texts were worked out by a program of its own, in Python, which shares nothing
// with this one (X.690, CCSDS 911.1-B annex A, CCSDS 913.1-B; SHA-1 by its library).
use rehearsal::rehearse;
use std::test::Fail;

const TEXTS: [(u32, &str); 7] = [
    (
        1,
        "stored 1\nsent 1\nbuffers 1\nends 1\ndigest 36d19d797274cc6ea18a20161c3f71b64699c1fe\n",
    ),
    (
        2,
        "stored 2\nsent 2\nbuffers 1\nends 1\ndigest 05e7c34cf1b1deec39f62a0adf0936a26278733a\n",
    ),
    (
        4,
        "stored 4\nsent 3\nbuffers 2\nends 1\ndigest 76c8b047137f01091578728672fef513b1960fc7\n",
    ),
    (
        7,
        "stored 7\nsent 6\nbuffers 3\nends 1\ndigest 6e4ec72498d9782ad6be7857493b6f2ac80b9590\n",
    ),
    (
        8,
        "stored 8\nsent 7\nbuffers 4\nends 1\ndigest 8c4645a032818242c97b63c5064321be8268016a\n",
    ),
    (
        11,
        "stored 11\nsent 9\nbuffers 5\nends 1\ndigest d850c15d35c7ffe3a547693919ed95785992b168\n",
    ),
    (
        300,
        "stored 300\nsent 257\nbuffers 129\nends 1\n\
         digest bd17bc97a10ee92975c4bfdc28ffef3f40f97594\n",
    ),
];

#[test]
fn small_rehearsals_have_their_texts(rt: HostRuntime) -> Result<(), Fail> {
    for (n, text) in TEXTS {
        let written = rehearse(rt.alloc(), n)?;
        assert_eq!(rt; written.as_str(), text);
    }
    Ok(())
}
