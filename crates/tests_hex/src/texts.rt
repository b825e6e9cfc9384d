// Texts with the octets that they are, and texts that are none.
use hex_text::DecodeFault;
use std::test::Fail;

// From none to one more than two vectors.
const TEXTS: [(&str, &[u8]); 6] = [
    ("", &[]),
    ("0f", &[0x0f]),
    ("f0a9", &[0xf0, 0xa9]),
    (
        "00112233445566778899aabbccddee",
        &[
            0x00, 0x11, 0x22, 0x33, 0x44, 0x55, 0x66, 0x77, 0x88, 0x99, 0xaa, 0xbb, 0xcc, 0xdd,
            0xee,
        ],
    ),
    (
        "0123456789abcdeffedcba9876543210",
        &[
            0x01, 0x23, 0x45, 0x67, 0x89, 0xab, 0xcd, 0xef, 0xfe, 0xdc, 0xba, 0x98, 0x76, 0x54,
            0x32, 0x10,
        ],
    ),
    (
        "5af19be8d3c0764a2b1c0d9e8f70615a5af19be8d3c0764a2b1c0d9e8f70615a3d",
        &[
            0x5a, 0xf1, 0x9b, 0xe8, 0xd3, 0xc0, 0x76, 0x4a, 0x2b, 0x1c, 0x0d, 0x9e, 0x8f, 0x70,
            0x61, 0x5a, 0x5a, 0xf1, 0x9b, 0xe8, 0xd3, 0xc0, 0x76, 0x4a, 0x2b, 0x1c, 0x0d, 0x9e,
            0x8f, 0x70, 0x61, 0x5a, 0x3d,
        ],
    ),
];

#[test]
fn a_text_of_digits_is_read(rt: HostRuntime) -> Result<(), Fail> {
    for (text, octets) in TEXTS {
        let read = hex_text::decode(rt.alloc(), text.as_bytes())?;
        assert_eq!(rt; read.as_slice(), octets);
    }
    Ok(())
}

#[test]
fn letters_of_either_case_are_read(rt: HostRuntime) -> Result<(), Fail> {
    for text in ["abcdef", "ABCDEF", "aBcDeF"] {
        let read = hex_text::decode(rt.alloc(), text.as_bytes())?;
        assert_eq!(rt; read.as_slice(), [0xab, 0xcd, 0xef].as_slice());
    }
    Ok(())
}

#[test]
fn digits_are_written_after_what_was_there(rt: HostRuntime) -> Result<(), Fail> {
    for (text, octets) in TEXTS {
        let mut into = b"frame ".to_vec(rt.alloc())?;
        hex_text::append(octets, &mut into)?;
        assert_eq!(rt; &into[..6], b"frame ".as_slice());
        assert_eq!(rt; &into[6..], text.as_bytes());
    }
    Ok(())
}

#[test]
fn an_odd_number_of_digits_is_refused(rt: HostRuntime) {
    for text in ["0", "abc", "0123456789abcdef0123456789abcdef0"] {
        let read = hex_text::decode(rt.alloc(), text.as_bytes());
        assert_eq!(rt; read, Err(DecodeFault::NoDigits));
    }
}

// The neighbours of the digits, and octets of no character.
const NO_DIGITS: &[u8] = b"/:@G`g \n\x00\x10\x7f\x80\xb0\xc1\xe1\xff";

#[test]
fn what_is_no_digit_is_refused_at_each_place(rt: HostRuntime) -> Result<(), Fail> {
    for bad in NO_DIGITS {
        for place in 0..34 {
            let mut text = b"0123456789abcdefABCDEF987654321000".to_vec(rt.alloc())?;
            text[place] = *bad;
            assert_eq!(rt;
                hex_text::decode(rt.alloc(), &text),
                Err(DecodeFault::NoDigits)
            );
        }
    }
    Ok(())
}

#[test]
fn a_fault_has_a_text(rt: HostRuntime) -> Result<(), Fail> {
    for (fault, text) in [
        (
            DecodeFault::NoDigits,
            "not an even number of hexadecimal digits",
        ),
        (DecodeFault::Memory, "out of memory"),
    ] {
        assert_eq!(rt; format!(in rt.alloc(); "{fault}")?.as_str(), text);
    }
    Ok(())
}
