//! Texts in two lines, and what each is read as: a receipt and a certificate, or the line that is refused and why.
use receipt_lines::{BadLine, Evidence, read_evidence};
use receipts::{read_certificate, read_receipt};
use std::alloc::Global;
use std::process::Abort;

// A receipt of a key of 64 bits with its tag, one of a key of 128, and a certificate.
const RECEIPT: &str =
    "0100000000000000030000000000000000000607000000000000000501026162ac51fb70250d0b223d2e4761dd97884b0acded9052db66085942bb4b765bd2c6";

const WIDE_RECEIPT: &str =
    "0300000000000000030000000000000000000607000000000000000000000000000000050102616284750e951c1b909d857f7963ec8e504e69f33fa6f480ade943a33733cfa2bfe2";

const CERTIFICATE: &str =
    "020000000000000000d9f6d832690ffe03b32ea0ea7d73a6896c7900651a4f0ee61aa7a1392b0e6348";

// What a text is read as, and the text: R, W and C stand for the digits of these, * and + for those of R and C without the
// first and the last, / for the end of a line, _ for a blank and ^ for a carriage return.
const TEXTS: &str = "
read    | receipt_R/certificate_C/
read    | receipt_R/certificate_C
read    | receipt_0*a/certificate_0+a/
read    | receipt_W/certificate_C/
1 Shape |
1 Shape | /
1 Shape | x
1 Shape | receipt/certificate_C/
1 Shape | xeceipt_R/certificate_C/
1 Shape | receipx_R/certificate_C/
1 Shape | rEceipt_R/certificate_C/
1 Shape | _receipt_R/certificate_C/
1 Shape | receipt__R/certificate_C/
1 Shape | receipt_R_/certificate_C/
1 Shape | receipt_R_0/certificate_C/
1 Shape | certificate_C/receipt_R/
1 Shape | /receipt_R/certificate_C/
1 Shape | receipt_R_/certificate_+/0
1 Hex   | receipt_/certificate_C/
1 Hex   | receipt_
1 Hex   | receipt_01
1 Hex   | receipt_g*6/certificate_C/
1 Hex   | receipt_0*g/certificate_C/
1 Hex   | receipt_0*A/certificate_C/
1 Hex   | receipt_*6/certificate_C/
1 Hex   | receipt_0*/certificate_C/
1 Hex   | receipt_R0/certificate_C/
1 Hex   | receipt_R00/certificate_C/
1 Hex   | receipt_RR/certificate_C/
1 Hex   | receipt_RRRRRR/certificate_C/
1 Hex   | receipt_W00/certificate_C/
1 Hex   | receipt_C/certificate_C/
1 Hex   | receipt_R^/certificate_C/
1 Hex   | receipt_^/
2 Shape | receipt_R/
2 Shape | receipt_R
2 Shape | receipt_R//certificate_C/
2 Shape | receipt_R/certificate/
2 Shape | receipt_R/xertificate_C/
2 Shape | receipt_R/certificatx_C/
2 Shape | receipt_R/_certificate_C/
2 Shape | receipt_R/certificate__C/
2 Shape | receipt_R/certificate_C_/
2 Shape | receipt_R/receipt_R/
2 Hex   | receipt_R/certificate_/
2 Hex   | receipt_R/certificate_g+8/
2 Hex   | receipt_R/certificate_0+g/
2 Hex   | receipt_R/certificate_0+F/
2 Hex   | receipt_R/certificate_+8/
2 Hex   | receipt_R/certificate_C00/
2 Hex   | receipt_R/certificate_CCCCCCCC/
2 Hex   | receipt_R/certificate_W/
2 Hex   | receipt_R/certificate_R/
2 Hex   | receipt_R/certificate_C^/
2 Hex   | receipt_R/certificate_C0/0
3 Shape | receipt_R/certificate_C//
3 Shape | receipt_R/certificate_C/0
3 Shape | receipt_R/certificate_C/receipt_R/
";

// The digits without the first and the last.
fn inner(digits: &str) -> &[u8] {
    match digits.as_bytes() {
        [_, inner @ .., _] => inner,
        _ => &[],
    }
}

// The text that a row stands for.
fn text_of(rt: &impl Abort, alloc: Global, row: &str) -> Vec<u8> {
    let mut text = Vec::new(alloc);
    for byte in row.as_bytes() {
        match *byte {
            b'R' => text
                .extend_from_slice(RECEIPT.as_bytes())
                .expect(rt, "memory"),
            b'W' => text
                .extend_from_slice(WIDE_RECEIPT.as_bytes())
                .expect(rt, "memory"),
            b'C' => text
                .extend_from_slice(CERTIFICATE.as_bytes())
                .expect(rt, "memory"),
            b'*' => text.extend_from_slice(inner(RECEIPT)).expect(rt, "memory"),
            b'+' => text
                .extend_from_slice(inner(CERTIFICATE))
                .expect(rt, "memory"),
            b'/' => text.push(b'\n').expect(rt, "memory"),
            b'_' => text.push(b' ').expect(rt, "memory"),
            b'^' => text.push(b'\r').expect(rt, "memory"),
            other => text.push(other).expect(rt, "memory"),
        }
    }
    text
}

// What a text was read as, as a row says it.
fn told(rt: &impl Abort, alloc: Global, read: &Result<Evidence, BadLine>) -> String {
    match read {
        Ok(_) => format!(in alloc; "read").expect(rt, "memory"),
        Err(bad) => {
            let (line, cause) = (bad.line, bad.cause.name());
            format!(in alloc; "{line} {cause}").expect(rt, "memory")
        }
    }
}

#[test]
fn the_first_line_that_is_none_is_named(rt: HostRuntime) {
    for row in TEXTS.trim().lines() {
        let (outcome, text) = row.split_once('|').expect(&rt, "a row with too few fields");
        let read = read_evidence(&text_of(&rt, rt.alloc(), text.trim()));
        let found = told(&rt, rt.alloc(), &read);
        assert_eq!(rt; found.as_str(), outcome.trim(), "{row}");
    }
}

#[test]
fn what_is_read_is_what_the_digits_say(rt: HostRuntime) {
    let text = text_of(&rt, rt.alloc(), "receipt_R/certificate_C/");
    let read = read_evidence(&text).ok().expect(&rt, "no evidence");
    let receipt = hex::decode(rt.alloc(), RECEIPT).expect(&rt, "memory");
    let certificate = hex::decode(rt.alloc(), CERTIFICATE).expect(&rt, "memory");
    assert!(rt; Some(read.receipt) == read_receipt(&receipt));
    assert!(rt; Some(read.certificate) == read_certificate(&certificate));
}
