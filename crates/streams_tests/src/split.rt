use std::test::Fail;
use tv_text::split_texts;

/// An input, its program text and its certificate text.
const INPUTS: [(&str, &str, &str); 10] = [
    ("", "", ""),
    ("START: 0;", "START: 0;", ""),
    (
        "START: 0;\nCERTIFICATE:\nT2CERT 1\n",
        "START: 0;\n",
        "T2CERT 1\n",
    ),
    (
        "START: 0;\r\nCERTIFICATE:\r\nT2CERT 1",
        "START: 0;\r\n",
        "T2CERT 1",
    ),
    ("START: 0;\nCERTIFICATE:", "START: 0;\n", ""),
    ("START: 0;\nCERTIFICATE:\r", "START: 0;\nCERTIFICATE:\r", ""),
    ("CERTIFICATE:\nCERTIFICATE:\n", "", "CERTIFICATE:\n"),
    ("a CERTIFICATE:\n", "a CERTIFICATE:\n", ""),
    ("CERTIFICATE: \n", "CERTIFICATE: \n", ""),
    ("CERTIFICATE\n:\n", "CERTIFICATE\n:\n", ""),
];

#[test]
fn the_first_heading_parts_them(rt: HostRuntime) -> Result<(), Fail> {
    for (input, program, certificate) in INPUTS {
        let parts = split_texts(input.as_bytes());
        assert!(rt;
            parts == (program.as_bytes(), certificate.as_bytes()),
            "{input:?}"
        );
    }
    Ok(())
}
