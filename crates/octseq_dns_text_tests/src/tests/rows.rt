//! Rows: text of data, and its octets.

/// A type, a class, a text, and the octets of the data.
pub struct Row {
    pub rtype: u16,
    pub class: u16,
    pub text: &'static [u8],
    pub octets: &'static [u8],
}

/// Data as dnspython shows it.
pub static SHOWN: [Row; 63] = [
    Row {
        rtype: 1,
        class: 1,
        text: b"1.2.3.4",
        octets: b"\x01\x02\x03\x04",
    },
    Row {
        rtype: 28,
        class: 1,
        text: b"::",
        octets: b"\x00\x00\x00\x00\x00\x00\x00\x00\x00\x00\x00\x00\x00\x00\x00\x00",
    },
    Row {
        rtype: 28,
        class: 1,
        text: b"::1",
        octets: b"\x00\x00\x00\x00\x00\x00\x00\x00\x00\x00\x00\x00\x00\x00\x00\x01",
    },
    Row {
        rtype: 28,
        class: 1,
        text: b"::ffff:1.2.3.4",
        octets: b"\x00\x00\x00\x00\x00\x00\x00\x00\x00\x00\xff\xff\x01\x02\x03\x04",
    },
    Row {
        rtype: 28,
        class: 1,
        text: b"::1.2.3.4",
        octets: b"\x00\x00\x00\x00\x00\x00\x00\x00\x00\x00\x00\x00\x01\x02\x03\x04",
    },
    Row {
        rtype: 28,
        class: 1,
        text: b"2001:db8::1:0:0:1",
        octets: b"\x20\x01\x0d\xb8\x00\x00\x00\x00\x00\x01\x00\x00\x00\x00\x00\x01",
    },
    Row {
        rtype: 28,
        class: 1,
        text: b"2001:db8:0:1:1:1:1:1",
        octets: b"\x20\x01\x0d\xb8\x00\x00\x00\x01\x00\x01\x00\x01\x00\x01\x00\x01",
    },
    Row {
        rtype: 2,
        class: 1,
        text: b"a.example.com.",
        octets: b"\x01\x61\x07\x65\x78\x61\x6d\x70\x6c\x65\x03\x63\x6f\x6d\x00",
    },
    Row {
        rtype: 5,
        class: 1,
        text: b"example.com.",
        octets: b"\x07\x65\x78\x61\x6d\x70\x6c\x65\x03\x63\x6f\x6d\x00",
    },
    Row {
        rtype: 12,
        class: 1,
        text: b".",
        octets: b"\x00",
    },
    Row {
        rtype: 15,
        class: 1,
        text: b"10 mail.example.com.",
        octets: b"\x00\x0a\x04\x6d\x61\x69\x6c\x07\x65\x78\x61\x6d\x70\x6c\x65\x03\x63\x6f\x6d\x00",
    },
    Row {
        rtype: 6,
        class: 1,
        text: b"ns.example.com. adm.example.com. 1 3600 600 604800 4294967295",
        octets: b"\x02\x6e\x73\x07\x65\x78\x61\x6d\x70\x6c\x65\x03\x63\x6f\x6d\x00\x03\x61\x64\x6d\x07\x65\
            \x78\x61\x6d\x70\x6c\x65\x03\x63\x6f\x6d\x00\x00\x00\x00\x01\x00\x00\x0e\x10\x00\x00\x02\
            \x58\x00\x09\x3a\x80\xff\xff\xff\xff",
    },
    Row {
        rtype: 16,
        class: 1,
        text: b"\"a\\\"\\\\\" \"\\000\\255 \"",
        octets: b"\x03\x61\x22\x5c\x03\x00\xff\x20",
    },
    Row {
        rtype: 16,
        class: 1,
        text: b"\"\"",
        octets: b"\x00",
    },
    Row {
        rtype: 33,
        class: 1,
        text: b"1 2 443 example.com.",
        octets: b"\x00\x01\x00\x02\x01\xbb\x07\x65\x78\x61\x6d\x70\x6c\x65\x03\x63\x6f\x6d\x00",
    },
    Row {
        rtype: 15,
        class: 3,
        text: b"10 example.com.",
        octets: b"\x00\x0a\x07\x65\x78\x61\x6d\x70\x6c\x65\x03\x63\x6f\x6d\x00",
    },
    Row {
        rtype: 43,
        class: 254,
        text: b"1 5 1 ff",
        octets: b"\x00\x01\x05\x01\xff",
    },
    Row {
        rtype: 39,
        class: 1,
        text: b"a.",
        octets: b"\x01\x61\x00",
    },
    Row {
        rtype: 13,
        class: 1,
        text: b"\"A\" \"\"",
        octets: b"\x01\x41\x00",
    },
    Row {
        rtype: 35,
        class: 1,
        text: b"100 10 \"s\" \"\" \"!\\\\\\\"\" example.com.",
        octets: b"\x00\x64\x00\x0a\x01\x73\x00\x03\x21\x5c\x22\x07\x65\x78\x61\x6d\x70\x6c\x65\x03\x63\x6f\
            \x6d\x00",
    },
    Row {
        rtype: 257,
        class: 1,
        text: b"0 issue \"\\000\\255\\\"\"",
        octets: b"\x00\x05\x69\x73\x73\x75\x65\x00\xff\x22",
    },
    Row {
        rtype: 257,
        class: 1,
        text: b"128 a \"\"",
        octets: b"\x80\x01\x61",
    },
    Row {
        rtype: 43,
        class: 1,
        text: b"1 5 1 ff",
        octets: b"\x00\x01\x05\x01\xff",
    },
    Row {
        rtype: 59,
        class: 1,
        text: b"0 0 0 00",
        octets: b"\x00\x00\x00\x00\x00",
    },
    Row {
        rtype: 48,
        class: 1,
        text: b"257 3 13 +/8=",
        octets: b"\x01\x01\x03\x0d\xfb\xff",
    },
    Row {
        rtype: 60,
        class: 1,
        text: b"0 3 0 AA==",
        octets: b"\x00\x00\x03\x00\x00",
    },
    Row {
        rtype: 46,
        class: 1,
        text: b"A 5 2 300 4294967295 0 7 foo. AQ==",
        octets: b"\x00\x01\x05\x02\x00\x00\x01\x2c\xff\xff\xff\xff\x00\x00\x00\x00\x00\x07\x03\x66\x6f\x6f\
            \x00\x01",
    },
    Row {
        rtype: 46,
        class: 1,
        text: b"TYPE1234 5 2 300 0 0 7 . AQ==",
        octets: b"\x04\xd2\x05\x02\x00\x00\x01\x2c\x00\x00\x00\x00\x00\x00\x00\x00\x00\x07\x00\x01",
    },
    Row {
        rtype: 47,
        class: 1,
        text: b". A MX RRSIG NSEC CAA",
        octets: b"\x00\x00\x06\x40\x01\x00\x00\x00\x03\x01\x01\x40",
    },
    Row {
        rtype: 47,
        class: 1,
        text: b"a.",
        octets: b"\x01\x61\x00",
    },
    Row {
        rtype: 50,
        class: 1,
        text: b"1 0 10 - 0110 A",
        octets: b"\x01\x00\x00\x0a\x00\x02\x00\x42\x00\x01\x40",
    },
    Row {
        rtype: 50,
        class: 1,
        text: b"1 1 0 abcd vs",
        octets: b"\x01\x01\x00\x00\x02\xab\xcd\x01\xff",
    },
    Row {
        rtype: 51,
        class: 1,
        text: b"1 0 10 -",
        octets: b"\x01\x00\x00\x0a\x00",
    },
    Row {
        rtype: 51,
        class: 1,
        text: b"1 0 10 abcd",
        octets: b"\x01\x00\x00\x0a\x02\xab\xcd",
    },
    Row {
        rtype: 52,
        class: 1,
        text: b"3 1 1 0aff",
        octets: b"\x03\x01\x01\x0a\xff",
    },
    Row {
        rtype: 53,
        class: 1,
        text: b"0 0 0 00",
        octets: b"\x00\x00\x00\x00",
    },
    Row {
        rtype: 44,
        class: 1,
        text: b"4 2 7f",
        octets: b"\x04\x02\x7f",
    },
    Row {
        rtype: 256,
        class: 1,
        text: b"10 1 \"a\\\"\\\\\\255\"",
        octets: b"\x00\x0a\x00\x01\x61\x22\x5c\xff",
    },
    Row {
        rtype: 64,
        class: 1,
        text: b"0 .",
        octets: b"\x00\x00\x00",
    },
    Row {
        rtype: 64,
        class: 1,
        text: b"0 . port=\"53\"",
        octets: b"\x00\x00\x00\x00\x03\x00\x02\x00\x35",
    },
    Row {
        rtype: 64,
        class: 1,
        text: b"1 . no-default-alpn",
        octets: b"\x00\x01\x00\x00\x02\x00\x00",
    },
    Row {
        rtype: 64,
        class: 1,
        text: b"1 . mandatory=\"port\"",
        octets: b"\x00\x01\x00\x00\x00\x00\x02\x00\x03",
    },
    Row {
        rtype: 64,
        class: 1,
        text: b"1 . ech",
        octets: b"\x00\x01\x00\x00\x05\x00\x00",
    },
    Row {
        rtype: 64,
        class: 1,
        text: b"1 . alpn=\"a\\\\\\\\b\\\\,c\\\"\\000\"",
        octets: b"\x00\x01\x00\x00\x01\x00\x08\x07\x61\x5c\x62\x2c\x63\x22\x00",
    },
    Row {
        rtype: 65,
        class: 1,
        text: b"1 foo. mandatory=\"alpn,port\" alpn=\"h2,h3\" port=\"443\" ipv4hint=\"1.2.3.4,5.6.7.8\" ech=\"A\
            A==\" ipv6hint=\"2001:db8::1\" key7 key667=\"\\\"\\000\"",
        octets: b"\x00\x01\x03\x66\x6f\x6f\x00\x00\x00\x00\x04\x00\x01\x00\x03\x00\x01\x00\x06\x02\x68\x32\
            \x02\x68\x33\x00\x03\x00\x02\x01\xbb\x00\x04\x00\x08\x01\x02\x03\x04\x05\x06\x07\x08\x00\
            \x05\x00\x01\x00\x00\x06\x00\x10\x20\x01\x0d\xb8\x00\x00\x00\x00\x00\x00\x00\x00\x00\x00\
            \x00\x01\x00\x07\x00\x00\x02\x9b\x00\x02\x22\x00",
    },
    Row {
        rtype: 39,
        class: 1,
        text: b".",
        octets: b"\x00",
    },
    Row {
        rtype: 50,
        class: 1,
        text: b"1 0 0 - 00",
        octets: b"\x01\x00\x00\x00\x00\x01\x00",
    },
    Row {
        rtype: 47,
        class: 1,
        text: b". ANY",
        octets: b"\x00\x00\x20\x00\x00\x00\x00\x00\x00\x00\x00\x00\x00\x00\x00\x00\x00\x00\x00\x00\x00\x00\
            \x00\x00\x00\x00\x00\x00\x00\x00\x00\x00\x00\x00\x01",
    },
    Row {
        rtype: 47,
        class: 1,
        text: b". TYPE65535",
        octets: b"\x00\xff\x20\x00\x00\x00\x00\x00\x00\x00\x00\x00\x00\x00\x00\x00\x00\x00\x00\x00\x00\x00\
            \x00\x00\x00\x00\x00\x00\x00\x00\x00\x00\x00\x00\x01",
    },
    Row {
        rtype: 47,
        class: 1,
        text: b". TYPE0",
        octets: b"\x00\x00\x01\x80",
    },
    Row {
        rtype: 65,
        class: 1,
        text: b"0 . port=\"53\"",
        octets: b"\x00\x00\x00\x00\x03\x00\x02\x00\x35",
    },
    Row {
        rtype: 65,
        class: 1,
        text: b"1 . alpn=\"a\\\\\\\\b\\\\,c\\\"\\000\"",
        octets: b"\x00\x01\x00\x00\x01\x00\x08\x07\x61\x5c\x62\x2c\x63\x22\x00",
    },
    Row {
        rtype: 46,
        class: 1,
        text: b"TYPE1234 5 2 300 4294967295 0 7 . AQ==",
        octets: b"\x04\xd2\x05\x02\x00\x00\x01\x2c\xff\xff\xff\xff\x00\x00\x00\x00\x00\x07\x00\x01",
    },
    Row {
        rtype: 64,
        class: 1,
        text: b"1 . key65535",
        octets: b"\x00\x01\x00\xff\xff\x00\x00",
    },
    Row {
        rtype: 1,
        class: 1,
        text: b"\\# 0",
        octets: b"",
    },
    Row {
        rtype: 2,
        class: 1,
        text: b"\\# 2 0161",
        octets: b"\x01\x61",
    },
    Row {
        rtype: 16,
        class: 1,
        text: b"\\# 0",
        octets: b"",
    },
    Row {
        rtype: 41,
        class: 1,
        text: b"\\# 4 000a0000",
        octets: b"\x00\x0a\x00\x00",
    },
    Row {
        rtype: 17,
        class: 1,
        text: b"\\# 4 01610000",
        octets: b"\x01\x61\x00\x00",
    },
    Row {
        rtype: 1,
        class: 3,
        text: b"\\# 4 01020304",
        octets: b"\x01\x02\x03\x04",
    },
    Row {
        rtype: 65,
        class: 3,
        text: b"\\# 3 000100",
        octets: b"\x00\x01\x00",
    },
    Row {
        rtype: 47,
        class: 1,
        text: b"\\# 5 0000024000",
        octets: b"\x00\x00\x02\x40\x00",
    },
    Row {
        rtype: 51,
        class: 1,
        text: b"\\# 6 0100000a0000",
        octets: b"\x01\x00\x00\x0a\x00\x00",
    },
];

/// Data as RFC 3597, 5, shows it.
pub static OPAQUE: [Row; 4] = [
    Row {
        rtype: 731,
        class: 32,
        text: b"\\# 6 abcd ef 01 23 45",
        octets: b"\xab\xcd\xef\x01\x23\x45",
    },
    Row {
        rtype: 62347,
        class: 4,
        text: b"\\# 0",
        octets: b"",
    },
    Row {
        rtype: 1,
        class: 1,
        text: b"\\# 4 0A000001",
        octets: b"\x0a\x00\x00\x01",
    },
    Row {
        rtype: 1,
        class: 1,
        text: b"10.0.0.2",
        octets: b"\x0a\x00\x00\x02",
    },
];

/// Data in runs, in other letters, with escapes, with dates.
pub static SPELLED: [Row; 12] = [
    Row {
        rtype: 43,
        class: 1,
        text: b"1  5 1\tF F0 0  ",
        octets: b"\x00\x01\x05\x01\xff\x00",
    },
    Row {
        rtype: 48,
        class: 1,
        text: b"256 3 5 AQ ID",
        octets: b"\x01\x00\x03\x05\x01\x02\x03",
    },
    Row {
        rtype: 16,
        class: 1,
        text: b"a\\032b \"c;d\" \\\"",
        octets: b"\x03\x61\x20\x62\x03\x63\x3b\x64\x01\x22",
    },
    Row {
        rtype: 16,
        class: 3,
        text: b"a \\#",
        octets: b"\x01\x61\x01\x23",
    },
    Row {
        rtype: 16,
        class: 1,
        text: b"\"\\#\"",
        octets: b"\x01\x23",
    },
    Row {
        rtype: 5,
        class: 1,
        text: b"a\\.b.\\099.",
        octets: b"\x03\x61\x2e\x62\x01\x63\x00",
    },
    Row {
        rtype: 46,
        class: 1,
        text: b"type1 5 2 0300 19700101000000 20030322173103 7 . AQ==",
        octets: b"\x00\x01\x05\x02\x00\x00\x01\x2c\x00\x00\x00\x00\x3e\x7c\x9d\xd7\x00\x07\x00\x01",
    },
    Row {
        rtype: 1,
        class: 1,
        text: b"\\# 4 0a0 00 001",
        octets: b"\x0a\x00\x00\x01",
    },
    Row {
        rtype: 257,
        class: 1,
        text: b"0 issue ca.example.net",
        octets: b"\x00\x05\x69\x73\x73\x75\x65\x63\x61\x2e\x65\x78\x61\x6d\x70\x6c\x65\x2e\x6e\x65\x74",
    },
    Row {
        rtype: 256,
        class: 1,
        text: b"1 1 a",
        octets: b"\x00\x01\x00\x01\x61",
    },
    Row {
        rtype: 13,
        class: 1,
        text: b"a \"\"",
        octets: b"\x01\x61\x00",
    },
    Row {
        rtype: 61,
        class: 1,
        text: b"A Q I =",
        octets: b"\x01\x02",
    },
];
