//! Sheets with turn lines.
use crate::desk::Refused;
use crate::tables::{Case, Table};

/// Turn lines, after two link lines and after one.
pub static TURNS: [Table; 2] = [
    Table {
        head: b"NODES;3\nLINKS;2\nFAULTS;0\nTURNS;3\n0;1\n1;2\n",
        cases: &[
            Case {
                answer: Ok(()),
                tails: &[b"0\n1\n2\n", b"2\n0\n1\n"],
            },
            Case {
                answer: Err(Refused { number: 1, line: 7 }),
                tails: &[
                    b"",
                    b"0",
                    b"3",
                    b"\n",
                    b"00\n",
                    b"05\n",
                    b"000000\n",
                    b"100000\n",
                    b" 0\n",
                    b"0 \n",
                    b"0\r\n",
                    b"0;\n",
                    b"0;1\n",
                    b"-\n",
                    b";\n",
                ],
            },
            Case {
                answer: Err(Refused { number: 8, line: 7 }),
                tails: &[b"3\n", b"99999\n", b"3\n1\n2\n"],
            },
            Case {
                answer: Err(Refused { number: 1, line: 8 }),
                tails: &[b"0\n", b"0\n1"],
            },
            Case {
                answer: Err(Refused { number: 8, line: 8 }),
                tails: &[b"0\n3\n2\n"],
            },
            Case {
                answer: Err(Refused { number: 1, line: 9 }),
                tails: &[b"0\n1\n", b"0\n1\n2"],
            },
            Case {
                answer: Err(Refused { number: 8, line: 9 }),
                tails: &[b"0\n1\n3\n", b"0\n0\n3\n"],
            },
            Case {
                answer: Err(Refused { number: 9, line: 9 }),
                tails: &[
                    b"0\n1\n1\n",
                    b"1\n2\n2\n",
                    b"0\n0\n0\n",
                    b"0\n2\n0\n",
                    b"0\n1\n0\nx",
                ],
            },
            Case {
                answer: Err(Refused {
                    number: 1,
                    line: 10,
                }),
                tails: &[b"0\n1\n2\n0\n", b"0\n1\n2\n\n", b"0\n1\n2\n "],
            },
        ],
    },
    Table {
        head: b"NODES;2\nLINKS;1\nFAULTS;0\nTURNS;1\n0;1\n",
        cases: &[
            Case {
                answer: Err(Refused { number: 8, line: 6 }),
                tails: &[b"2\n"],
            },
            Case {
                answer: Err(Refused { number: 9, line: 6 }),
                tails: &[b"0\n", b"1\n"],
            },
        ],
    },
];
