//! Sheets with link lines.
use crate::desk::Refused;
use crate::tables::{Case, Table};

/// Link lines: the four lines of the contents stand before the first.
pub static LINKS: [Table; 4] = [
    Table {
        head: b"NODES;3\nLINKS;3\nFAULTS;0\nTURNS;0\n",
        cases: &[
            Case {
                answer: Ok(()),
                tails: &[b"0;1\n0;2\n1;2\n", b"1;2\n0;2\n0;1\n"],
            },
            Case {
                answer: Err(Refused { number: 1, line: 5 }),
                tails: &[
                    b"",
                    b"0;1",
                    b"1;0",
                    b"\n",
                    b"01\n",
                    b"0\n",
                    b"0;\n",
                    b";1\n",
                    b";\n",
                    b"00;1\n",
                    b"0;01\n",
                    b"0;05\n",
                    b"0;000001\n",
                    b"100000;100000\n",
                    b"0; 1\n",
                    b"0 ;1\n",
                    b" 0;1\n",
                    b"0;1 \n",
                    b"0;1\r\n",
                    b"0;1;\n",
                    b"0;1;2\n",
                    b"1;0;\n",
                    b"0,1\n",
                    b"0:1\n",
                    b"LINKS;1\n",
                ],
            },
            Case {
                answer: Err(Refused { number: 3, line: 5 }),
                tails: &[
                    b"1;0\n",
                    b"0;0\n",
                    b"0;3\n",
                    b"3;4\n",
                    b"0;99999\n",
                    b"99999;0\n",
                    b"2;2\n0;1\n1;2\n",
                    b"1;0\nx\n",
                ],
            },
            Case {
                answer: Err(Refused { number: 1, line: 6 }),
                tails: &[
                    b"0;1\n",
                    b"0;1\n0;2",
                    b"0;1\n0;1",
                    b"0;1\n\n",
                    b"0;1\n0;2\r\n",
                    b"0;1\n02\n",
                ],
            },
            Case {
                answer: Err(Refused { number: 3, line: 6 }),
                tails: &[
                    b"0;1\n1;0\n1;2\n",
                    b"0;1\n2;1\n1;2\n",
                    b"0;1\n1;3\n",
                    b"0;1\n1;1\n",
                ],
            },
            Case {
                answer: Err(Refused { number: 4, line: 6 }),
                tails: &[b"0;1\n0;1\n1;2\n", b"0;1\n0;1\n", b"1;2\n1;2\n\n"],
            },
            Case {
                answer: Err(Refused { number: 1, line: 7 }),
                tails: &[b"0;1\n0;2\n", b"0;1\n0;2\n1;2", b"0;1\n0;2\n1;02\n"],
            },
            Case {
                answer: Err(Refused { number: 3, line: 7 }),
                tails: &[b"0;1\n0;2\n2;1\n", b"0;1\n0;2\n1;3\n"],
            },
            Case {
                answer: Err(Refused { number: 4, line: 7 }),
                tails: &[b"0;1\n0;2\n0;1\n", b"0;1\n0;2\n0;2\n", b"0;1\n1;2\n0;1\n"],
            },
            Case {
                answer: Err(Refused { number: 1, line: 8 }),
                tails: &[
                    b"0;1\n0;2\n1;2\n\n",
                    b"0;1\n0;2\n1;2\n0;1\n",
                    b"0;1\n0;2\n1;2\nx",
                ],
            },
        ],
    },
    Table {
        head: b"NODES;4\nLINKS;3\nFAULTS;1\nTURNS;1\n",
        cases: &[
            Case {
                answer: Err(Refused { number: 4, line: 7 }),
                tails: &[b"0;1\n0;2\n0;2\n"],
            },
            Case {
                answer: Err(Refused { number: 6, line: 7 }),
                tails: &[
                    b"0;1\n0;2\n1;2\n",
                    b"1;2\n1;3\n2;3\n",
                    b"0;1\n0;2\n1;2\n0;65536\n9\n",
                ],
            },
            Case {
                answer: Err(Refused { number: 1, line: 8 }),
                tails: &[b"0;1\n2;3\n1;2\n"],
            },
            Case {
                answer: Err(Refused { number: 2, line: 8 }),
                tails: &[b"0;1\n1;2\n2;3\n0;65536\n"],
            },
            Case {
                answer: Err(Refused { number: 7, line: 8 }),
                tails: &[b"0;1\n1;2\n2;3\n26;0\n"],
            },
            Case {
                answer: Err(Refused { number: 8, line: 9 }),
                tails: &[b"0;1\n1;2\n2;3\n25;0\n4\n"],
            },
            Case {
                answer: Err(Refused { number: 9, line: 9 }),
                tails: &[b"0;1\n1;2\n2;3\n25;0\n0\n"],
            },
        ],
    },
    Table {
        head: b"NODES;10\nLINKS;9\nFAULTS;0\nTURNS;0\n0;1\n0;2\n0;3\n0;4\n0;5\n0;6\n0;7\n0;8\n",
        cases: &[
            Case {
                answer: Ok(()),
                tails: &[b"1;9\n", b"8;9\n"],
            },
            Case {
                answer: Err(Refused {
                    number: 1,
                    line: 13,
                }),
                tails: &[b"", b"0;9", b"0;09\n"],
            },
            Case {
                answer: Err(Refused {
                    number: 3,
                    line: 13,
                }),
                tails: &[b"0;10\n", b"0;0\n", b"9;0\n"],
            },
            Case {
                answer: Err(Refused {
                    number: 4,
                    line: 13,
                }),
                tails: &[b"0;1\n", b"0;8\n"],
            },
            Case {
                answer: Err(Refused {
                    number: 5,
                    line: 13,
                }),
                tails: &[b"0;9\n", b"0;9\n1;9\n"],
            },
            Case {
                answer: Err(Refused {
                    number: 6,
                    line: 13,
                }),
                tails: &[b"1;2\n"],
            },
        ],
    },
    Table {
        head: b"NODES;10\nLINKS;9\nFAULTS;0\nTURNS;0\n0;9\n1;9\n2;9\n3;9\n4;9\n5;9\n6;9\n7;9\n",
        cases: &[
            Case {
                answer: Ok(()),
                tails: &[b"0;8\n"],
            },
            Case {
                answer: Err(Refused {
                    number: 4,
                    line: 13,
                }),
                tails: &[b"7;9\n"],
            },
            Case {
                answer: Err(Refused {
                    number: 5,
                    line: 13,
                }),
                tails: &[b"8;9\n"],
            },
        ],
    },
];
